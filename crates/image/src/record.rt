// The test of one record at its place.
// Document 01, "Graph image" and "Turned back": cut, kind and where it may stand, count, fields. A symbol has as many bytes as the version says.
ghost use Rattle.std.specs.Prelude.{◌≡◌, ℕ, ◌+◌, ◌*◌, ◌<◌, ◌≤◌, length};
ghost use Rattle.semantics.specs.declared.refusal.ImageRefusal.TheVariants.{Record};
ghost use Rattle.semantics.specs.Lists.{pick};
ghost use Rattle.semantics.specs.Answer.{ok, refuse};
ghost use Rattle.semantics.specs.Bytes.{byte_at, long};
ghost use Rattle.semantics.specs.Image.{longest_image, is_cut, may_stand, body_size, fields_fit, next_place, node_record, edge_record};
ghost use Rattle.image.specs.Reached.{answer_of};
ghost use Rattle.image.specs.Records.{has_symbol, Fielded, Named, node_here, edge_here, NodePut, EdgePut, high_in, scope_in};
ghost use Rattle.image.specs.Versions.{width_of};
ghost use Rattle.image.specs.Index.{BLOCK, Blocks};

use crate::blocks;
use crate::version::Version;
use semantics::graph::{JUMP, ROOT};
use semantics::kinds;
use semantics::refusal::ImageRefusal;
use words::bytes;

// Where the fields of a record stand, counted from its count byte.
const KIND_AT: usize = 1;

const FILE_AT: usize = 2;

const SYMBOL_AT: usize = 4;

const SOURCE_AT: usize = 2;

const TARGET_AT: usize = 4;

const PRECEDENCE_AT: usize = 6;

// The bytes of an edge record with its count byte.
const REMOVED_BYTES: usize = 2;

const LIVE_BYTES: usize = 10;

// The count of each kind of node: the bytes behind the count byte, but for those of a symbol.
const BARE_BODY: u32 = 1;

const SCOPE_BODY: u32 = 4;

const NAMED_BODY: u32 = 4;

const ATTACHED_BODY: u32 = 6;

const DROP_BODY: u32 = 3;

// No count byte, a count of 0, or a count that reaches behind the last byte.
fn is_cut(image: &[u8], at: usize) -> bool
    requires { length image.now ≤ longest_image }
    ensures { result ≡ is_cut image.now at }
{
    if image.len() <= at {
        return true;
    }
    let count = bytes::byte(image, at);
    if count == 0 {
        return true;
    }
    image.len() <= at + count as usize
}

// Root is node 0 and jump is node 1, and neither stands elsewhere.
fn may_stand(kind: u32, n: u32) -> bool
    ensures { result ≡ may_stand kind n }
{
    if n == ROOT {
        return kind == kinds::ROOT;
    }
    if n == JUMP {
        return kind == kinds::JUMP_TO_SCOPE;
    }
    if kind == kinds::ROOT {
        return false;
    }
    kind != kinds::JUMP_TO_SCOPE
}

// The kinds 4 to 7.
fn has_symbol(kind: u32) -> bool
    ensures { result ≡ has_symbol kind }
{
    if kind < kinds::PUSH {
        return false;
    }
    kind < kinds::DROP_SCOPES
}

// The bytes of a node record behind its count byte. No table: one would be laid out anew for every record.
fn body_size(version: Version, kind: u32) -> u32
    requires { kind < 9 }
    ensures { result ≡ body_size (width_of version) kind }
{
    if has_symbol(kind) {
        if kind == kinds::PUSH_SCOPED {
            return ATTACHED_BODY + version.symbol_bytes();
        }
        return NAMED_BODY + version.symbol_bytes();
    }
    if kind == kinds::SCOPE {
        return SCOPE_BODY;
    }
    if kind == kinds::DROP_SCOPES {
        return DROP_BODY;
    }
    BARE_BODY
}

// The symbol of the kinds 4 to 7: its last four bytes, and the four in front of them where it has eight.
fn symbol_low(image: &[u8], version: Version, at: usize) -> u32
    requires { Named (width_of version) image.now at }
    ensures { result ≡ long image.now (at + width_of version) }
{
    bytes::long(image, at + version.symbol_bytes() as usize)
}

fn symbol_high(image: &[u8], version: Version, at: usize) -> u32
    requires { Named (width_of version) image.now at }
    ensures { result ≡ high_in (width_of version) image.now at }
{
    match version {
        Version::Narrow => 0,
        Version::Wide => bytes::long(image, at + SYMBOL_AT),
    }
}

// The attached scope of kind 6, behind the symbol.
fn scope(image: &[u8], version: Version, at: usize, kind: u32) -> u32
    requires { Fielded (width_of version) image.now at kind }
    ensures { result ≡ scope_in (width_of version) image.now at kind }
{
    if kind == kinds::PUSH_SCOPED {
        return bytes::short(image, at + SYMBOL_AT + version.symbol_bytes() as usize);
    }
    0
}

// A file below F and, but in drop-scopes, a flag of 0 or 1; then the node's words.
fn fields(
    image: &[u8],
    version: Version,
    files: u32,
    n: u32,
    at: usize,
    kind: u32,
    count: usize,
    index: &mut [u32],
) -> Result<usize, ImageRefusal>
    requires fielded { Fielded (width_of version) image.now at kind × (count ≡ byte_at image.now at) }
    requires blocks { Blocks index.old }
    requires n_in_bounds { BLOCK * n < length index.old }
    ensures result_value { answer_of result ≡ pick (fields_fit image.now files kind at (byte_at image.now at)) (ok (next_place image.now at)) (refuse (Record at)) }
    ensures by_index { (x : ℕ) → result ≡ Ok x → NodePut n (node_here (width_of version) image.now at) index.old index.new }
{
    let file = bytes::short(image, at + FILE_AT);
    if files <= file {
        return Err(ImageRefusal::Record { place: at as u32 });
    }
    if kind == kinds::DROP_SCOPES {
        blocks::put_node(index, n, kind, 0, file, 0, 0, 0);
        return Ok(at + count + 1);
    }
    let flag = bytes::byte(image, at + count);
    if 1 < flag {
        return Err(ImageRefusal::Record { place: at as u32 });
    }
    if kind == kinds::SCOPE {
        blocks::put_node(index, n, kind, flag, file, 0, 0, 0);
        return Ok(at + count + 1);
    }
    let low = symbol_low(image, version, at);
    let high = symbol_high(image, version, at);
    let scope = scope(image, version, at, kind);
    blocks::put_node(index, n, kind, flag, file, low, high, scope);
    Ok(at + count + 1)
}

// Cut, kind and where it may stand, count, fields; the node's words are put into the index on the way.
pub(crate) fn node(
    image: &[u8],
    version: Version,
    files: u32,
    n: u32,
    at: usize,
    index: &mut [u32],
) -> Result<usize, ImageRefusal>
    requires image_len_bound { length image.now ≤ longest_image }
    requires blocks { Blocks index.old }
    requires n_in_bounds { BLOCK * n < length index.old }
    ensures result_value { answer_of result ≡ node_record (width_of version) image.now files n at }
    ensures by_index { (x : ℕ) → result ≡ Ok x → NodePut n (node_here (width_of version) image.now at) index.old index.new }
{
    if is_cut(image, at) {
        return Err(ImageRefusal::Length);
    }
    let kind = bytes::byte(image, at + KIND_AT);
    if kinds::DROP_SCOPES < kind {
        return Err(ImageRefusal::Record { place: at as u32 });
    }
    if !may_stand(kind, n) {
        return Err(ImageRefusal::Record { place: at as u32 });
    }
    let count = bytes::byte(image, at);
    if count != body_size(version, kind) {
        return Err(ImageRefusal::Length);
    }
    if kind < kinds::SCOPE {
        blocks::put_node(index, n, kind, 0, 0, 0, 0, 0);
        return Ok(at + count as usize + 1);
    }
    fields(image, version, files, n, at, kind, count as usize, index)
}

// Cut, kind, count: an edge has 1 or 9 bytes behind its count byte.
pub(crate) fn edge(
    image: &[u8],
    e: u32,
    at: usize,
    index: &mut [u32],
) -> Result<usize, ImageRefusal>
    requires image_len_bound { length image.now ≤ longest_image }
    requires blocks { Blocks index.old }
    requires e_in_bounds { BLOCK * e < length index.old }
    ensures result_value { answer_of result ≡ edge_record image.now at }
    ensures by_index { (x : ℕ) → result ≡ Ok x → EdgePut e (edge_here image.now at) index.old index.new }
{
    if is_cut(image, at) {
        return Err(ImageRefusal::Length);
    }
    let kind = bytes::byte(image, at + KIND_AT);
    if kinds::LIVE < kind {
        return Err(ImageRefusal::Record { place: at as u32 });
    }
    let count = bytes::byte(image, at);
    if count != kind * 8 + 1 {
        return Err(ImageRefusal::Length);
    }
    if kind < kinds::LIVE {
        blocks::put_edge(index, e, 0, 0, 0);
        return Ok(at + REMOVED_BYTES);
    }
    blocks::put_edge(
        index,
        e,
        bytes::short(image, at + SOURCE_AT) + 1,
        bytes::short(image, at + TARGET_AT),
        bytes::long(image, at + PRECEDENCE_AT),
    );
    Ok(at + LIVE_BYTES)
}
