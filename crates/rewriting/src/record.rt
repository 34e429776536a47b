// One record written into lent bytes. Document 01, "Graph image": a count byte, the kind, the fields. A symbol has as many bytes as the version says.
ghost use Rattle.std.specs.Prelude.{◌≡◌, [], ◌∷◌, ◌++◌, ◌+◌, ◌<◌, ◌≤◌, length};
ghost use Rattle.semantics.specs.Bytes.Placed.{put};
ghost use Rattle.semantics.specs.Bytes.Written.{be, unsigned};
ghost use Rattle.semantics.specs.Image.Encoding.{bit, encode_node, encode_edge};
ghost use Rattle.rewriting.specs.Records.{begun};
ghost use Rattle.image.specs.Versions.{width_of};

use image::version::Version;
use semantics::graph::{Edge, Node};
use semantics::kinds;
use words::{bytes, halves, writing};

// Where the fields of a record stand, counted from its count byte.
const KIND_AT: usize = 1;

const FILE_AT: usize = 2;

const SYMBOL_AT: usize = 4;

const TARGET_AT: usize = 4;

const PRECEDENCE_AT: usize = 6;

// The bytes of a word and of a number of 16 bits.
const WORD: usize = 4;

const SHORT: usize = 2;

// The count of a record: the bytes behind the count byte, but for those of a symbol.
const BARE: u32 = 1;

const SCOPE: u32 = 4;

const NAMED: u32 = 4;

const ATTACHED: u32 = 6;

const DROP_SCOPES: u32 = 3;

const LIVE: u32 = 9;

fn flag(set: bool) -> u32
    ensures { result ≡ bit set }
{
    u32::from(set)
}

// The count and the kind: all of a record that has no fields.
fn write_head(area: &mut [u8], at: usize, count: u32, kind: u32)
    requires count_bound { (count < 256) × (kind < 256) }
    requires at_in_bounds { at + 2 ≤ length area.old }
    ensures { area.new ≡ put at (count ∷ kind ∷ []) area.old }
{
    writing::put_byte(area, at, count);
    writing::put_byte(area, at + KIND_AT, kind);
}

// The count, the kind and the file.
fn begin(area: &mut [u8], at: usize, count: u32, kind: u32, file: u32)
    requires count_bound { (count < 256) × (kind < 256) }
    requires at_in_bounds { at + 4 ≤ length area.old }
    ensures { area.new ≡ put at (begun count kind file) area.old }
{
    write_head(area, at, count, kind);
    writing::put_short(area, at + FILE_AT, file);
}

// Four bytes hold the low word; eight the high word and behind it the low one.
fn write_symbol(area: &mut [u8], at: usize, version: Version, symbol: u64)
    requires { at + width_of version ≤ length area.old }
    ensures { area.new ≡ put at (be (width_of version) symbol) area.old }
{
    match version {
        Version::Narrow => writing::put_long(area, at, halves::low(symbol)),
        Version::Wide => {
            writing::put_long(area, at, halves::high(symbol));
            writing::put_long(area, at + WORD, halves::low(symbol));
        }
    }
}

// A record without fields.
fn write_bare(area: &mut [u8], at: usize, kind: u32) -> usize
    requires kind_bound { kind < 256 }
    requires at_in_bounds { at + 2 ≤ length area.old }
    ensures value { result ≡ at + 2 }
    ensures area_after { area.new ≡ put at (1 ∷ kind ∷ []) area.old }
{
    write_head(area, at, BARE, kind);
    at + FILE_AT
}

fn write_scope(area: &mut [u8], at: usize, file: u32, exported: bool) -> usize
    requires { at + 5 ≤ length area.old }
    ensures value { result ≡ at + 5 }
    ensures area_after { area.new ≡ put at (begun 4 3 file ++ (bit exported ∷ [])) area.old }
{
    begin(area, at, SCOPE, kinds::SCOPE, file);
    let behind = at + SYMBOL_AT;
    writing::put_byte(area, behind, flag(exported));
    behind + 1
}

// A record with a symbol and a flag: the kinds 4, 5 and 7.
fn write_named(
    area: &mut [u8],
    at: usize,
    version: Version,
    kind: u32,
    file: u32,
    symbol: u64,
    marked: bool,
) -> usize
    requires kind_bound { kind < 256 }
    requires version_in_bounds { at + (5 + width_of version) ≤ length area.old }
    ensures value { result ≡ at + (5 + width_of version) }
    ensures area_after { area.new ≡ put at (begun (4 + width_of version) kind file ++ (be (width_of version) symbol ++ (bit marked ∷ []))) area.old }
{
    let width = version.symbol_bytes();
    begin(area, at, NAMED + width, kind, file);
    write_symbol(area, at + SYMBOL_AT, version, symbol);
    let behind = at + SYMBOL_AT + width as usize;
    writing::put_byte(area, behind, flag(marked));
    behind + 1
}

// The one record that names a scope, behind its symbol.
fn write_attached(
    area: &mut [u8],
    at: usize,
    version: Version,
    file: u32,
    symbol: u64,
    scope: u32,
    marked: bool,
) -> usize
    requires { at + (7 + width_of version) ≤ length area.old }
    ensures value { result ≡ at + (7 + width_of version) }
    ensures area_after { area.new ≡ put at (begun (6 + width_of version) 6 file ++ (be (width_of version) symbol ++ (be 2 scope ++ (bit marked ∷ [])))) area.old }
{
    let width = version.symbol_bytes();
    let first = at + SYMBOL_AT;
    let second = first + width as usize;
    let last = second + SHORT;
    begin(area, at, ATTACHED + width, kinds::PUSH_SCOPED, file);
    write_symbol(area, first, version, symbol);
    writing::put_short(area, second, scope);
    writing::put_byte(area, last, flag(marked));
    last + 1
}

fn write_drop(area: &mut [u8], at: usize, file: u32) -> usize
    requires { at + 4 ≤ length area.old }
    ensures value { result ≡ at + 4 }
    ensures area_after { area.new ≡ put at (begun 3 8 file) area.old }
{
    begin(area, at, DROP_SCOPES, kinds::DROP_SCOPES, file);
    at + SYMBOL_AT
}

// The record of a node; the place behind it.
pub(crate) fn write_node(area: &mut [u8], at: usize, version: Version, node: Node) -> usize
    requires { at + length (encode_node (width_of version) node) ≤ length area.old }
    ensures value { result ≡ at + length (encode_node (width_of version) node) }
    ensures area_after { area.new ≡ put at (encode_node (width_of version) node) area.old }
{
    match node {
        Node::Removed => write_bare(area, at, kinds::REMOVED),
        Node::Root => write_bare(area, at, kinds::ROOT),
        Node::JumpToScope => write_bare(area, at, kinds::JUMP_TO_SCOPE),
        Node::Scope { file, exported } => write_scope(area, at, file.0, exported),
        Node::Push {
            file,
            symbol,
            reference,
        } => write_named(area, at, version, kinds::PUSH, file.0, symbol, reference),
        Node::Pop {
            file,
            symbol,
            definition,
        } => write_named(area, at, version, kinds::POP, file.0, symbol, definition),
        Node::PushScoped {
            file,
            symbol,
            scope,
            reference,
        } => write_attached(area, at, version, file.0, symbol, scope.0, reference),
        Node::PopScoped {
            file,
            symbol,
            definition,
        } => write_named(
            area,
            at,
            version,
            kinds::POP_SCOPED,
            file.0,
            symbol,
            definition,
        ),
        Node::DropScopes { file } => write_drop(area, at, file.0),
    }
}

fn write_live(area: &mut [u8], at: usize, source: u32, target: u32, precedence: i32) -> usize
    requires { at + 10 ≤ length area.old }
    ensures value { result ≡ at + 10 }
    ensures area_after { area.new ≡ put at (begun 9 1 source ++ (be 2 target ++ be 4 (unsigned precedence))) area.old }
{
    begin(area, at, LIVE, kinds::LIVE, source);
    writing::put_short(area, at + TARGET_AT, target);
    let behind = at + PRECEDENCE_AT;
    writing::put_long(area, behind, bytes::unsigned(precedence));
    behind + WORD
}

// The record of an edge; the place behind it.
pub(crate) fn write_edge(area: &mut [u8], at: usize, edge: Edge) -> usize
    requires { at + length (encode_edge edge) ≤ length area.old }
    ensures value { result ≡ at + length (encode_edge edge) }
    ensures area_after { area.new ≡ put at (encode_edge edge) area.old }
{
    match edge {
        Edge::Removed => write_bare(area, at, kinds::REMOVED),
        Edge::Live {
            source,
            target,
            precedence,
        } => write_live(area, at, source.0, target.0, precedence),
    }
}
