// The header of an image. Document 01, "Turned back", and document 02, order 3: size and length as 2, then the version as 1, then a size
// that is too great for the version as 2, then the counts as 3.
ghost use Rattle.std.specs.Prelude.{◌≡◌, ◌<◌, length, MatchOption};
ghost use Rattle.semantics.specs.Bytes.{byte_at};
ghost use Rattle.semantics.specs.Image.{symbol_bytes, width_in, header, files_of, nodes_of, edges_of};
ghost use Rattle.image.specs.Versions.{number_of, width_of};
ghost use Rattle.image.specs.Reached.{answer_of, is_sized, counts_answer};

use crate::version;
use crate::version::Version;
use semantics::refusal::ImageRefusal;
use words::bytes;

// Where the length, the three counts and the first record stand.
pub const LENGTH_AT: usize = 1;

pub const FILES_AT: usize = 5;

pub const NODES_AT: usize = 7;

pub const EDGES_AT: usize = 9;

pub const FIRST_RECORD: usize = 11;

const MOST_FILES: u32 = 256;

const FEWEST_NODES: u32 = 2;

const MOST_NODES: u32 = 2048;

const MOST_EDGES: u32 = 4096;

pub fn files(image: &[u8]) -> u32
    requires { 10 < length image.now }
    ensures { result ≡ files_of image.now }
{
    bytes::short(image, FILES_AT)
}

pub fn nodes(image: &[u8]) -> u32
    requires { 10 < length image.now }
    ensures { result ≡ nodes_of image.now }
{
    bytes::short(image, NODES_AT)
}

pub fn edges(image: &[u8]) -> u32
    requires { 10 < length image.now }
    ensures { result ≡ edges_of image.now }
{
    bytes::short(image, EDGES_AT)
}

// F, N and M within their bounds.
fn counts(image: &[u8]) -> Result<usize, ImageRefusal>
    requires { 10 < length image.now }
    ensures { answer_of result ≡ counts_answer image.now }
{
    if MOST_FILES < files(image) {
        return Err(ImageRefusal::Counts);
    }
    let n = nodes(image);
    if n < FEWEST_NODES {
        return Err(ImageRefusal::Counts);
    }
    if MOST_NODES < n {
        return Err(ImageRefusal::Counts);
    }
    if MOST_EDGES < edges(image) {
        return Err(ImageRefusal::Counts);
    }
    Ok(FIRST_RECORD)
}

// The version, where it is one of the two.
pub fn version(image: &[u8]) -> Option<Version>
    requires { 10 < length image.now }
    ensures { MatchOption result (width_in image.now ≡ 0) (λ v. (byte_at image.now 0 ≡ number_of v) × (width_in image.now ≡ width_of v)) }
{
    match bytes::byte(image, 0) {
        version::NARROW => Some(Version::Narrow),
        version::WIDE => Some(Version::Wide),
        _ => None,
    }
}

// Neither too short nor too long for any version, and as long as it says.
pub fn sized(image: &[u8]) -> bool
    ensures { result ≡ is_sized image.now }
{
    if image.len() < FIRST_RECORD {
        return false;
    }
    if version::MOST_BYTES < image.len() {
        return false;
    }
    bytes::long(image, LENGTH_AT) as usize + FILES_AT == image.len()
}

// The place of the first record, or the refusal.
pub fn header(image: &[u8]) -> Result<usize, ImageRefusal>
    ensures { answer_of result ≡ header symbol_bytes image.now }
{
    if !sized(image) {
        return Err(ImageRefusal::Length);
    }
    let Some(version) = version(image) else {
        return Err(ImageRefusal::Version);
    };
    if version.most_bytes() < image.len() {
        return Err(ImageRefusal::Length);
    }
    counts(image)
}
