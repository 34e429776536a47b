// The records one after the other, each tested and put into the index in the same pass.
// Document 01, "Turned back": the records in order, nodes first.
ghost use Rattle.std.specs.Prelude.{◌≡◌, ℕ, ◌+◌, ◌*◌, ◌<◌, ◌≤◌, length};
ghost use Rattle.semantics.specs.Image.{longest_image, first_record, node_record, edge_record, scan, place_of};
ghost use Rattle.image.specs.Filling.{Held};
ghost use Rattle.image.specs.Records.{Headed, Room, NodesPut, EdgesPut, records_of, graph_read};
ghost use Rattle.image.specs.Reached.{answer_of};
ghost use Rattle.image.specs.Versions.{width_of};
ghost use Rattle.image.specs.Index.{BLOCK, Blocks, Fresh};

use crate::header::FIRST_RECORD;
use crate::version::Version;
use crate::{header, record};
use semantics::refusal::ImageRefusal;
use words::bytes;

fn nodes(
    image: &[u8],
    version: Version,
    files: u32,
    count: u32,
    index: &mut [u32],
) -> Result<usize, ImageRefusal>
    requires image_len_bound { length image.now ≤ longest_image }
    requires blocks { Blocks index.old }
    requires count_in_bounds { BLOCK * count ≤ length index.old }
    ensures result_value { answer_of result ≡ scan (node_record (width_of version) image.now files) 0 first_record count }
    ensures by_index { (x : ℕ) → result ≡ Ok x → (x ≡ place_of image.now first_record count) × NodesPut (width_of version) image.now count index.old index.new }
{
    let mut at = FIRST_RECORD;
    for n in 0..count {
        at = record::node(image, version, files, n, at, index)?;
    }
    Ok(at)
}

fn edges(image: &[u8], from: usize, count: u32, index: &mut [u32]) -> Result<usize, ImageRefusal>
    requires image_len_bound { length image.now ≤ longest_image }
    requires blocks { Blocks index.old }
    requires count_in_bounds { BLOCK * count ≤ length index.old }
    ensures result_value { answer_of result ≡ scan (λ e. edge_record image.now) 0 from count }
    ensures by_index { (x : ℕ) → result ≡ Ok x → EdgesPut image.now from count index.old index.new }
{
    let mut at = from;
    for e in 0..count {
        at = record::edge(image, e, at, index)?;
    }
    Ok(at)
}

// All records: the first refusal, or the place behind the last one and the graph in the index.
pub fn records(image: &[u8], index: &mut [u32]) -> Result<usize, ImageRefusal>
    requires headed { Headed image.now }
    requires fresh { Fresh index.old }
    requires room { Room image.now index.old }
    ensures result_value { answer_of result ≡ records_of image.now }
    ensures by_index { (x : ℕ) → result ≡ Ok x → Held (graph_read image.now) index.new }
{
    let version = header::version(image).unwrap();
    let middle = nodes(
        image,
        version,
        header::files(image),
        header::nodes(image),
        index,
    )?;
    edges(image, middle, header::edges(image), index)
}

// Where record k stands, counted from a place on: only a refusal asks for it.
pub fn place(image: &[u8], from: usize, k: u32) -> usize
    requires { (from < 1048576) × (k < 65536) }
    ensures value { result ≡ place_of image.now from k }
    ensures upper_bound { result ≤ from + 256 * k }
{
    let mut at = from;
    for _ in 0..k {
        at += bytes::byte_or_zero(image, at) as usize + 1;
    }
    at
}
