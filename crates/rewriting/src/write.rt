// A loaded graph written as an image into lent bytes. Document 01, "Graph image"; document 02, order 3.
ghost use Rattle.std.specs.Prelude.{◌≡◌, ◌+◌, ◌<◌, ◌≤◌, length};
ghost use Rattle.semantics.specs.Bytes.Placed.{put, front};
ghost use Rattle.semantics.specs.Image.Encoding.{encode_nodes, encode_edges, encode_image};
ghost use Rattle.storage.specs.Index.{Blocks};
ghost use Rattle.rewriting.specs.Held.{nodes_in, edges_in, graph_held};
ghost use Rattle.image.specs.Versions.{number_of, width_of};
ghost use Rattle.rewriting.specs.Whole.{header_bytes};

use crate::record;
use image::header;
use image::version::Version;
use semantics::answer::Counts;
use semantics::graph::{EdgeId, NodeId};
use storage::store;
use words::writing;

// The records of the first nodes of an index, from a place on; the place behind them.
fn write_nodes(index: &[u32], nodes: u32, version: Version, area: &mut [u8], from: usize) -> usize
    requires blocks { Blocks index.now }
    requires nodes_in_bounds { from + length (encode_nodes (width_of version) (nodes_in index.now nodes)) ≤ length area.old }
    ensures value { result ≡ from + length (encode_nodes (width_of version) (nodes_in index.now nodes)) }
    ensures area_after { area.new ≡ put from (encode_nodes (width_of version) (nodes_in index.now nodes)) area.old }
{
    let mut at = from;
    for n in 0..nodes {
        at = record::write_node(area, at, version, store::node(index, NodeId(n)));
    }
    at
}

// The records of the first edges, from a place on.
fn write_edges(index: &[u32], edges: u32, area: &mut [u8], from: usize)
    requires blocks { Blocks index.now }
    requires edges_in_bounds { from + length (encode_edges (edges_in index.now edges)) ≤ length area.old }
    ensures { area.new ≡ put from (encode_edges (edges_in index.now edges)) area.old }
{
    let mut at = from;
    for e in 0..edges {
        at = record::write_edge(area, at, store::edge(index, EdgeId(e)));
    }
}

// The version, the number of bytes that follow, and the three counts.
fn write_header(area: &mut [u8], version: u32, follow: u32, counts: Counts)
    requires version_bound { version < 256 }
    requires in_bounds { 11 ≤ length area.old }
    ensures { area.new ≡ put 0 (header_bytes version follow counts) area.old }
{
    writing::put_byte(area, 0, version);
    writing::put_long(area, header::LENGTH_AT, follow);
    writing::put_short(area, header::FILES_AT, counts.files);
    writing::put_short(area, header::NODES_AT, counts.nodes);
    writing::put_short(area, header::EDGES_AT, counts.edges);
}

// The whole image, of which the caller knows the size.
pub(crate) fn write_image(
    index: &[u32],
    version: Version,
    counts: Counts,
    size: u32,
    area: &mut [u8],
)
    requires blocks { Blocks index.now }
    requires size_value { size ≡ length (encode_image (number_of version) (width_of version) (graph_held index.now counts)) }
    requires size_in_bounds { size ≤ length area.old }
    ensures { area.new ≡ front (encode_image (number_of version) (width_of version) (graph_held index.now counts)) area.old }
{
    let follow = size - header::FILES_AT as u32;
    write_header(area, version.number(), follow, counts);
    let middle = write_nodes(index, counts.nodes, version, area, header::FIRST_RECORD);
    write_edges(index, counts.edges, area, middle);
}
