// A node or an edge of an image by its number; 10 or 12 where there is none that is visible.
ghost use Rattle.std.specs.Prelude.{◌≡◌};
ghost use Rattle.semantics.specs.Entries.{node_of, edge_of};
ghost use Rattle.semantics.specs.Reading.{node_read, edge_read};
ghost use Rattle.semantics.specs.Told.{told_node_reading};
ghost use Rattle.storage.specs.Index.{Blocks, node_row, edge_row, Takes};

use semantics::answer::{EdgeReading, LiveEdge, NodeReading, ReadingRefusal};
use semantics::graph::{Edge, EdgeId, NodeId};
use stepping::node::is_removed;
use storage::{blocks, check, store};

// A node of a loaded graph.
fn known_node(index: &[u32], n: u32) -> NodeReading
    requires { Blocks index.now }
    ensures { result ≡ node_read n (node_row index.now n) }
{
    let node = store::node(index, NodeId(n));
    if is_removed(node) {
        return Err(ReadingRefusal::Unknown(NodeId(n)));
    }
    Ok(node)
}

// The image is checked into the lent index.
fn node_in(image: &[u8], visible: &[u8], index: &mut [u32], n: u32) -> NodeReading
    requires { Takes image.now index.old }
    ensures { result ≡ node_of image.now visible.now n }
{
    check::load_seen(image, visible, index).map_err(ReadingRefusal::Image)?;
    known_node(index, n)
}

// A node of an image, on any bytes and numbers. A small image gets a small index, as in every call.
pub fn node(image: &[u8], visible: &[u8], node: NodeId) -> NodeReading
    ensures { told_node_reading result ≡ told_node_reading (node_of image.now visible.now node.0) }
{
    if check::is_small(image) {
        let mut index = [0u32; blocks::SMALL];
        return node_in(image, visible, &mut index, node.0);
    }
    let mut index = [0u32; blocks::INDEX];
    node_in(image, visible, &mut index, node.0)
}

// An edge of a loaded graph.
fn known_edge(index: &[u32], e: u32) -> EdgeReading
    requires { Blocks index.now }
    ensures { result ≡ edge_read e (edge_row index.now e) }
{
    match store::edge(index, EdgeId(e)) {
        Edge::Removed => Err(ReadingRefusal::Unknown(EdgeId(e))),
        Edge::Live {
            source,
            target,
            precedence,
        } => Ok(LiveEdge {
            source,
            target,
            precedence,
        }),
    }
}

fn edge_in(image: &[u8], visible: &[u8], index: &mut [u32], e: u32) -> EdgeReading
    requires { Takes image.now index.old }
    ensures { result ≡ edge_of image.now visible.now e }
{
    check::load_seen(image, visible, index).map_err(ReadingRefusal::Image)?;
    known_edge(index, e)
}

// An edge of an image, likewise. The answer itself is said, as its precedence is told by 32 bits.
pub fn edge(image: &[u8], visible: &[u8], edge: EdgeId) -> EdgeReading
    ensures { result ≡ edge_of image.now visible.now edge.0 }
{
    if check::is_small(image) {
        let mut index = [0u32; blocks::SMALL];
        return edge_in(image, visible, &mut index, edge.0);
    }
    let mut index = [0u32; blocks::INDEX];
    edge_in(image, visible, &mut index, edge.0)
}
