// On numbers and slices: a graph read by number. Each answers 0 and what was read, or the refusal; what is hidden is not known.
ghost use Rattle.std.specs.Prelude.{◌≡◌, length};
ghost use Rattle.semantics.specs.Entries.{node_of, edge_of, references_of, outgoing_of};
ghost use Rattle.semantics.specs.Written.{written};
ghost use Rattle.semantics.specs.Told.{told_node_reading, told_edge_reading, told_listing};

use crate::numbers::Tell;
use readers::{listing, records};
use semantics::graph::{EdgeId, NodeId};

// 0, the kind, file, symbol, attached scope and flag of a node.
pub fn pozhdaghi_node(image: &[u8], visible: &[u8], node: u32, answer: &mut [u64])
    ensures { answer.new ≡ written (length answer.old) (told_node_reading (node_of image.now visible.now node)) }
{
    let read = records::node(image, visible, NodeId(node));
    read.tell(answer);
}

// 0, the source and target of an edge, and its precedence as 32 bits in two's complement.
pub fn pozhdaghi_edge(image: &[u8], visible: &[u8], edge: u32, answer: &mut [u64])
    ensures { answer.new ≡ written (length answer.old) (told_edge_reading (edge_of image.now visible.now edge)) }
{
    let read = records::edge(image, visible, EdgeId(edge));
    read.tell(answer);
}

// 0, and how many references stand in the result area.
pub fn pozhdaghi_references(image: &[u8], visible: &[u8], res: &mut [u32], answer: &mut [u64])
    ensures answer_after { answer.new ≡ written (length answer.old)
        (told_listing (references_of image.now visible.now res.old).answer) }
    ensures res_after { res.new ≡ (references_of image.now visible.now res.old).result }
{
    let listed = listing::references(image, visible, res);
    listed.tell(answer);
}

// 0, and how many edges that leave the node stand in the result area.
pub fn pozhdaghi_outgoing(
    image: &[u8],
    visible: &[u8],
    node: u32,
    res: &mut [u32],
    answer: &mut [u64],
)
    ensures answer_after { answer.new ≡ written (length answer.old)
        (told_listing (outgoing_of image.now visible.now node res.old).answer) }
    ensures res_after { res.new ≡ (outgoing_of image.now visible.now node res.old).result }
{
    let listed = listing::outgoing(image, visible, NodeId(node), res);
    listed.tell(answer);
}
