// The references of an image, and the edges that leave a node, as numbers in a lent area: 32 where they do not fit, and then the area is zero.
ghost use Rattle.std.specs.Prelude.{◌≡◌, true, List, [], ℕ, ◌<◌, ◌≤◌, length, replicate};
ghost use Rattle.semantics.specs.Lists.{cons_if};
ghost use Rattle.semantics.specs.Words.{zeros};
ghost use Rattle.semantics.specs.Graph.{Graph, view_of, is_reference};
ghost use Rattle.semantics.specs.Finding.{references_from};
ghost use Rattle.semantics.specs.Reading.{listed};
ghost use Rattle.semantics.specs.Entries.{references_of, outgoing_of};
ghost use Rattle.semantics.specs.Told.{told_listing};
ghost use Rattle.storage.specs.Index.{INDEX, EDGES, Blocks, node_row, Loaded, Takes, HoldsGraph, HoldsNodes};
ghost use Rattle.readers.specs.Listing.{Holds, Adds, Lists, outgoing_loaded};

use semantics::answer::{Listing, ListingRefusal};
use semantics::graph::{EdgeId, NodeId};
use stepping::node::is_removed;
use storage::blocks::{INDEX, SMALL};
use storage::{check, store};
use words::slots;

// A number behind those that the area holds. Where there is no room it is only counted.
fn put(res: &mut [u32], count: u32, number: u32) -> u32
    requires { count ≤ EDGES }
    ensures { Adds res.old count res.new result (cons_if true number []) }
{
    let at = count as usize;
    if at < res.len() {
        res[at] = number;
    }
    count + 1
}

// A node is passed over unless it is a reference.
fn put_reference(index: &[u32], res: &mut [u32], count: u32, n: u32) -> u32
    requires { Blocks index.now × (count ≤ EDGES) }
    ensures { Adds res.old count res.new result (cons_if (is_reference (node_row index.now n)) n []) }
{
    if store::is_reference(index, NodeId(n)) {
        return put(res, count, n);
    }
    count
}

// The references of a loaded graph of so many nodes, in an area that is zero: how many they are.
fn put_references(index: &[u32], nodes: u32, res: &mut [u32]) -> u32
    requires { HoldsNodes index.now nodes × (res.old ≡ zeros (length res.old)) }
    ensures { (g : Graph) → Loaded g index.now → nodes ≡ length g.nodes → Holds res.new result (references_from 0 g.nodes) }
{
    let mut count = 0;
    for n in 0..nodes {
        count = put_reference(index, res, count, n);
    }
    count
}

// The edges that leave a node of a loaded graph, likewise.
fn put_outgoing(index: &[u32], n: u32, res: &mut [u32]) -> u32
    requires { HoldsGraph index.now × (res.old ≡ zeros (length res.old)) }
    ensures { (g : Graph) → Loaded g index.now → Holds res.new result ((view_of g).out n) }
{
    let mut count = 0;
    let mut link = store::first(index, NodeId(n));
    while 0 < link {
        count = put(res, count, link - 1);
        link = store::next(index, EdgeId(link - 1));
    }
    count
}

// How many numbers there are, if all have found room.
fn conclude(res: &mut [u32], count: u32) -> Listing
    ensures { (ns : List ℕ) → Holds res.old count ns → Lists (listed (length res.old) ns) result res.new }
{
    if res.len() < count as usize {
        slots::zero(res);
        return Err(ListingRefusal::NoRoom);
    }
    Ok(count)
}

// The image is checked into the lent index.
fn references_in(image: &[u8], visible: &[u8], index: &mut [u32], res: &mut [u32]) -> Listing
    requires { Takes image.now index.old }
    ensures { Lists (references_of image.now visible.now res.old) result res.new }
{
    slots::zero(res);
    let counts = check::load_seen(image, visible, index).map_err(ListingRefusal::Image)?;
    let count = put_references(index, counts.nodes, res);
    conclude(res, count)
}

// An index of so many words stands in a function that is not compiled into its caller, so that a call needs room for one index alone.
#[inline(never)]
fn references_with<const WORDS: usize>(image: &[u8], visible: &[u8], res: &mut [u32]) -> Listing
    requires { Takes image.now (replicate WORDS 0) × (WORDS ≤ INDEX) }
    ensures result_value { told_listing result ≡ told_listing (references_of image.now visible.now res.old).answer }
    ensures res_after { res.new ≡ (references_of image.now visible.now res.old).result }
{
    let mut index = [0u32; WORDS];
    references_in(image, visible, &mut index, res)
}

// The references that are visible, on any bytes. A small image gets a small index, as in every call.
pub fn references(image: &[u8], visible: &[u8], res: &mut [u32]) -> Listing
    ensures result_value { told_listing result ≡ told_listing (references_of image.now visible.now res.old).answer }
    ensures res_after { res.new ≡ (references_of image.now visible.now res.old).result }
{
    if check::is_small(image) {
        return references_with::<SMALL>(image, visible, res);
    }
    references_with::<INDEX>(image, visible, res)
}

// 10 for a node that is not known, else its edges, in an area that is zero.
fn known_outgoing(index: &[u32], n: u32, res: &mut [u32]) -> Listing
    requires { HoldsGraph index.now × (res.old ≡ zeros (length res.old)) }
    ensures { (g : Graph) → Loaded g index.now → Lists (outgoing_loaded g n (length res.old)) result res.new }
{
    if is_removed(store::node(index, NodeId(n))) {
        return Err(ListingRefusal::Unknown(NodeId(n)));
    }
    let count = put_outgoing(index, n, res);
    conclude(res, count)
}

fn outgoing_in(image: &[u8], visible: &[u8], index: &mut [u32], n: u32, res: &mut [u32]) -> Listing
    requires { Takes image.now index.old }
    ensures { Lists (outgoing_of image.now visible.now n res.old) result res.new }
{
    slots::zero(res);
    check::load_seen(image, visible, index).map_err(ListingRefusal::Image)?;
    known_outgoing(index, n, res)
}

// The visible edges that leave a node, on any bytes and numbers, in the order in which searches try them.
pub fn outgoing(image: &[u8], visible: &[u8], node: NodeId, res: &mut [u32]) -> Listing
    ensures result_value { told_listing result ≡ told_listing (outgoing_of image.now visible.now node.0 res.old).answer }
    ensures res_after { res.new ≡ (outgoing_of image.now visible.now node.0 res.old).result }
{
    if check::is_small(image) {
        let mut index = [0u32; SMALL];
        return outgoing_in(image, visible, &mut index, node.0, res);
    }
    let mut index = [0u32; INDEX];
    outgoing_in(image, visible, &mut index, node.0, res)
}
