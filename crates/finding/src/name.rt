// A name for a definition: the references are searched by ascending number, breadth-first and each to its end, until one has a path to it.
// Document 02, order 1.
ghost use Rattle.std.specs.Prelude.{◌≡◌, true, false, ℕ, ◌*◌, ◌≤◌, ◌<◌, length, unwrap_or};
ghost use Rattle.std.specs.Option.{ForSome};
ghost use Rattle.semantics.specs.Limits.{slot_length};
ghost use Rattle.semantics.specs.Words.{zeros};
ghost use Rattle.semantics.specs.Graph.{Graph, view_of, is_reference};
ghost use Rattle.semantics.specs.Entries.{name_request_of, find_name, Does};
ghost use Rattle.semantics.specs.Told.{told_finding};
ghost use Rattle.words.specs.Slots.{SlotsIn};
ghost use Rattle.storage.specs.Index.{Blocks, edge_row, node_row, Loaded, Takes, HoldsGraph, HoldsNodes};
ghost use Rattle.reply.specs.ResultSlots.{Fitting, AllFitting};
ghost use Rattle.finding.specs.Names.{leads_to, slot_to, FirstIn, only_slot, Tells, tried_of, walked_of, turned_back, loaded_of, Concluded};

use direct_search::direct;
use reply::closing_up;
use semantics::answer::{Finding, FindingRefusal};
use semantics::bounds::SLOT_WORDS;
use semantics::graph::{Edge, EdgeId, NodeId};
use semantics::refusal::{PathRefusal, SearchRefusal};
use semantics::search::{Limit, SearchLimits, SearchOrder};
use stepping::node::is_removed;
use storage::{blocks, check, store};
use words::slots;

// Does the edge lead to the node?
fn leads_to(index: &[u32], edge: u32, node: u32) -> bool
    requires { Blocks index.now }
    ensures { result ≡ leads_to node (edge_row index.now edge) }
{
    match store::edge(index, EdgeId(edge)) {
        Edge::Removed => false,
        Edge::Live {
            source: _,
            target,
            precedence: _,
        } => target.0 == node,
    }
}

// Does the complete path in slot i end at the node? It ends where its last edge leads to.
fn ends_at(index: &[u32], res: &[u32], i: usize, node: u32) -> bool
    requires { Blocks index.now × Fitting slot_length i res.now }
    ensures { result ≡ slot_to index.now res.now node i }
{
    let count = reply::lists::edge_count(res, i);
    leads_to(index, res[SLOT_WORDS * i + count], node)
}

// The first of the kept paths that ends at the node.
fn first_to(index: &[u32], res: &[u32], kept: usize, node: u32) -> Option<usize>
    requires { Blocks index.now × AllFitting slot_length kept res.now }
    ensures first { FirstIn (slot_to index.now res.now node) kept (unwrap_or result kept) }
    ensures kept { ForSome result (λ i. i < kept) }
{
    for i in 0..kept {
        if ends_at(index, res, i, node) {
            return Some(i);
        }
    }
    None
}

// Slot i becomes the first one, and the others become zero.
fn keep_only(res: &mut [u32], i: usize, kept: usize)
    requires { SlotsIn slot_length kept res.old × (i < kept) }
    ensures { res.new ≡ only_slot slot_length i kept res.old }
{
    closing_up::move_down(res, i, 0);
    closing_up::clear(res, 1, kept);
}

// A reference is searched to its end, without count limits: a path from it to the node stands in the first result slot, or it has none. The result
// area is zero before, and after if no path was found.
fn try_reference(
    index: &[u32],
    reference: u32,
    node: u32,
    limit: Limit,
    work: &mut [u32],
    res: &mut [u32],
) -> Result<Option<u32>, SearchRefusal>
    requires { HoldsGraph index.now × (res.old ≡ zeros (length res.old)) }
    ensures { (g : Graph) → Loaded g index.now
        → Tells result res.new (tried_of g limit (length work.old) (length res.old) node reference true) }
{
    let limits = SearchLimits {
        length: limit,
        expansions: None,
        complete: None,
    };
    let driven = direct::search_kept(
        index,
        reference,
        SearchOrder::BreadthFirst,
        limits,
        work,
        res,
    );
    let finished = driven?;
    let kept = finished.state.kept;
    let Some(at) = first_to(index, res, kept, node) else {
        closing_up::clear(res, 0, kept);
        return Ok(None);
    };
    keep_only(res, at, kept);
    Ok(Some(reference))
}

// A node is passed over unless it is a reference.
fn try_node(
    index: &[u32],
    n: u32,
    node: u32,
    limit: Limit,
    work: &mut [u32],
    res: &mut [u32],
) -> Result<Option<u32>, SearchRefusal>
    requires { HoldsGraph index.now × (res.old ≡ zeros (length res.old)) }
    ensures { (g : Graph) → Loaded g index.now
        → Tells result res.new (tried_of g limit (length work.old) (length res.old) node n (is_reference ((view_of g).node n))) }
{
    if store::is_reference(index, NodeId(n)) {
        return try_reference(index, n, node, limit, work, res);
    }
    Ok(None)
}

// The nodes by ascending number, up to the first that has a path or is refused: that one, or none of them.
fn walk(
    index: &[u32],
    nodes: u32,
    node: u32,
    limit: Limit,
    work: &mut [u32],
    res: &mut [u32],
) -> Result<Option<u32>, SearchRefusal>
    requires { HoldsNodes index.now nodes × (res.old ≡ zeros (length res.old)) }
    ensures { (g : Graph) → Loaded g index.now → nodes ≡ length g.nodes
        → Tells result res.new (walked_of g limit (length work.old) (length res.old) node) }
{
    for n in 0..nodes {
        if let Some(reference) = try_node(index, n, node, limit, work, res)? {
            return Ok(Some(reference));
        }
    }
    Ok(None)
}

// What is answered; only the path that was found stays in the areas.
fn conclude(tried: Result<Option<u32>, SearchRefusal>, work: &mut [u32], res: &mut [u32]) -> Finding
    ensures { Concluded tried work.old res.old result work.new res.new }
{
    slots::zero(work);
    match tried {
        Ok(Some(n)) => Ok(Some(NodeId(n))),
        Ok(None) => Ok(None),
        Err(x) => {
            slots::zero(res);
            Err(FindingRefusal::Refused(x))
        }
    }
}

// 10 for a node that is not known, 37 for another one.
fn turn_back(index: &[u32], node: u32) -> Finding
    requires { Blocks index.now }
    ensures { result ≡ turned_back node (node_row index.now node) }
{
    if is_removed(store::node(index, NodeId(node))) {
        let unknown = PathRefusal::UnknownNode(NodeId(node));
        return Err(FindingRefusal::Refused(SearchRefusal::Path(unknown)));
    }
    Err(FindingRefusal::NotDefinition(NodeId(node)))
}

// The name on a loaded graph.
fn find_loaded(
    index: &[u32],
    nodes: u32,
    node: u32,
    limit: Limit,
    work: &mut [u32],
    res: &mut [u32],
) -> Finding
    requires { HoldsNodes index.now nodes }
    ensures { (g : Graph) → Loaded g index.now → nodes ≡ length g.nodes
        → Does (loaded_of g (name_request_of limit work.old res.old node)) result work.new res.new }
{
    if store::is_definition(index, NodeId(node)) {
        slots::zero(res);
        let tried = walk(index, nodes, node, limit, work, res);
        return conclude(tried, work, res);
    }
    slots::zero(work);
    slots::zero(res);
    turn_back(index, node)
}

// The image is checked into the lent index once, for all searches.
fn find_in(
    image: &[u8],
    visible: &[u8],
    index: &mut [u32],
    node: u32,
    limit: Limit,
    work: &mut [u32],
    res: &mut [u32],
) -> Finding
    requires { Takes image.now index.old }
    ensures { Does (find_name image.now visible.now node limit work.old res.old) result work.new res.new }
{
    match check::load_seen(image, visible, index) {
        Err(r) => {
            slots::zero(work);
            slots::zero(res);
            Err(FindingRefusal::Image(r))
        }
        Ok(counts) => find_loaded(index, counts.nodes, node, limit, work, res),
    }
}

// A small image gets a small index: zeroing a large one would take longer than the searches.
fn find_image(
    image: &[u8],
    visible: &[u8],
    node: u32,
    limit: Limit,
    work: &mut [u32],
    res: &mut [u32],
) -> Finding
    ensures { Does (find_name image.now visible.now node limit work.old res.old) result work.new res.new }
{
    if check::is_small(image) {
        let mut index = [0u32; blocks::SMALL];
        return find_in(image, visible, &mut index, node, limit, work, res);
    }
    let mut index = [0u32; blocks::INDEX];
    find_in(image, visible, &mut index, node, limit, work, res)
}

// A name for a definition, on any bytes and numbers.
pub fn find_name(
    image: &[u8],
    visible: &[u8],
    node: NodeId,
    limit: Limit,
    work: &mut [u32],
    res: &mut [u32],
) -> Finding
    ensures result_value { told_finding result ≡ told_finding (find_name image.now visible.now node.0 limit work.old res.old).answer }
    ensures work_after { work.new ≡ (find_name image.now visible.now node.0 limit work.old res.old).work }
    ensures res_after { res.new ≡ (find_name image.now visible.now node.0 limit work.old res.old).result }
{
    find_image(image, visible, node.0, limit, work, res)
}
