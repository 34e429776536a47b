// The expansion of a route by the edges of its owner, a file or nobody. Document 01, "Partial paths": each edge passes cycle, length and the bound on edges,
// "is recorded if it reaches an endpoint, and is then pushed". Stacks are not examined.
ghost use Rattle.std.specs.Prelude.{◌≡◌, ◌*◌, ◌<◌, length};
ghost use Rattle.semantics.specs.Limits.{max_edges, looked_ever, looked_before};
ghost use Rattle.storage.specs.Index.{BLOCK, Blocks, node_row, target_row};
ghost use Rattle.partial_state.specs.Extractions.{at, going_at};
ghost use Rattle.partial_trial.specs.Expansions.{sought_from, leads_to, is_sought, Owning, Trying, Tried, Looked, Lengthened, Expanding, Expanded};

use partial_state::extraction::{Extraction, ExtractionFrame};
use partial_state::filing::Filing;
use partial_state::route::Ends;
use search_state::path_slot;
use semantics::bounds::{MAX_EDGES, NOBODY};
use semantics::graph::{EdgeId, NodeId};
use semantics::refusal::PartialPathRefusal;
use storage::store;

// Which of the edges that leave a node an owner has, as far as that node tells, which they share: all of them; or those to a node of the file; or those to
// a node that lacks a file; or none. Three answers and not one of four, which would be asked of every edge by a jump through a table.
#[derive(Clone, Copy)]
pub struct Sought {
    pub all: bool,
    pub of_file: bool,
    pub fileless: bool,
}

// A file has the edges with an end of its own, nobody those whose ends both lack a file.
fn sought_from(index: &[u32], owner: u32, node: u32) -> Sought
    requires { Blocks index.now }
    ensures { result ≡ sought_from owner (node_row index.now node) }
{
    if owner == NOBODY {
        return Sought {
            all: false,
            of_file: false,
            fileless: store::lacks_file(index, NodeId(node)),
        };
    }
    Sought {
        all: store::is_of_file(index, NodeId(node), owner),
        of_file: true,
        fileless: false,
    }
}

// Is an edge to this node one of them, where they are not all?
fn leads_to(index: &[u32], owner: u32, own: Sought, target: NodeId) -> bool
    requires { Blocks index.now }
    ensures { result ≡ leads_to owner own (node_row index.now target.0) }
{
    if own.of_file {
        return store::is_of_file(index, target, owner);
    }
    if own.fileless {
        return store::lacks_file(index, target);
    }
    false
}

// Is this edge one of them? It is asked of every edge, what its source tells once for all.
fn belongs(index: &[u32], owner: u32, own: Sought, edge: u32) -> bool
    requires { Blocks index.now × (BLOCK * edge < length index.now) }
    ensures { result ≡ is_sought owner own (node_row index.now (target_row index.now edge)) }
{
    own.all || leads_to(index, owner, own, store::target(index, EdgeId(edge)))
}

// The route of k edges in the item gets one more: found at an endpoint, then pushed.
fn lengthen(
    index: &[u32],
    filing: Filing,
    start: u32,
    k: usize,
    edge: u32,
    item: &mut [u32],
    extraction: Extraction,
    work: &mut [u32],
    words: &mut [u32],
    frame: ExtractionFrame,
) -> Result<Extraction, PartialPathRefusal>
    requires { Trying looked_ever index.now filing start k edge item.old (at frame extraction) work.old words.old × (k < max_edges) }
    ensures { (v : Trying looked_ever index.now filing start k edge item.old (at frame extraction) work.old words.old)
        → Lengthened looked_ever index.now filing start k edge item.old (at frame extraction) work.old words.old v
        (going_at frame result) item.new work.new words.new }
{
    path_slot::with_edge(item, k, edge);
    let end = store::target(index, EdgeId(edge));
    let endpoint = store::is_endpoint(index, end);
    extraction.extend(
        endpoint,
        Ends { start, end: end.0 },
        filing,
        item,
        work,
        words,
        frame,
    )
}

// One edge of the owner is tried: counted where it is cut or too long, else it lengthens the route.
fn try_edge(
    index: &[u32],
    filing: Filing,
    start: u32,
    k: usize,
    edge: u32,
    item: &mut [u32],
    extraction: Extraction,
    work: &mut [u32],
    words: &mut [u32],
    frame: ExtractionFrame,
) -> Result<Extraction, PartialPathRefusal>
    requires { Trying looked_ever index.now filing start k edge item.old (at frame extraction) work.old words.old }
    ensures { (v : Trying looked_ever index.now filing start k edge item.old (at frame extraction) work.old words.old)
        → Tried looked_ever index.now filing start k edge item.old (at frame extraction) work.old words.old v
        (going_at frame result) item.new work.new words.new }
{
    if path_slot::contains(&item[1..k + 1], edge) {
        return Ok(extraction.cut());
    }
    let asked = extraction.budget(frame).admitted_length(k as u64 + 1);
    if asked.allowed {
        if k < MAX_EDGES {
            return lengthen(
                index, filing, start, k, edge, item, extraction, work, words, frame,
            );
        }
        return Err(PartialPathRefusal::TooLong);
    }
    Ok(extraction.with_budget(asked.budget))
}

// An edge that leaves the route's end is tried if it belongs to the owner; an edge of another one is not looked at.
fn look_at(
    index: &[u32],
    filing: Filing,
    own: Sought,
    start: u32,
    k: usize,
    edge: u32,
    item: &mut [u32],
    extraction: Extraction,
    work: &mut [u32],
    words: &mut [u32],
    frame: ExtractionFrame,
) -> Result<Extraction, PartialPathRefusal>
    requires { Owning looked_ever index.now filing start k edge item.old (at frame extraction) work.old words.old own }
    ensures { (o : Owning looked_ever index.now filing start k edge item.old (at frame extraction) work.old words.old
        own) → Looked looked_ever index.now filing start k edge item.old (at frame extraction) work.old words.old o.looking
        (going_at frame result) item.new work.new words.new }
{
    if belongs(index, filing.file, own, edge) {
        return try_edge(
            index, filing, start, k, edge, item, extraction, work, words, frame,
        );
    }
    Ok(extraction)
}

// Each outgoing edge of the route's end, by ascending number.
pub fn expand(
    index: &[u32],
    filing: Filing,
    ends: Ends,
    k: usize,
    item: &mut [u32],
    extraction: Extraction,
    work: &mut [u32],
    words: &mut [u32],
    frame: ExtractionFrame,
) -> Result<Extraction, PartialPathRefusal>
    requires { Expanding looked_before index.now filing ends k item.old (at frame extraction) work.old words.old }
    ensures { (v : Expanding looked_before index.now filing ends k item.old (at frame extraction) work.old words.old)
        → Expanded looked_before index.now filing ends k item.old (at frame extraction) work.old words.old v (going_at frame result)
        work.new words.new }
{
    let own = sought_from(index, filing.file, ends.end);
    let mut on = extraction;
    let mut link = store::first(index, NodeId(ends.end));
    while 0 < link {
        let edge = link - 1;
        let going = look_at(
            index, filing, own, ends.start, k, edge, item, on, work, words, frame,
        );
        let Ok(next) = going else {
            return going;
        };
        on = next;
        link = store::next(index, EdgeId(edge));
    }
    Ok(on)
}
