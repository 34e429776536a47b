// Linear search from a reference: at most one edge of each node may be appended, so one path grows and nothing waits.
// Document 01, "Answer": `try_compute_linear`, "Linear stops at a second appendable edge of one node".
ghost use Rattle.std.specs.Prelude.{◌≡◌, ◌≤◌, replicate};
ghost use Rattle.semantics.specs.Limits.{looked_ever};
ghost use Rattle.semantics.specs.Entries.{linear_request_of, linear_search, DoesLinear};
ghost use Rattle.semantics.specs.Graph.{Graph, view_of};
ghost use Rattle.semantics.specs.Recorded.{recorded, returned};
ghost use Rattle.semantics.specs.Told.{told_linear_resolution};
ghost use Rattle.storage.specs.Index.{INDEX, Loaded, Takes, HoldsGraph};
ghost use Rattle.path.specs.Shadows.Laws.{JumpAt};
ghost use Rattle.reply.specs.Replies.{reply_of};
ghost use Rattle.linear_search.specs.Walks.{with_state, Choosing, Chosen, Walk, Paced, Walking, Ends, WalkedTo};
ghost use Rattle.linear_search.specs.LinearAnswers.{linear_of, walked_of};

use edge_trial::trial;
use edge_trial::trial::EdgeTrial;
use reply::finish::{Reply, finish};
use search_state::path_slot;
use search_state::state::SearchState;
use semantics::answer::{LinearResolution, Resolved, TurnedBack};
use semantics::bounds::{SLOT_WORDS, STEPS_WORDS};
use semantics::graph::{EdgeId, NodeId};
use semantics::refusal::LinearRefusal;
use semantics::search::SearchLimits;
use stepping::{remaking, step, steps};
use storage::blocks::{INDEX, SMALL};
use storage::{check, store};
use words::slots;

// An expansion on the way: `found` is the link to the edge that was appended, its number plus 1, or 0 for none yet.
#[derive(Clone, Copy)]
pub struct Expansion {
    pub state: SearchState,
    pub found: u32,
}

impl Expansion {
    fn with_state(self, state: SearchState) -> Expansion
        ensures { result ≡ with_state state self }
    {
        Expansion { state, ..self }
    }
}

// The path in the item is the one to go on with, recorded where it is complete.
fn choose(
    state: SearchState,
    link: u32,
    complete: bool,
    res: &mut [u32],
    item: &[u32],
) -> Result<Expansion, LinearRefusal>
    requires { Choosing state res.old item.now }
    ensures { Chosen state link complete res.old item.now result res.new }
{
    if complete {
        let recorded = state.record_complete(res, item);
        let Some(next) = recorded else {
            return Err(LinearRefusal::NoResultSlot);
        };
        return Ok(Expansion {
            state: next,
            found: link,
        });
    }
    Ok(Expansion { state, found: link })
}

// One edge is tried on the path of k edges in the item: the expansion behind it, or `None` where it is a second one that could be appended. The test
// for that stands between append and completeness.
fn try_edge(
    index: &[u32],
    steps: &[u32],
    item: &mut [u32],
    k: usize,
    link: u32,
    on: Expansion,
    res: &mut [u32],
) -> Result<Option<Expansion>, LinearRefusal>
    requires { Walk looked_ever index.now steps.now item.old k link on res.old }
    ensures { (v : Walk looked_ever index.now steps.now item.old k link on res.old)
        → Paced looked_ever index.now steps.now item.old k link on res.old v result item.new res.new }
{
    let state = on.state;
    let edge = link - 1;
    match trial::judge_edge(index, steps, &item[1..k + 1], edge, state.budget) {
        EdgeTrial::Cut => Ok(Some(on.with_state(state.cut()))),
        EdgeTrial::Overlong => Ok(Some(on.with_state(state.measure(k as u64 + 1)))),
        EdgeTrial::Rejected => Ok(Some(on.with_state(state.reject()))),
        EdgeTrial::TooLong => Err(LinearRefusal::TooLong),
        EdgeTrial::Extended { complete } => {
            if 0 < on.found {
                return Ok(None);
            }
            path_slot::with_edge(item, k, edge);
            Ok(Some(choose(state, link, complete, res, item)?))
        }
    }
}

// Expansion after expansion, until no edge is appended, or the path count or a refusal ends the search.
fn walk(
    index: &[u32],
    steps: &mut [u32],
    item: &mut [u32],
    first: SearchState,
    res: &mut [u32],
) -> Result<SearchState, LinearRefusal>
    requires { Walking index.now steps.old item.old first res.old }
    ensures { (v : Walking index.now steps.old item.old first res.old)
        → WalkedTo index.now steps.old item.old first res.old v result res.new }
{
    let mut state = first;
    let mut k: usize = 0;
    let mut end: u32 = 0;
    'expansions: loop {
        let asked = state.budget.admitted_expansion();
        state = state.with_budget(asked.budget);
        if !asked.allowed {
            return Ok(state);
        }
        end = steps::get_step(steps, k).end;
        let mut on = Expansion { state, found: 0 };
        let mut link = store::first(index, NodeId(end));
        while 0 < link {
            let Some(next) = try_edge(index, steps, item, k, link, on, res)? else {
                break 'expansions;
            };
            on = next;
            link = store::next(index, EdgeId(link - 1));
        }
        state = on.state;
        if on.found < 1 {
            return Ok(state);
        }
        remaking::advance(index, steps, k as u32, on.found - 1);
        k += 1;
    }
    Err(LinearRefusal::MultipleEdges(NodeId(end)))
}

// The search on a loaded graph: the kept paths stand in the result slots where it is over.
fn attempt(
    index: &[u32],
    reference: u32,
    limits: SearchLimits,
    res: &mut [u32],
) -> Result<SearchState, LinearRefusal>
    requires { HoldsGraph index.now }
    ensures { (g : Graph) → Loaded g index.now → Ends result res.new (linear_of g (linear_request_of limits res.old reference)) }
{
    slots::zero(res);
    match step::begin(index, reference) {
        Err(r) => Err(LinearRefusal::Path(r)),
        Ok(first) => {
            let mut steps = [0u32; STEPS_WORDS];
            let mut item = [0u32; SLOT_WORDS];
            steps::put_step(&mut steps, 0, first);
            let state = SearchState::new(limits, res.len() / SLOT_WORDS);
            walk(index, &mut steps, &mut item, state, res)
        }
    }
}

// The search on a loaded graph with the paths of the reply; the result area as every call leaves it.
fn search_loaded(
    index: &[u32],
    reference: u32,
    limits: SearchLimits,
    reply: Reply,
    res: &mut [u32],
) -> LinearResolution
    requires { HoldsGraph index.now }
    ensures { (g : Graph) → Loaded g index.now → JumpAt (view_of g)
        → DoesLinear (walked_of g reply (linear_request_of limits res.old reference)) result res.new }
{
    match attempt(index, reference, limits, res) {
        Ok(state) => {
            let paths = finish(index, reply, res, state.kept);
            Ok(Resolved {
                paths: paths as u64,
                stats: state.stats(),
            })
        }
        Err(r) => {
            slots::zero(res);
            Err(TurnedBack::Refused(r))
        }
    }
}

// The image is checked into the lent index, then searched; a refused image leaves the result area zero.
fn search_in(
    image: &[u8],
    visible: &[u8],
    index: &mut [u32],
    reference: u32,
    limits: SearchLimits,
    reply: Reply,
    res: &mut [u32],
) -> LinearResolution
    requires { Takes image.now index.old }
    ensures { DoesLinear (linear_search (reply_of reply) image.now visible.now reference limits res.old) result res.new }
{
    match check::load_seen(image, visible, index) {
        Err(r) => {
            slots::zero(res);
            Err(TurnedBack::Image(r))
        }
        Ok(_) => search_loaded(index, reference, limits, reply, res),
    }
}

// With an index of so many words, which takes the image. It is a function of its own when it is compiled: a stack frame with a large index has forty pages,
// and to touch them takes a third of the time of a call on a small image.
#[inline(never)]
fn search_with<const WORDS: usize>(
    image: &[u8],
    visible: &[u8],
    reference: u32,
    limits: SearchLimits,
    reply: Reply,
    res: &mut [u32],
) -> LinearResolution
    requires { Takes image.now (replicate WORDS 0) × (WORDS ≤ INDEX) }
    ensures { DoesLinear (linear_search (reply_of reply) image.now visible.now reference limits res.old) result res.new }
{
    let mut index = [0u32; WORDS];
    search_in(image, visible, &mut index, reference, limits, reply, res)
}

// Linear search for either reply. A small image gets a small index: zeroing a large one would take longer than the search. Any other a large one.
pub fn search_image(
    image: &[u8],
    visible: &[u8],
    reference: u32,
    limits: SearchLimits,
    reply: Reply,
    res: &mut [u32],
) -> LinearResolution
    ensures { DoesLinear (linear_search (reply_of reply) image.now visible.now reference limits res.old) result res.new }
{
    if check::is_small(image) {
        return search_with::<SMALL>(image, visible, reference, limits, reply, res);
    }
    search_with::<INDEX>(image, visible, reference, limits, reply, res)
}

// Linear search from a reference, on any bytes and numbers: the returned paths.
pub fn search(
    image: &[u8],
    visible: &[u8],
    reference: NodeId,
    limits: SearchLimits,
    res: &mut [u32],
) -> LinearResolution
    ensures result_value { told_linear_resolution result ≡ told_linear_resolution (linear_search returned image.now visible.now reference.0 limits res.old).answer }
    ensures res_after { res.new ≡ (linear_search returned image.now visible.now reference.0 limits res.old).result }
{
    search_image(image, visible, reference.0, limits, Reply::Returned, res)
}

// The same search with its recorded paths.
// Kept: a call for each reply, as for direct search.
pub fn search_recorded(
    image: &[u8],
    visible: &[u8],
    reference: NodeId,
    limits: SearchLimits,
    res: &mut [u32],
) -> LinearResolution
    ensures result_value { told_linear_resolution result ≡ told_linear_resolution (linear_search recorded image.now visible.now reference.0 limits res.old).answer }
    ensures res_after { res.new ≡ (linear_search recorded image.now visible.now reference.0 limits res.old).result }
{
    search_image(image, visible, reference.0, limits, Reply::Recorded, res)
}
