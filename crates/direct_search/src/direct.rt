// Direct search from a reference: every path that waits is tried with each outgoing edge of its end. Document 01, "Answer": `try_compute`.
ghost use Rattle.std.specs.Prelude.{◌≡◌, ◌+◌, ◌<◌, ◌^◌, length, get_or};
ghost use Rattle.semantics.specs.Words.{zeros};
ghost use Rattle.semantics.specs.Limits.{looked_before, slot_length};
ghost use Rattle.semantics.specs.declared.search.SearchOrder.TheVariants.{DepthFirst};
ghost use Rattle.semantics.specs.Entries.{request_of, direct_search, Does};
ghost use Rattle.semantics.specs.Graph.{Graph, view_of};
ghost use Rattle.semantics.specs.Recorded.{recorded, returned};
ghost use Rattle.semantics.specs.Told.{told_resolution};
ghost use Rattle.storage.specs.Index.{Blocks, edge_row, Loaded, Takes, HoldsGraph};
ghost use Rattle.stepping.specs.Judged.{Ready};
ghost use Rattle.path.specs.Shadows.Laws.{JumpAt};
ghost use Rattle.reply.specs.Replies.{reply_of};
ghost use Rattle.search_state.specs.Progresses.{at, course_at};
ghost use Rattle.search_state.specs.Searches.{Clears};
ghost use Rattle.search_rounds.specs.Drives.{Rounding, Rounded, Driving, Ends, DrivenTo};
ghost use Rattle.direct_search.specs.Expansions.{Given, Expanded};
ghost use Rattle.direct_search.specs.Passes.{counted_by, beyond_row, is_from, leaves_by, all_too_long, all_passed, Passing, Passes, Turning, Turned};
ghost use Rattle.direct_search.specs.DirectAnswers.{edge_tries, direct_of, found_of};
ghost use Rattle.direct_search.specs.Counting.{added_to, Low, Counting, run_on, Tallies, none_kept, tallied_on};

use edge_trial::trial;
use edge_trial::trial::EdgeTrial;
use path_budget::budget::Budget;
use reply::finish::Reply;
use search_rounds::conclusion::conclude;
use search_rounds::start::start;
use search_state::dead_ends::DeadEnds;
use search_state::path_slot;
use search_state::progress::{Frame, Progress};
use search_state::retrace::retrace;
use search_state::search::{Finished, Round};
use semantics::answer::{Resolution, ResolutionRefusal};
use semantics::bounds::{SLOT_WORDS, STEPS_WORDS};
use semantics::graph::{Edge, EdgeId, NodeId};
use semantics::refusal::SearchRefusal;
use semantics::search::{SearchLimits, SearchOrder};
use stepping::steps;
use storage::{blocks, check, store};
use words::slots;

// What becomes of the edges from a link on: those that lead nowhere are counted, up to the first that lengthens the path or meets the bound.
// Kept: as a `Result<Option<bool>, TooLong>` each place that makes it would name two layers for one of three outcomes, and the one that takes it apart too.
#[derive(Clone, Copy)]
pub enum Led {
    End,
    TooLong,
    Extended { complete: bool },
}

// What was counted, the link to the edge that ended it, 0 at the end, and what that edge does.
#[derive(Clone, Copy)]
pub struct Pass {
    pub passed: DeadEnds,
    pub link: u32,
    pub led: Led,
}

// What one trial adds, or what it leads to.
// Kept: a ControlFlow<Led, DeadEnds> could also break with the end, which no trial does; this type says so. `TooLong` is no `Err`, as what was counted goes out beside it.
#[derive(Clone, Copy)]
pub enum Counted {
    More(DeadEnds),
    TooLong,
    Extended { complete: bool },
}

fn count(passed: DeadEnds, trial: EdgeTrial) -> Counted
    requires { (passed.cycles + 1 < 2 ^ 64) × (passed.rejected + 1 < 2 ^ 64) }
    ensures { result ≡ counted_by passed trial }
{
    match trial {
        EdgeTrial::Cut => Counted::More(passed.cut()),
        EdgeTrial::Overlong => Counted::More(passed.measure()),
        EdgeTrial::Rejected => Counted::More(passed.reject()),
        EdgeTrial::TooLong => Counted::TooLong,
        EdgeTrial::Extended { complete } => Counted::Extended { complete },
    }
}

// Does the edge leave this node?
fn is_from(index: &[u32], edge: u32, node: u32) -> bool
    requires { Blocks index.now }
    ensures { result ≡ is_from node (edge_row index.now edge) }
{
    match store::edge(index, EdgeId(edge)) {
        Edge::Removed => false,
        Edge::Live {
            source,
            target: _,
            precedence: _,
        } => source.0 == node,
    }
}

// Does one of these edges leave it?
fn leaves(index: &[u32], edges: &[u32], node: u32) -> bool
    requires { Blocks index.now }
    ensures { result ≡ leaves_by (edge_row index.now) node edges.now }
{
    for edge in edges {
        if is_from(index, *edge, node) {
            return true;
        }
    }
    false
}

// Is every outgoing edge of the path's end too long? One edge more is above the limit, whichever it is, and only a path that left its end
// before has an edge that is a cycle cut there.
fn all_too_long(index: &[u32], steps: &[u32], edges: &[u32], budget: Budget) -> bool
    requires { Blocks index.now × Ready steps.now (length edges.now) }
    ensures { result ≡ all_too_long index.now steps.now edges.now budget }
{
    let asked = budget.admitted_length(edges.len() as u64 + 1);
    if asked.allowed {
        return false;
    }
    !leaves(index, edges, steps::get_step(steps, edges.len()).end)
}

// The edges from a link on, if there are any, where all are too long.
fn pass_all(first: u32) -> Pass
    ensures { result ≡ all_passed first }
{
    Pass {
        passed: DeadEnds {
            overlong: 0 < first,
            ..DeadEnds::nothing()
        },
        link: 0,
        led: Led::End,
    }
}

// The edges are tried by ascending number on the path whose edges these are; the budget is asked for its limit on the length alone.
// Where all are too long they are not walked: most paths that a short limit ends are such, and each edge would set the same flag.
fn pass_over(index: &[u32], steps: &[u32], edges: &[u32], budget: Budget, first: u32) -> Pass
    requires { Passing index.now steps.now edges.now budget first }
    ensures { (x : Passing index.now steps.now edges.now budget first)
        → Passes index.now steps.now edges.now budget first x result }
{
    if all_too_long(index, steps, edges, budget) {
        return pass_all(first);
    }
    let mut passed = DeadEnds::nothing();
    let mut link = first;
    while 0 < link {
        let trial = trial::judge_edge(index, steps, edges, link - 1, budget);
        match count(passed, trial) {
            Counted::More(next) => {
                passed = next;
            }
            Counted::TooLong => {
                return Pass {
                    passed,
                    link,
                    led: Led::TooLong,
                };
            }
            Counted::Extended { complete } => {
                return Pass {
                    passed,
                    link,
                    led: Led::Extended { complete },
                };
            }
        }
        link = store::next(index, EdgeId(link - 1));
    }
    Pass {
        passed,
        link: 0,
        led: Led::End,
    }
}

// The search behind the edges that were passed by: the path with the edge that ended it is recorded and pushed.
fn onward(
    pass: Pass,
    item: &mut [u32],
    k: usize,
    progress: Progress,
    work: &mut [u32],
    res: &mut [u32],
    frame: Frame,
) -> Result<Progress, SearchRefusal>
    requires { Turning pass item.old k (at frame progress) work.old res.old }
    ensures { (x : Turning pass item.old k (at frame progress) work.old res.old)
        → Turned pass item.old k (at frame progress) work.old res.old x (course_at frame result) item.new work.new
        res.new }
{
    let on = progress.passed_by(pass.passed);
    match pass.led {
        Led::End => Ok(on),
        Led::TooLong => Err(SearchRefusal::TooLong),
        Led::Extended { complete } => {
            path_slot::with_edge(item, k, pass.link - 1);
            on.extend(complete, work, res, item, frame)
        }
    }
}

// The link behind this one; none behind none.
fn beyond(index: &[u32], link: u32) -> u32
    requires { Blocks index.now }
    ensures { result ≡ beyond_row index.now link }
{
    if 0 < link {
        return store::next(index, EdgeId(link - 1));
    }
    0
}

// Each outgoing edge of the path's end is tried, by ascending number.
fn expand(
    index: &[u32],
    steps: &[u32],
    item: &mut [u32],
    k: usize,
    progress: Progress,
    work: &mut [u32],
    res: &mut [u32],
    frame: Frame,
) -> Result<Progress, SearchRefusal>
    requires { Given looked_before index.now steps.now item.old k (at frame progress) work.old res.old }
    ensures expanded { (v : Given looked_before index.now steps.now item.old k (at frame progress) work.old
        res.old) → Expanded looked_before index.now steps.now item.old k (at frame progress) work.old
        res.old v (course_at frame result) work.new res.new }
    ensures clears { Given looked_before index.now steps.now item.old k (at frame progress) work.old res.old
        → Clears (course_at frame result) item.new }
{
    let budget = progress.budget(frame);
    let mut on = progress;
    let mut link = store::first(index, NodeId(steps::get_step(steps, k).end));
    while 0 < link {
        let pass = pass_over(index, steps, &item[1..k + 1], budget, link);
        on = onward(pass, item, k, on, work, res, frame)?;
        link = beyond(index, pass.link);
    }
    Ok(on)
}

// The popped path's steps are laid out, where steps up to `laid` stand there for the path before, and the path is expanded.
fn round(
    index: &[u32],
    steps: &mut [u32],
    item: &mut [u32],
    laid: usize,
    progress: Progress,
    work: &mut [u32],
    res: &mut [u32],
    frame: Frame,
) -> Result<Progress, SearchRefusal>
    requires { Rounding looked_before index.now steps.old item.old laid (at frame progress) work.old res.old }
    ensures rounded { (v : Rounding looked_before index.now steps.old item.old laid (at frame progress) work.old
        res.old) → Rounded edge_tries looked_before index.now steps.old item.old laid (at frame progress)
        work.old res.old v (course_at frame result) steps.new work.new res.new }
    ensures clears { Rounding looked_before index.now steps.old item.old laid (at frame progress) work.old
        res.old → Clears (course_at frame result) item.new }
{
    let k = item[0] as usize;
    retrace(index, steps, &item[1..k + 1], laid);
    expand(index, steps, item, k, progress, work, res, frame)
}

// So many more at a place; behind the last one there is none.
fn add(numbers: &mut [u64], at: usize, more: u64)
    requires { get_or numbers.old at 0 + more < 2 ^ 64 }
    ensures { numbers.new ≡ added_to numbers.old at more }
{
    if at < numbers.len() {
        numbers[at] += more;
    }
}

// Paths are taken and expanded until none waits, or the path count or a refusal ends the search. What a round finds complete has one edge more than the
// path that it expands: it is added to the number of that length, if there is one.
fn drive(
    index: &[u32],
    steps: &mut [u32],
    item: &mut [u32],
    progress: Progress,
    work: &mut [u32],
    res: &mut [u32],
    numbers: &mut [u64],
    frame: Frame,
) -> Result<Finished, SearchRefusal>
    requires { Driving index.now steps.old item.old (at frame progress) work.old res.old × Low numbers.old (at frame progress) }
    ensures driven_to { (v : Driving index.now steps.old item.old (at frame progress) work.old res.old)
        → DrivenTo edge_tries index.now steps.old item.old (at frame progress) work.old res.old v result
        res.new }
    ensures tallies { (x : Counting index.now steps.old item.old (at frame progress) work.old res.old
        numbers.old) → Tallies result numbers.new (run_on x) }
{
    let mut on = progress;
    let mut laid: usize = 0;
    loop {
        match on.take(work, item, frame)? {
            Round::Over(finished) => return Ok(finished),
            Round::Expand(next) => {
                let k = item[0] as usize;
                let s = round(index, steps, item, laid, next, work, res, frame)?;
                add(numbers, k + 1, s.complete - next.complete);
                on = s;
                laid = k;
            }
        }
    }
}

// The search on a loaded graph, in a result area that is zero: the kept paths stand in its slots where the search is over, and the work area as
// it was left. How many complete paths of length 0, 1 and so on were found is put into as many numbers as are lent, which are 0 before it.
pub fn search_counted(
    index: &[u32],
    reference: u32,
    order: SearchOrder,
    limits: SearchLimits,
    work: &mut [u32],
    res: &mut [u32],
    numbers: &mut [u64],
) -> Result<Finished, SearchRefusal>
    requires { HoldsGraph index.now × (res.old ≡ zeros (length res.old)) × (numbers.old ≡ zeros (length numbers.old)) }
    ensures ends { (g : Graph) → Loaded g index.now → Ends result res.new (direct_of g (request_of order limits work.old res.old reference)) }
    ensures tallies { order ≡ DepthFirst → limits ≡ none_kept → length numbers.old ≡ slot_length
        → (g : Graph) → Loaded g index.now → Tallies result numbers.new (tallied_on g work.old reference) }
{
    let mut steps = [0u32; STEPS_WORDS];
    let mut item = [0u32; SLOT_WORDS];
    let on = start(
        index, reference, order, limits, &mut steps, &item, work, res,
    )?;
    drive(
        index,
        &mut steps,
        &mut item,
        on.progress(),
        work,
        res,
        numbers,
        on.frame(),
    )
}

// The same with no number but that of length 0, which is never counted. The crates above that make many searches on one graph, or ask more of one,
// begin here.
pub fn search_kept(
    index: &[u32],
    reference: u32,
    order: SearchOrder,
    limits: SearchLimits,
    work: &mut [u32],
    res: &mut [u32],
) -> Result<Finished, SearchRefusal>
    requires { HoldsGraph index.now × (res.old ≡ zeros (length res.old)) }
    ensures { (g : Graph) → Loaded g index.now → Ends result res.new (direct_of g (request_of order limits work.old res.old reference)) }
{
    let mut none = [0u64; 1];
    search_counted(index, reference, order, limits, work, res, &mut none)
}

// The same, in a result area with any words.
fn attempt(
    index: &[u32],
    reference: u32,
    order: SearchOrder,
    limits: SearchLimits,
    work: &mut [u32],
    res: &mut [u32],
) -> Result<Finished, SearchRefusal>
    requires { HoldsGraph index.now }
    ensures { (g : Graph) → Loaded g index.now → Ends result res.new (direct_of g (request_of order limits work.old res.old reference)) }
{
    slots::zero(res);
    search_kept(index, reference, order, limits, work, res)
}

// The search on a loaded graph with the paths of the reply; both areas as every call leaves them.
fn search_loaded(
    index: &[u32],
    reference: u32,
    order: SearchOrder,
    limits: SearchLimits,
    reply: Reply,
    work: &mut [u32],
    res: &mut [u32],
) -> Resolution
    requires { HoldsGraph index.now }
    ensures { (g : Graph) → Loaded g index.now → JumpAt (view_of g)
        → Does (found_of g reply (request_of order limits work.old res.old reference)) result work.new res.new }
{
    let driven = attempt(index, reference, order, limits, work, res);
    conclude(index, driven, reply, work, res)
}

// The image is checked into the lent index, then searched; a refused image leaves both areas zero.
fn search_in(
    image: &[u8],
    visible: &[u8],
    index: &mut [u32],
    reference: u32,
    order: SearchOrder,
    limits: SearchLimits,
    reply: Reply,
    work: &mut [u32],
    res: &mut [u32],
) -> Resolution
    requires { Takes image.now index.old }
    ensures { Does (direct_search (reply_of reply) image.now visible.now reference order limits work.old res.old) result work.new res.new }
{
    match check::load_seen(image, visible, index) {
        Err(r) => {
            slots::zero(work);
            slots::zero(res);
            Err(ResolutionRefusal::Image(r))
        }
        Ok(_) => search_loaded(index, reference, order, limits, reply, work, res),
    }
}

// A small image gets a small index: zeroing a large one would take longer than the search.
fn search_image(
    image: &[u8],
    visible: &[u8],
    reference: u32,
    order: SearchOrder,
    limits: SearchLimits,
    reply: Reply,
    work: &mut [u32],
    res: &mut [u32],
) -> Resolution
    ensures { Does (direct_search (reply_of reply) image.now visible.now reference order limits work.old res.old) result work.new res.new }
{
    if check::is_small(image) {
        let mut index = [0u32; blocks::SMALL];
        return search_in(
            image, visible, &mut index, reference, order, limits, reply, work, res,
        );
    }
    let mut index = [0u32; blocks::INDEX];
    search_in(
        image, visible, &mut index, reference, order, limits, reply, work, res,
    )
}

// Direct search from a reference, on any bytes and numbers: the returned paths.
pub fn search(
    image: &[u8],
    visible: &[u8],
    reference: NodeId,
    order: SearchOrder,
    limits: SearchLimits,
    work: &mut [u32],
    res: &mut [u32],
) -> Resolution
    ensures result_value { told_resolution result ≡ told_resolution (direct_search returned image.now visible.now reference.0 order limits work.old res.old).answer }
    ensures work_after { work.new ≡ (direct_search returned image.now visible.now reference.0 order limits work.old res.old).work }
    ensures res_after { res.new ≡ (direct_search returned image.now visible.now reference.0 order limits work.old res.old).result }
{
    search_image(
        image,
        visible,
        reference.0,
        order,
        limits,
        Reply::Returned,
        work,
        res,
    )
}

// The same search with its recorded paths.
// Kept: a call for each reply, as each is a public call of its name; what both do is one function.
pub fn search_recorded(
    image: &[u8],
    visible: &[u8],
    reference: NodeId,
    order: SearchOrder,
    limits: SearchLimits,
    work: &mut [u32],
    res: &mut [u32],
) -> Resolution
    ensures result_value { told_resolution result ≡ told_resolution (direct_search recorded image.now visible.now reference.0 order limits work.old res.old).answer }
    ensures work_after { work.new ≡ (direct_search recorded image.now visible.now reference.0 order limits work.old res.old).work }
    ensures res_after { res.new ≡ (direct_search recorded image.now visible.now reference.0 order limits work.old res.old).result }
{
    search_image(
        image,
        visible,
        reference.0,
        order,
        limits,
        Reply::Recorded,
        work,
        res,
    )
}
