// Stitched search from a reference: every path that waits is tried with each partial path from its end. Document 01, "Partial paths":
// `try_compute_from_partials`. The database is lent to be read.
ghost use Rattle.std.specs.Prelude.{◌≡◌, ℕ, Bool, length};
ghost use Rattle.semantics.specs.Words.{zeros};
ghost use Rattle.semantics.specs.Entries.{request_of, stitched_search, Does};
ghost use Rattle.semantics.specs.Limits.{base, looked_ever, looked_before};
ghost use Rattle.semantics.specs.Graph.{Graph, view_of};
ghost use Rattle.semantics.specs.Recorded.{recorded, returned};
ghost use Rattle.semantics.specs.Database.{known_owners, check_database};
ghost use Rattle.semantics.specs.Told.{told_resolution};
ghost use Rattle.semantics.specs.Calls.{stitched_outcome};
ghost use Rattle.semantics.specs.Hidden.{sees};
ghost use Rattle.storage.specs.Index.{Loaded, Takes, HoldsGraph, Sized};
ghost use Rattle.path.specs.Shadows.Laws.{JumpAt};
ghost use Rattle.reply.specs.Replies.{reply_of};
ghost use Rattle.stitching_trial.specs.Links.{Readable, Linked, LinkedSome, Tryable};
ghost use Rattle.stitching.specs.Expansions.{Given, Tried, Expanded};
ghost use Rattle.search_state.specs.Searches.{Clears};
ghost use Rattle.search_rounds.specs.Drives.{Rounding, Rounded, Driving, Ends, DrivenTo};
ghost use Rattle.stitching.specs.StitchedAnswers.{tries_in, stitched_of, found_of};

use database::{check, layout};
use reply::finish::Reply;
use search_rounds::conclusion::conclude;
use search_rounds::start::start;
use search_state::retrace::retrace;
use search_state::search::{Finished, Round, Search};
use semantics::answer::{Counts, Resolution, ResolutionRefusal};
use semantics::bounds::{MAX_EDGES, SLOT_WORDS, STEPS_WORDS};
use semantics::graph::NodeId;
use semantics::refusal::SearchRefusal;
use semantics::search::{SearchLimits, SearchOrder};
use stepping::steps;
use stitching_trial::trial::StitchTrial;
use stitching_trial::{joined_path, links, trial};
use storage::blocks;
use words::slots;

// What a stitched search is asked: where it begins, its order and limits, and which paths the reply has.
#[derive(Clone, Copy)]
struct Asked {
    reference: u32,
    order: SearchOrder,
    limits: SearchLimits,
    reply: Reply,
}

// Partial path i is tried on the path of k edges in the item: counted where it is cut, too long or rejected, else recorded and pushed.
fn try_partial(
    index: &[u32],
    words: &[u32],
    steps: &mut [u32],
    item: &mut [u32],
    k: usize,
    i: usize,
    search: Search,
    work: &mut [u32],
    res: &mut [u32],
) -> Result<Search, SearchRefusal>
    requires { Tryable words.now i × Given looked_ever index.now steps.old item.old k search work.old res.old }
    ensures { (v : Given looked_ever index.now steps.old item.old k search work.old res.old)
        → Tried words.now looked_ever index.now steps.old item.old k search work.old res.old v i result
        steps.new item.new work.new res.new }
{
    let state = search.state;
    let edges = layout::edges(words, MAX_EDGES, i);
    let trial = trial::judge_partial_path(index, steps, &item[1..k + 1], edges, state.budget)?;
    match trial {
        StitchTrial::Cut => Ok(search.with_state(state.cut())),
        StitchTrial::Overlong => {
            let length = (k + edges.len()) as u64;
            Ok(search.with_state(state.measure(length)))
        }
        StitchTrial::Rejected => Ok(search.with_state(state.reject())),
        StitchTrial::Extended { complete } => {
            joined_path::with_edges(item, k, edges);
            search.extend(complete, work, res, item)
        }
    }
}

// Each partial path from the path's end is tried, by ascending number.
fn expand(
    index: &[u32],
    words: &[u32],
    links: &[u32],
    steps: &mut [u32],
    item: &mut [u32],
    k: usize,
    search: Search,
    work: &mut [u32],
    res: &mut [u32],
) -> Result<Search, SearchRefusal>
    requires { LinkedSome words.now links.now × Given looked_before index.now steps.old item.old k search work.old res.old }
    ensures by_index { (see : ℕ → Bool) → Linked see words.now links.now
        → (v : Given looked_before index.now steps.old item.old k search work.old res.old)
        → Expanded words.now looked_before index.now steps.old item.old k search work.old res.old v see result
        steps.new work.new res.new }
    ensures clears { Given looked_before index.now steps.old item.old k search work.old res.old → Clears result item.new }
{
    let mut on = search;
    let mut link = links::first(links, steps::get_step(steps, k).end);
    while 0 < link {
        let i = (link - 1) as usize;
        on = try_partial(index, words, steps, item, k, i, on, work, res)?;
        link = links::next(links, i);
    }
    Ok(on)
}

// The popped path's steps are laid out, where steps up to `laid` stand there for the path before, and the path is expanded.
fn round(
    index: &[u32],
    words: &[u32],
    links: &[u32],
    steps: &mut [u32],
    item: &mut [u32],
    laid: usize,
    search: Search,
    work: &mut [u32],
    res: &mut [u32],
) -> Result<Search, SearchRefusal>
    requires { LinkedSome words.now links.now × Rounding looked_before index.now steps.old item.old laid search work.old res.old }
    ensures by_index { (see : ℕ → Bool) → Linked see words.now links.now
        → (v : Rounding looked_before index.now steps.old item.old laid search work.old res.old)
        → Rounded (tries_in see words.now) looked_before index.now steps.old item.old laid search work.old
        res.old v result steps.new work.new res.new }
    ensures clears { Rounding looked_before index.now steps.old item.old laid search work.old res.old → Clears result item.new }
{
    let k = item[0] as usize;
    retrace(index, steps, &item[1..k + 1], laid);
    expand(index, words, links, steps, item, k, search, work, res)
}

// Paths are taken and expanded until none waits, or the path count or a refusal ends the search.
fn drive(
    index: &[u32],
    words: &[u32],
    links: &[u32],
    steps: &mut [u32],
    item: &mut [u32],
    search: Search,
    work: &mut [u32],
    res: &mut [u32],
) -> Result<Finished, SearchRefusal>
    requires { LinkedSome words.now links.now × Driving index.now steps.old item.old search work.old res.old }
    ensures { (see : ℕ → Bool) → Linked see words.now links.now
        → (v : Driving index.now steps.old item.old search work.old res.old)
        → DrivenTo (tries_in see words.now) index.now steps.old item.old search work.old res.old v result
        res.new }
{
    let mut on = search;
    let mut laid: usize = 0;
    loop {
        match on.take(work, item) {
            Ok(Round::Over(finished)) => return Ok(finished),
            Ok(Round::Expand(next)) => {
                let k = item[0] as usize;
                match round(index, words, links, steps, item, laid, next, work, res) {
                    Ok(s) => {
                        on = s;
                        laid = k;
                    }
                    Err(r) => return Err(r),
                }
            }
            Err(r) => return Err(r),
        }
    }
}

// The search on a loaded graph and a checked database, in a result area that is zero: the kept paths stand in its slots where the search is
// over, and the work area as it was left.
fn search_kept(
    index: &[u32],
    visible: &[u8],
    words: &[u32],
    asked: Asked,
    work: &mut [u32],
    res: &mut [u32],
) -> Result<Finished, SearchRefusal>
    requires { HoldsGraph index.now × Readable words.now × (res.old ≡ zeros (length res.old)) }
    ensures { (g : Graph) → Loaded g index.now → Ends result res.new
        (stitched_of (sees visible.now) g words.now (request_of asked.order asked.limits work.old res.old asked.reference)) }
{
    let mut steps = [0u32; STEPS_WORDS];
    let mut item = [0u32; SLOT_WORDS];
    let begun = start(
        index,
        asked.reference,
        asked.order,
        asked.limits,
        &mut steps,
        &item,
        work,
        res,
    )?;
    let mut links = [0u32; links::LINKS];
    links::link(words, visible, &mut links);
    drive(
        index, words, &links, &mut steps, &mut item, begun, work, res,
    )
}

// The same, in a result area with any words.
fn attempt(
    index: &[u32],
    visible: &[u8],
    words: &[u32],
    asked: Asked,
    work: &mut [u32],
    res: &mut [u32],
) -> Result<Finished, SearchRefusal>
    requires { HoldsGraph index.now × Readable words.now }
    ensures { (g : Graph) → Loaded g index.now → Ends result res.new
        (stitched_of (sees visible.now) g words.now (request_of asked.order asked.limits work.old res.old asked.reference)) }
{
    slots::zero(res);
    search_kept(index, visible, words, asked, work, res)
}

// The search with the paths of the reply; both areas as every call leaves them.
fn search_loaded(
    index: &[u32],
    visible: &[u8],
    words: &[u32],
    asked: Asked,
    work: &mut [u32],
    res: &mut [u32],
) -> Resolution
    requires { HoldsGraph index.now × Readable words.now }
    ensures { (g : Graph) → Loaded g index.now → JumpAt (view_of g)
        → Does (found_of (sees visible.now) g words.now asked.reply (request_of asked.order asked.limits work.old res.old asked.reference)) result work.new
        res.new }
{
    let driven = attempt(index, visible, words, asked, work, res);
    conclude(index, driven, asked.reply, work, res)
}

// The database is checked against the counts of the graph: 35, then 34. Then it is searched.
fn search_database(
    index: &[u32],
    visible: &[u8],
    words: &[u32],
    counts: Counts,
    asked: Asked,
    work: &mut [u32],
    res: &mut [u32],
) -> Resolution
    requires { Sized index.now counts.nodes counts.files }
    ensures { (g : Graph) → Loaded g index.now → JumpAt (view_of g) → counts.nodes ≡ length g.nodes → counts.files ≡ g.files
        → Does (stitched_outcome base (reply_of asked.reply) (sees visible.now) g (request_of asked.order asked.limits work.old res.old asked.reference)
        (check_database base known_owners g words.now)) result work.new res.new }
{
    match check::check(words, counts.nodes, counts.files) {
        Err(r) => {
            slots::zero(work);
            slots::zero(res);
            Err(ResolutionRefusal::Database(r))
        }
        Ok(()) => search_loaded(index, visible, words, asked, work, res),
    }
}

// The image is checked into the lent index, then the database; a refused image leaves both areas zero.
fn search_in(
    image: &[u8],
    visible: &[u8],
    index: &mut [u32],
    words: &[u32],
    asked: Asked,
    work: &mut [u32],
    res: &mut [u32],
) -> Resolution
    requires { Takes image.now index.old }
    ensures { Does (stitched_search (reply_of asked.reply) image.now visible.now words.now asked.reference asked.order asked.limits work.old res.old) result
        work.new res.new }
{
    match storage::check::load_seen(image, visible, index) {
        Err(r) => {
            slots::zero(work);
            slots::zero(res);
            Err(ResolutionRefusal::Image(r))
        }
        Ok(counts) => search_database(index, visible, words, counts, asked, work, res),
    }
}

// A small image gets a small index: zeroing a large one would take longer than the search.
fn search_image(
    image: &[u8],
    visible: &[u8],
    words: &[u32],
    asked: Asked,
    work: &mut [u32],
    res: &mut [u32],
) -> Resolution
    ensures { Does (stitched_search (reply_of asked.reply) image.now visible.now words.now asked.reference asked.order asked.limits work.old res.old) result
        work.new res.new }
{
    if storage::check::is_small(image) {
        let mut index = [0u32; blocks::SMALL];
        return search_in(image, visible, &mut index, words, asked, work, res);
    }
    let mut index = [0u32; blocks::INDEX];
    search_in(image, visible, &mut index, words, asked, work, res)
}

// Stitched search from a reference, on any bytes, words and numbers: the returned paths.
pub fn search(
    image: &[u8],
    visible: &[u8],
    words: &[u32],
    reference: NodeId,
    order: SearchOrder,
    limits: SearchLimits,
    work: &mut [u32],
    res: &mut [u32],
) -> Resolution
    ensures result_value { told_resolution result ≡ told_resolution (stitched_search returned image.now visible.now words.now reference.0 order limits work.old
        res.old).answer }
    ensures work_after { work.new ≡ (stitched_search returned image.now visible.now words.now reference.0 order limits work.old res.old).work }
    ensures res_after { res.new ≡ (stitched_search returned image.now visible.now words.now reference.0 order limits work.old res.old).result }
{
    search_image(
        image,
        visible,
        words,
        Asked {
            reference: reference.0,
            order,
            limits,
            reply: Reply::Returned,
        },
        work,
        res,
    )
}

// The same search with its recorded paths.
// Kept: a call for each reply, as for direct search.
pub fn search_recorded(
    image: &[u8],
    visible: &[u8],
    words: &[u32],
    reference: NodeId,
    order: SearchOrder,
    limits: SearchLimits,
    work: &mut [u32],
    res: &mut [u32],
) -> Resolution
    ensures result_value { told_resolution result ≡ told_resolution (stitched_search recorded image.now visible.now words.now reference.0 order limits work.old
        res.old).answer }
    ensures work_after { work.new ≡ (stitched_search recorded image.now visible.now words.now reference.0 order limits work.old res.old).work }
    ensures res_after { res.new ≡ (stitched_search recorded image.now visible.now words.now reference.0 order limits work.old res.old).result }
{
    search_image(
        image,
        visible,
        words,
        Asked {
            reference: reference.0,
            order,
            limits,
            reply: Reply::Recorded,
        },
        work,
        res,
    )
}
