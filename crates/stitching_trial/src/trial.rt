// What becomes of a partial path on the path under expansion. Document 01, "Answer": per partial path in stitching cycle, length, the bound on
// edges, append, completeness. The bound is tested on the whole before any edge is appended.
ghost use Rattle.std.specs.Prelude.{◌≡◌};
ghost use Rattle.semantics.specs.Lists.{shares};
ghost use Rattle.stitching_trial.specs.Trials.{Appends, AppendsTo, ended_by, Judging, JudgedAs};

use path_budget::budget::Budget;
use search_state::path_slot;
use semantics::bounds::MAX_EDGES;
use semantics::refusal::{PathRefusal, SearchRefusal};
use semantics::replayed::Step;
use stepping::{step, steps};

// What becomes of it, where it does not end the search.
#[derive(Clone, Copy)]
pub enum StitchTrial {
    Cut,
    Overlong,
    Rejected,
    Extended { complete: bool },
}

// Does one of these edges stand on the path? Such a partial path is a cycle cut; one that was used already shares all of its edges.
fn shares(edges: &[u32], path: &[u32]) -> bool
    ensures { result ≡ shares edges.now path.now }
{
    for edge in edges {
        if path_slot::contains(path, *edge) {
            return true;
        }
    }
    false
}

// The edges are appended in order behind the k edges of the path, whose own steps stay. Answers the last step or the first refusal.
fn append_all(
    index: &[u32],
    steps: &mut [u32],
    k: usize,
    edges: &[u32],
) -> Result<Step, PathRefusal>
    requires { Appends index.now steps.old k edges.now }
    ensures { (v : Appends index.now steps.old k edges.now)
        → AppendsTo index.now steps.old k edges.now v result steps.new }
{
    for (i, edge) in edges.iter().enumerate() {
        let effect = steps::append(index, steps, (k + i) as u32, *edge);
        let Ok(_) = effect else {
            return effect;
        };
    }
    Ok(steps::get_step(steps, k + edges.len()))
}

// An unknown edge ends the search with 12, any other refusal of the path rules is a rejection.
fn ended(refusal: PathRefusal) -> Result<StitchTrial, SearchRefusal>
    ensures { result ≡ ended_by refusal }
{
    match refusal {
        PathRefusal::UnknownEdge(edge) => {
            Err(SearchRefusal::Path(PathRefusal::UnknownEdge(edge)))
        }
        PathRefusal::UnknownNode(_) => Ok(StitchTrial::Rejected),
        PathRefusal::NotReference(_) => Ok(StitchTrial::Rejected),
        PathRefusal::IncorrectSource { .. } => Ok(StitchTrial::Rejected),
        PathRefusal::EmptySymbolStack(_) => Ok(StitchTrial::Rejected),
        PathRefusal::IncorrectPoppedSymbol(_) => Ok(StitchTrial::Rejected),
        PathRefusal::UnexpectedAttachedScopes(_) => Ok(StitchTrial::Rejected),
        PathRefusal::MissingAttachedScopes(_) => Ok(StitchTrial::Rejected),
        PathRefusal::EmptyScopeStack(_) => Ok(StitchTrial::Rejected),
        PathRefusal::UnknownAttachedScope(_) => Ok(StitchTrial::Rejected),
    }
}

// `path` are the edges of the path; its steps stand in `steps`, and what is tried behind them is overwritten by the next trial.
pub fn judge_partial_path(
    index: &[u32],
    steps: &mut [u32],
    path: &[u32],
    edges: &[u32],
    budget: Budget,
) -> Result<StitchTrial, SearchRefusal>
    requires { Judging index.now steps.old path.now edges.now }
    ensures { (v : Judging index.now steps.old path.now edges.now)
        → JudgedAs index.now steps.old path.now edges.now v budget.max_length result steps.new }
{
    if shares(edges, path) {
        return Ok(StitchTrial::Cut);
    }
    let whole = path.len() + edges.len();
    let asked = budget.admitted_length(whole as u64);
    if asked.allowed {
        if whole <= MAX_EDGES {
            match append_all(index, steps, path.len(), edges) {
                Ok(last) => {
                    return Ok(StitchTrial::Extended {
                        complete: step::is_complete(index, last),
                    });
                }
                Err(r) => return ended(r),
            }
        }
        return Err(SearchRefusal::TooLong);
    }
    Ok(StitchTrial::Overlong)
}
