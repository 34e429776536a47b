// The start of a search from a reference: 10 and 11, then 31 for the first push. Document 01, "Answer" and "Turned back".
ghost use Rattle.std.specs.Prelude.{◌≡◌, length};
ghost use Rattle.storage.specs.Index.{HoldsGraph};
ghost use Rattle.semantics.specs.Limits.{slot_length, steps_length};
ghost use Rattle.semantics.specs.Words.{zeros};
ghost use Rattle.search_rounds.specs.Starts.{Started, FirstStarted};

use path_frontier::frontier::{Frontier, SHORT_SLOT};
use search_state::search::Search;
use search_state::state::SearchState;
use semantics::bounds::SLOT_WORDS;
use semantics::refusal::SearchRefusal;
use semantics::search::{SearchLimits, SearchOrder};
use stepping::{step, steps};

// The reference's step is laid out, and its path waits; `steps`, `item` and the result area are zero before it, and the result area stays so.
pub fn start(
    index: &[u32],
    reference: u32,
    order: SearchOrder,
    limits: SearchLimits,
    steps: &mut [u32],
    item: &[u32],
    work: &mut [u32],
    res: &[u32],
) -> Result<Search, SearchRefusal>
    requires { HoldsGraph index.now × (steps.old ≡ zeros steps_length) × (item.now ≡ zeros slot_length) × (res.now ≡ zeros (length res.now)) }
    ensures started { Started index.now order limits work.old res.now reference item.now result steps.new
        work.new res.now }
    ensures begun { FirstStarted index.now order limits work.old res.now reference item.now result steps.new
        work.new res.now }
{
    match step::begin(index, reference) {
        Err(r) => Err(SearchRefusal::Path(r)),
        Ok(first) => {
            steps::put_step(steps, 0, first);
            let search = Search {
                frontier: Frontier::new(order, SHORT_SLOT, work.len() / SLOT_WORDS),
                state: SearchState::new(limits, res.len() / SLOT_WORDS),
            };
            search.push(work, item)
        }
    }
}
