// A search on the way: what waits, and what is counted and kept. Document 01, "Answer" and "Budget and frontier".
ghost use Rattle.std.specs.Prelude.{◌≡◌, ◌≤◌};
ghost use Rattle.semantics.specs.Limits.{slot_length};
ghost use Rattle.words.specs.Slots.{IsSlot};
ghost use Rattle.path_frontier.specs.Frontier.{Framed};
ghost use Rattle.search_state.specs.Items.{Clear};
ghost use Rattle.search_state.specs.Searches.{with_state, report_in, over_by, Pushable, Extends, PopsInto, Takeable, Taking};
ghost use Rattle.search_state.specs.Extensions.{Extendable, ExtendsTo};

use crate::state::SearchState;
use path_frontier::frontier::Frontier;
use semantics::bounds::MAX_EXPANSIONS;
use semantics::refusal::SearchRefusal;
use semantics::search::SearchStats;

#[derive(Clone, Copy)]
pub struct Search {
    pub frontier: Frontier,
    pub state: SearchState,
}

// A search that is over: what was counted and kept, and how many paths ever waited together.
#[derive(Clone, Copy)]
pub struct Finished {
    pub state: SearchState,
    pub waited: u64,
}

// What the top of a round opens: the search is over, or the path in the item is to be expanded. `S` is the search as it goes on: whole, or its
// progress in a frame.
// Kept: no Result, as neither is a refusal of the other; std's `ControlFlow` has the same two cases, whose names would not say that one is to be expanded.
#[derive(Clone, Copy)]
pub enum Round<S> {
    Over(Finished),
    Expand(S),
}

// What both searches do with a path is compiled into their loops: as calls they hand the whole search over in memory and back for every path, and direct
// search takes about twice as long.
//
// The next slot is copied into the front of the item. Behind it are zeros already: no path that was there had more words than a slot has.
#[inline(always)]
pub fn pop(frontier: Frontier, work: &mut [u32], item: &mut [u32]) -> Option<Frontier>
    requires { Framed frontier work.old × (frontier.length ≤ slot_length) × IsSlot slot_length item.old × Clear frontier.length item.old }
    ensures { PopsInto frontier work.old result item.new work.new }
{
    frontier.pop(work, &mut item[0..frontier.length])
}

// The search is over: nothing waits, or the path count ends it. The frontier is that before the pop.
pub fn over(frontier: Frontier, state: SearchState) -> Round<Search>
    ensures { result ≡ over_by frontier state }
{
    Round::Over(Finished {
        state,
        waited: frontier.greatest() as u64,
    })
}

impl Finished {
    pub fn stats(self) -> SearchStats
        ensures { result ≡ report_in self }
    {
        SearchStats {
            waited: self.waited,
            ..self.state.stats()
        }
    }
}

impl Search {
    // The same frontier, and what is counted and kept by now.
    pub fn with_state(self, state: SearchState) -> Search
        ensures { result ≡ with_state state self }
    {
        Search { state, ..self }
    }

    // The path in the item waits, as many of its words as a slot has; 31 when all waiting slots are taken.
    #[inline(always)]
    pub fn push(self, work: &mut [u32], item: &[u32]) -> Result<Search, SearchRefusal>
        requires { Pushable self work.old item.now }
        ensures { Extends self work.old item.now result work.new }
    {
        let roomy = self.frontier.make_room(work, item[0] as usize + 1);
        let pushed = roomy.push(work, &item[0..roomy.length]);
        let Some(frontier) = pushed else {
            return Err(SearchRefusal::NoWaitingSlot);
        };
        Ok(Search { frontier, ..self })
    }

    // A path was extended: where it is complete it is recorded, 32 when all result slots are taken; then it waits.
    #[inline(always)]
    pub fn extend(
        self,
        complete: bool,
        work: &mut [u32],
        res: &mut [u32],
        item: &[u32],
    ) -> Result<Search, SearchRefusal>
        requires { Extendable self work.old res.old item.now }
        ensures { ExtendsTo self complete work.old res.old item.now result work.new res.new }
    {
        if complete {
            let recorded = self.state.record_complete(res, item);
            let Some(state) = recorded else {
                return Err(SearchRefusal::NoResultSlot);
            };
            return self.with_state(state).push(work, item);
        }
        self.push(work, item)
    }

    // The next path is taken out of the frontier, and its expansion is put to the budget, then to the bound on expansions: 36 behind it.
    #[inline(always)]
    pub fn take(self, work: &mut [u32], item: &mut [u32]) -> Result<Round<Search>, SearchRefusal>
        requires { Takeable self work.old item.old }
        ensures { Taking self work.old result item.new work.new }
    {
        let Some(frontier) = pop(self.frontier, work, item) else {
            return Ok(over(self.frontier, self.state));
        };
        let budget = self.state.budget;
        let asked = budget.admitted_expansion();
        let state = self.state.with_budget(asked.budget);
        if asked.allowed {
            if MAX_EXPANSIONS <= budget.expanded {
                return Err(SearchRefusal::TooManyExpansions);
            }
            return Ok(Round::Expand(Search { frontier, state }));
        }
        Ok(over(self.frontier, state))
    }
}
