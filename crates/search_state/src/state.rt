// Work accounting and the complete paths that are kept, shared by the direct, linear and stitched search, so that all three bound and
// report a search alike. Document 01, "Answer": statistics, flags, and result slots; 32 of "Turned back".
ghost use Rattle.std.specs.Prelude.{◌≡◌, ◌+◌, ◌<◌, ◌≤◌, ◌^◌};
ghost use Rattle.semantics.specs.Limits.{slot_length};
ghost use Rattle.words.specs.Slots.{IsSlot, SlotsIn};
ghost use Rattle.path_budget.specs.Budget.{budget_of};
ghost use Rattle.search_state.specs.States.{new_state, with_budget, cut_one, rejected_one, overlong_by, recorded_by, result_after, stats_in};

use path_budget::budget::Budget;
use semantics::bounds::SLOT_WORDS;
use semantics::search::{SearchLimits, SearchStats};
use words::slots;

// `kept` of the `results` result slots are taken.
#[derive(Clone, Copy)]
pub struct SearchState {
    pub budget: Budget,
    pub cycles: u64,
    pub rejected: u64,
    pub kept: usize,
    pub results: usize,
}

// The budget that a search begins with.
pub(crate) fn begun(limits: SearchLimits) -> Budget
    ensures { result ≡ budget_of limits }
{
    Budget::new()
        .with_max_path_length(limits.length)
        .with_max_path_count(limits.expansions)
        .with_max_complete_path_count(limits.complete)
}

impl SearchState {
    // Nothing is counted or kept yet.
    pub fn new(limits: SearchLimits, results: usize) -> SearchState
        ensures { result ≡ new_state limits results }
    {
        SearchState {
            budget: begun(limits),
            cycles: 0,
            rejected: 0,
            kept: 0,
            results,
        }
    }

    // The budget is handed back by each question put to it.
    pub fn with_budget(self, budget: Budget) -> SearchState
        ensures { result ≡ with_budget budget self }
    {
        SearchState { budget, ..self }
    }

    // One more cycle cut.
    pub fn cut(mut self) -> SearchState
        requires { self.cycles + 1 < 2 ^ 64 }
        ensures { result ≡ cut_one self }
    {
        self.cycles += 1;
        self
    }

    // One more rejection.
    pub fn reject(mut self) -> SearchState
        requires { self.rejected + 1 < 2 ^ 64 }
        ensures { result ≡ rejected_one self }
    {
        self.rejected += 1;
        self
    }

    // A path of this length is put to the budget, which flags it where it is refused.
    pub fn measure(self, length: u64) -> SearchState
        ensures { result ≡ overlong_by length self }
    {
        self.with_budget(self.budget.admitted_length(length).budget)
    }

    // A complete path just found is counted, and kept in the next slot unless the limit on complete paths refuses it;
    // `None` when all result slots are taken.
    pub fn record_complete(self, res: &mut [u32], item: &[u32]) -> Option<SearchState>
        requires { (self.kept ≤ self.results) × SlotsIn slot_length self.results res.old × IsSlot slot_length item.now × (self.budget.complete + 1 < 2 ^ 64) }
        ensures value { result ≡ recorded_by self }
        ensures res_after { res.new ≡ result_after self item.now res.old }
    {
        let kept = self.kept;
        let asked = self.budget.admitted_complete(kept as u64);
        let mut next = self.with_budget(asked.budget);
        if asked.allowed {
            if kept < self.results {
                slots::write_slot(res, SLOT_WORDS, kept, item);
                next.kept = kept + 1;
                return Some(next);
            }
            return None;
        }
        Some(next)
    }

    pub fn stats(self) -> SearchStats
        ensures { result ≡ stats_in self }
    {
        self.budget.stats(self.rejected, self.cycles)
    }
}
