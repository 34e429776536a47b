// What a search changes, in plain numbers, beside what it never changes. Direct search goes round its loops as these: its order and limits are
// enums, which are copied in parts that overlap, and the processor waits for such copies. Document 01, "Answer" and "Budget and frontier".
ghost use Rattle.std.specs.Prelude.{◌≡◌, ◌+◌, ◌<◌, ◌^◌};
ghost use Rattle.search_state.specs.Progresses.{frame_of, at, progress_of, course_at, round_of, next_at, progress_by};
ghost use Rattle.search_state.specs.Searches.{Takeable, Taking};
ghost use Rattle.search_state.specs.Extensions.{Extendable, ExtendsTo};

use crate::dead_ends::DeadEnds;
use crate::search::{Round, Search};
use crate::state::{SearchState, begun};
use path_budget::budget::Budget;
use path_frontier::frontier::Frontier;
use semantics::refusal::SearchRefusal;
use semantics::search::{SearchLimits, SearchOrder};

// What a search never changes: its order, limits, and areas.
#[derive(Clone, Copy)]
pub struct Frame {
    pub order: SearchOrder,
    pub limits: SearchLimits,
    pub waiting: usize,
    pub results: usize,
}

// What it changes: the frontier's place, counts and flags.
#[derive(Clone, Copy)]
pub struct Progress {
    pub first: usize,
    pub count: usize,
    pub pending: usize,
    pub most: usize,
    pub slot: usize,
    pub expanded: u64,
    pub complete: u64,
    pub cycles: u64,
    pub rejected: u64,
    pub kept: usize,
    pub length_limited: bool,
    pub count_limited: bool,
    pub complete_limited: bool,
}

// Kept: a search is its frame and its progress together, and neither alone is the search, as a `From` would say.
impl Search {
    pub fn frame(self) -> Frame
        ensures { result ≡ frame_of self }
    {
        let budget = self.state.budget;
        Frame {
            order: self.frontier.order,
            limits: SearchLimits {
                length: budget.max_length,
                expansions: budget.max_paths,
                complete: budget.max_complete,
            },
            waiting: self.frontier.capacity,
            results: self.state.results,
        }
    }

    pub fn progress(self) -> Progress
        ensures { result ≡ progress_of self }
    {
        let frontier = self.frontier;
        let state = self.state;
        let budget = state.budget;
        Progress {
            first: frontier.first,
            count: frontier.count,
            pending: frontier.pending,
            most: frontier.most,
            slot: frontier.length,
            expanded: budget.expanded,
            complete: budget.complete,
            cycles: state.cycles,
            rejected: state.rejected,
            kept: state.kept,
            length_limited: budget.length_limited,
            count_limited: budget.count_limited,
            complete_limited: budget.complete_limited,
        }
    }
}

impl Round<Search> {
    // The same with the progress of the search alone.
    fn progress(self) -> Round<Progress>
        ensures { result ≡ round_of self }
    {
        match self {
            Round::Over(finished) => Round::Over(finished),
            Round::Expand(search) => Round::Expand(search.progress()),
        }
    }
}

impl Progress {
    fn frontier(self, frame: Frame) -> Frontier
        ensures { result ≡ (at frame self).frontier }
    {
        Frontier {
            order: frame.order,
            length: self.slot,
            first: self.first,
            count: self.count,
            pending: self.pending,
            capacity: frame.waiting,
            most: self.most,
        }
    }

    // The budget that the search began with, and what was counted and refused since.
    pub fn budget(self, frame: Frame) -> Budget
        ensures { result ≡ (at frame self).state.budget }
    {
        Budget {
            expanded: self.expanded,
            complete: self.complete,
            length_limited: self.length_limited,
            count_limited: self.count_limited,
            complete_limited: self.complete_limited,
            ..begun(frame.limits)
        }
    }

    // The search that has come so far in this frame.
    fn at(self, frame: Frame) -> Search
        ensures { result ≡ at frame self }
    {
        let state = SearchState {
            budget: self.budget(frame),
            cycles: self.cycles,
            rejected: self.rejected,
            kept: self.kept,
            results: frame.results,
        };
        Search {
            frontier: self.frontier(frame),
            state,
        }
    }

    // Behind edges that lead nowhere.
    pub fn passed_by(mut self, passed: DeadEnds) -> Progress
        requires { (self.cycles + passed.cycles < 2 ^ 64) × (self.rejected + passed.rejected < 2 ^ 64) }
        ensures { result ≡ progress_by passed self }
    {
        self.cycles += passed.cycles;
        self.rejected += passed.rejected;
        if passed.overlong {
            self.length_limited = true;
        }
        self
    }

    // As `Search::extend`.
    pub fn extend(
        self,
        complete: bool,
        work: &mut [u32],
        res: &mut [u32],
        item: &[u32],
        frame: Frame,
    ) -> Result<Progress, SearchRefusal>
        requires { Extendable (at frame self) work.old res.old item.now }
        ensures { ExtendsTo (at frame self) complete work.old res.old item.now (course_at frame result) work.new res.new }
    {
        Ok(self.at(frame).extend(complete, work, res, item)?.progress())
    }

    // As `Search::take`.
    pub fn take(
        self,
        work: &mut [u32],
        item: &mut [u32],
        frame: Frame,
    ) -> Result<Round<Progress>, SearchRefusal>
        requires { Takeable (at frame self) work.old item.old }
        ensures { Taking (at frame self) work.old (next_at frame result) item.new work.new }
    {
        Ok(self.at(frame).take(work, item)?.progress())
    }
}
