// The computation of a file's partial paths on the way: what waits, and what is counted and filed. Document 01, "Partial paths".
// What never changes, the frame, is handed on beside what does: a large value that goes round a loop is copied again and again.
ghost use Rattle.std.specs.Prelude.{◌≡◌, ◌+◌, ◌<◌, ◌≤◌, ◌^◌, length};
ghost use Rattle.semantics.specs.Limits.{slot_length};
ghost use Rattle.words.specs.Slots.{IsSlot};
ghost use Rattle.path_frontier.specs.Frontier.{Framed, Wider};
ghost use Rattle.partial_state.specs.Extractions.{at, frame_with, budget_in, nothing_yet, counted_by, placed_by, cut_in, found_in, going_at, taken_at, partial_of, Extends, Taking, slotted_by, Grows};
ghost use Rattle.partial_state.specs.Reps.{Extendable, ExtendsTo};

use crate::filing;
use crate::filing::Filing;
use crate::route::Ends;
use path_budget::budget::Budget;
use path_frontier::frontier::{Frontier, SHORT_SLOT};
use semantics::bounds::MAX_EXPANSIONS;
use semantics::refusal::PartialPathRefusal;
use semantics::search::{Limit, PartialPathStats, SearchOrder};

// The frontier order, and the limits on edges of a path and on expansions.
#[derive(Clone, Copy)]
pub struct Config {
    pub order: SearchOrder,
    pub length: Limit,
    pub expansions: Limit,
}

// What a computation never changes: its order, limits, and waiting slots. Their words become more when a route is too long for them.
#[derive(Clone, Copy)]
pub struct ExtractionFrame {
    pub order: SearchOrder,
    pub length: Limit,
    pub expansions: Limit,
    pub waiting: usize,
    pub slot: usize,
}

// What it changes: the frontier's place, counts and flags.
#[derive(Clone, Copy)]
pub struct Extraction {
    pub first: usize,
    pub count: usize,
    pub pending: usize,
    pub most: usize,
    pub expanded: u64,
    pub cycles: u64,
    pub found: u64,
    pub length_limited: bool,
    pub count_limited: bool,
}

// What the top of a round opens: the computation is over, or the route in the item is to be expanded.
// Kept: no Result, as neither is a refusal of the other, and no `Round`, which is over with a search's figures.
#[derive(Clone, Copy)]
pub enum ExtractionTurn {
    Over(Extraction),
    Expand(Extraction),
}

impl ExtractionFrame {
    pub fn new(config: Config, waiting: usize) -> ExtractionFrame
        ensures { result ≡ frame_with config waiting }
    {
        ExtractionFrame {
            order: config.order,
            length: config.length,
            expansions: config.expansions,
            waiting,
            slot: SHORT_SLOT,
        }
    }

    // The budget that a computation begins with. No limit on complete paths: a found one is counted beside the budget.
    fn budget(self) -> Budget
        ensures { result ≡ budget_in self }
    {
        Budget::new()
            .with_max_path_length(self.length)
            .with_max_path_count(self.expansions)
    }

    // The same with slots of so many words.
    pub fn with_slot(mut self, slot: usize) -> ExtractionFrame
        ensures { result ≡ slotted_by slot self }
    {
        self.slot = slot;
        self
    }

    // Longer routes may wait from now on: the slots get so many words.
    pub fn widen(self, extraction: Extraction, work: &mut [u32], words: usize) -> ExtractionFrame
        requires { Framed (at self extraction).frontier work.old × Wider (at self extraction).frontier work.old words × (words ≤ slot_length) }
        ensures { Grows (at self extraction) work.old words (at result extraction) work.new }
    {
        extraction.frontier(self).widen(work, words);
        self.with_slot(words)
    }
}

impl Extraction {
    // Nothing waits, and nothing is counted yet.
    pub fn new() -> Extraction
        ensures { result ≡ nothing_yet }
    {
        Extraction {
            first: 0,
            count: 0,
            pending: 0,
            most: 0,
            expanded: 0,
            cycles: 0,
            found: 0,
            length_limited: false,
            count_limited: false,
        }
    }

    fn frontier(self, frame: ExtractionFrame) -> Frontier
        ensures { result ≡ (at frame self).frontier }
    {
        Frontier {
            order: frame.order,
            length: frame.slot,
            first: self.first,
            count: self.count,
            pending: self.pending,
            capacity: frame.waiting,
            most: self.most,
        }
    }

    // The budget that the computation began with, and what was counted and refused since.
    pub fn budget(self, frame: ExtractionFrame) -> Budget
        ensures { result ≡ (at frame self).budget }
    {
        Budget {
            expanded: self.expanded,
            length_limited: self.length_limited,
            count_limited: self.count_limited,
            ..frame.budget()
        }
    }

    // The budget is handed back by each question put to it.
    pub fn with_budget(mut self, budget: Budget) -> Extraction
        ensures { result ≡ counted_by budget self }
    {
        self.expanded = budget.expanded;
        self.length_limited = budget.length_limited;
        self.count_limited = budget.count_limited;
        self
    }

    // So is the frontier by a push or a pop.
    fn with_frontier(mut self, frontier: Frontier) -> Extraction
        ensures { result ≡ placed_by frontier self }
    {
        self.first = frontier.first;
        self.count = frontier.count;
        self.pending = frontier.pending;
        self.most = frontier.most;
        self
    }

    // One more cycle cut.
    pub fn cut(mut self) -> Extraction
        requires { self.cycles + 1 < 2 ^ 64 }
        ensures { result ≡ cut_in self }
    {
        self.cycles += 1;
        self
    }

    // One more partial path is found.
    fn count(mut self) -> Extraction
        requires { self.found + 1 < 2 ^ 64 }
        ensures { result ≡ found_in self }
    {
        self.found += 1;
        self
    }

    // The route in the item waits; 31 when all waiting slots are taken.
    pub fn push(
        self,
        work: &mut [u32],
        item: &[u32],
        frame: ExtractionFrame,
    ) -> Result<Extraction, PartialPathRefusal>
        requires { Framed (at frame self).frontier work.old × IsSlot frame.slot item.now }
        ensures { Extends (at frame self) work.old item.now (going_at frame result) work.new }
    {
        let pushed = self.frontier(frame).push(work, item);
        let Some(next) = pushed else {
            return Err(PartialPathRefusal::NoWaitingSlot);
        };
        Ok(self.with_frontier(next))
    }

    // A route was extended: at an endpoint it is found, counted and filed; then it waits.
    pub fn extend(
        self,
        endpoint: bool,
        ends: Ends,
        filing: Filing,
        item: &[u32],
        work: &mut [u32],
        words: &mut [u32],
        frame: ExtractionFrame,
    ) -> Result<Extraction, PartialPathRefusal>
        requires { Extendable (at frame self) filing item.now work.old words.old }
        ensures { ExtendsTo (at frame self) endpoint ends filing item.now work.old words.old (going_at frame result) work.new words.new }
    {
        if endpoint {
            let count = item[0] as usize;
            filing::file_route(words, filing, self.found, ends, &item[1..count + 1]);
            return self.count().push(work, item, frame);
        }
        self.push(work, item, frame)
    }

    // The next route is taken out of the frontier, and its expansion is put to the budget, then to the bound on expansions: 36 behind it.
    pub fn take(
        self,
        work: &mut [u32],
        item: &mut [u32],
        frame: ExtractionFrame,
    ) -> Result<ExtractionTurn, PartialPathRefusal>
        requires { Framed (at frame self).frontier work.old × IsSlot frame.slot item.old × (self.expanded + 1 < 2 ^ 64) }
        ensures { Taking (at frame self) work.old (taken_at frame result) item.new work.new }
    {
        let popped = self.frontier(frame).pop(work, item);
        let Some(next) = popped else {
            return Ok(ExtractionTurn::Over(self));
        };
        let asked = self.budget(frame).admitted_expansion();
        let after = self.with_budget(asked.budget);
        if asked.allowed {
            if MAX_EXPANSIONS <= self.expanded {
                return Err(PartialPathRefusal::TooManyExpansions);
            }
            return Ok(ExtractionTurn::Expand(after.with_frontier(next)));
        }
        Ok(ExtractionTurn::Over(after))
    }

    // Of a computation that is over: its place is that before the last pop, so that the frontier there tells how many ever waited together.
    pub fn stats(self, frame: ExtractionFrame) -> PartialPathStats
        ensures { result ≡ partial_of (at frame self) }
    {
        PartialPathStats {
            expanded: self.expanded,
            found: self.found,
            cycles: self.cycles,
            length_limited: self.length_limited,
            count_limited: self.count_limited,
            waited: self.frontier(frame).greatest() as u64,
        }
    }
}
