// The limits of a search, its counts, and which limit refused work.
// Document 01, "Budget and frontier": "Limits are each a number or absent, set one after another on a budget handed back each time";
// "The three `admit_` operations change a budget lent by the caller, as in the Rust. As there, only the library itself may call them",
// so those three are not `pub`. The searches put each of their questions to an `admitted_` method, which takes a budget and hands it back, and
// lends it to the `admit_` operation of its name: whoever calls it sees no reference to a budget.
ghost use Rattle.std.specs.Prelude.{◌≡◌, ◌+◌, ◌<◌, ◌^◌};
ghost use Rattle.semantics.specs.Limits.{within, below};
ghost use Rattle.path_budget.specs.Budget.{fresh, with_max_length, with_max_paths, with_max_complete, expansion, lengthening, completion, stats_of, admitted_by};

use semantics::search::{Limit, SearchStats};

// A flag is set only by a refusal, never by a count that merely reaches its limit.
#[derive(Clone, Copy)]
pub struct Budget {
    pub max_length: Limit,
    pub max_paths: Limit,
    pub max_complete: Limit,
    pub expanded: u64,
    pub complete: u64,
    pub length_limited: bool,
    pub count_limited: bool,
    pub complete_limited: bool,
}

// Whether the work is allowed, and the budget after the question.
// Kept: no Option in place of the flag, as the budget is there after a refusal too, with the refusal noted in it.
#[derive(Clone, Copy)]
pub struct Admitted {
    pub allowed: bool,
    pub budget: Budget,
}

fn is_within(n: u64, limit: Limit) -> bool
    ensures { result ≡ within n limit }
{
    match limit {
        None => true,
        Some(most) => n <= most,
    }
}

fn is_below(n: u64, limit: Limit) -> bool
    ensures { result ≡ below n limit }
{
    match limit {
        None => true,
        Some(most) => n < most,
    }
}

impl Budget {
    // No limits, and nothing counted.
    pub fn new() -> Budget
        ensures { result ≡ fresh }
    {
        Budget {
            max_length: None,
            max_paths: None,
            max_complete: None,
            expanded: 0,
            complete: 0,
            length_limited: false,
            count_limited: false,
            complete_limited: false,
        }
    }

    // A limit set twice is the last one set.
    pub fn with_max_path_length(mut self, limit: Limit) -> Budget
        ensures { result ≡ with_max_length limit self }
    {
        self.max_length = limit;
        self
    }

    pub fn with_max_path_count(mut self, limit: Limit) -> Budget
        ensures { result ≡ with_max_paths limit self }
    {
        self.max_paths = limit;
        self
    }

    pub fn with_max_complete_path_count(mut self, limit: Limit) -> Budget
        ensures { result ≡ with_max_complete limit self }
    {
        self.max_complete = limit;
        self
    }

    // One more expansion is counted, or refused when the count has reached its limit.
    fn expansion_answer(mut self) -> Admitted
        requires { self.expanded + 1 < 2 ^ 64 }
        ensures { result ≡ expansion self }
    {
        if is_below(self.expanded, self.max_paths) {
            self.expanded += 1;
            return Admitted::new(true, self);
        }
        self.count_limited = true;
        Admitted::new(false, self)
    }

    // A path of this length is refused only above the limit.
    fn length_answer(mut self, length: u64) -> Admitted
        ensures { result ≡ lengthening length self }
    {
        if is_within(length, self.max_length) {
            return Admitted::new(true, self);
        }
        self.length_limited = true;
        Admitted::new(false, self)
    }

    // One more complete path is counted, and kept unless as many as the limit are kept already.
    fn complete_answer(mut self, kept: u64) -> Admitted
        requires { self.complete + 1 < 2 ^ 64 }
        ensures { result ≡ completion kept self }
    {
        self.complete += 1;
        if is_below(kept, self.max_complete) {
            return Admitted::new(true, self);
        }
        self.complete_limited = true;
        Admitted::new(false, self)
    }

    // The same three questions on a budget that the caller lends: the answer is returned, and the budget after the question stays behind
    // the reference. Each copies the budget, has the method by value above do the work, and stores what that hands back.
    pub(crate) fn admit_expansion(&mut self) -> bool
        requires { self.old.expanded + 1 < 2 ^ 64 }
        ensures { (result ≡ (expansion self.old).allowed) × (self.new ≡ (expansion self.old).budget) }
    {
        let admitted = self.expansion_answer();
        *self = admitted.budget;
        admitted.allowed
    }

    pub(crate) fn admit_length(&mut self, length: u64) -> bool
        ensures { (result ≡ (lengthening length self.old).allowed) × (self.new ≡ (lengthening length self.old).budget) }
    {
        let admitted = self.length_answer(length);
        *self = admitted.budget;
        admitted.allowed
    }

    pub(crate) fn admit_complete(&mut self, kept: u64) -> bool
        requires { self.old.complete + 1 < 2 ^ 64 }
        ensures { (result ≡ (completion kept self.old).allowed) × (self.new ≡ (completion kept self.old).budget) }
    {
        let admitted = self.complete_answer(kept);
        *self = admitted.budget;
        admitted.allowed
    }

    // The same three questions as a search puts them: to a budget by value, which is lent for the question and handed back with the answer.
    pub fn admitted_expansion(mut self) -> Admitted
        requires { self.expanded + 1 < 2 ^ 64 }
        ensures { result ≡ expansion self }
    {
        let allowed = self.admit_expansion();
        Admitted::new(allowed, self)
    }

    pub fn admitted_length(mut self, length: u64) -> Admitted
        ensures { result ≡ lengthening length self }
    {
        let allowed = self.admit_length(length);
        Admitted::new(allowed, self)
    }

    pub fn admitted_complete(mut self, kept: u64) -> Admitted
        requires { self.complete + 1 < 2 ^ 64 }
        ensures { result ≡ completion kept self }
    {
        let allowed = self.admit_complete(kept);
        Admitted::new(allowed, self)
    }

    // What the search tells: the budget's counts and flags, with the rejections and the cycle cuts that the search counts itself. How many paths
    // waited is the frontier's to tell, and 0 here.
    pub fn stats(self, rejected: u64, cycles: u64) -> SearchStats
        ensures { result ≡ stats_of self rejected cycles }
    {
        SearchStats {
            expanded: self.expanded,
            complete: self.complete,
            rejected,
            cycles,
            length_limited: self.length_limited,
            count_limited: self.count_limited,
            complete_limited: self.complete_limited,
            waited: 0,
        }
    }
}

impl Admitted {
    // A struct that holds a struct is made by value here, so that the three above do nothing with the budget but lend it and pass it on.
    fn new(allowed: bool, budget: Budget) -> Admitted
        ensures { result ≡ admitted_by allowed budget }
    {
        Admitted { allowed, budget }
    }
}
