// What edges that lead nowhere add to the counts of a search. It is small: while a search stood in the loop over the edges of a node, it was
// copied for each of them, and the processor waited for the copies. Document 01, "Answer": cycle cuts, rejections, the length flag.
ghost use Rattle.std.specs.Prelude.{◌≡◌, ◌+◌, ◌<◌, ◌^◌};
ghost use Rattle.search_state.specs.Passes.{nothing_passed, passed_cut, passed_rejection, passed_length};

#[derive(Clone, Copy)]
pub struct DeadEnds {
    pub cycles: u64,
    pub rejected: u64,
    pub overlong: bool,
}

// Kept: `cut` and `reject` stand here and in `SearchState`, and `cut` in `Extraction`: one addition each, for which a trait would ask both types to hand out a count and to take it back.
impl DeadEnds {
    pub fn nothing() -> DeadEnds
        ensures { result ≡ nothing_passed }
    {
        DeadEnds {
            cycles: 0,
            rejected: 0,
            overlong: false,
        }
    }

    // One more cycle cut.
    pub fn cut(mut self) -> DeadEnds
        requires { self.cycles + 1 < 2 ^ 64 }
        ensures { result ≡ passed_cut self }
    {
        self.cycles += 1;
        self
    }

    // One more rejection.
    pub fn reject(mut self) -> DeadEnds
        requires { self.rejected + 1 < 2 ^ 64 }
        ensures { result ≡ passed_rejection self }
    {
        self.rejected += 1;
        self
    }

    // A length above its limit.
    pub fn measure(mut self) -> DeadEnds
        ensures { result ≡ passed_length self }
    {
        self.overlong = true;
        self
    }
}
