// The words of a path's steps: semantics/specs/ReplayedPaths.antt. Any words are read so.
ghost use Rattle.std.specs.Prelude.{◌≡◌, ◌+◌, ◌*◌, get_or};
ghost use Rattle.semantics.specs.Limits.{step_length};

use semantics::bounds::STEP_WORDS;
use stepping::layout;

// Where a step's numbers stand in its words. The node behind the step.
pub const END: u32 = layout::END as u32;
// The top cell of the symbol stack.
pub const SYMBOLS: u32 = layout::SYMBOLS as u32;
// The top cell of the scope stack.
pub const SCOPES: u32 = layout::SCOPES as u32;
// The symbol that the step made, in two words.
pub const SYMBOL: u32 = layout::SYMBOL as u32;

pub const SYMBOL_HIGH: u32 = layout::SYMBOL_HIGH as u32;
// The top cell of the scopes attached to it; 0 for none.
pub const ATTACHED: u32 = layout::ATTACHED as u32;
// The cell below it.
pub const BELOW: u32 = layout::BELOW as u32;
// The scope that the step made.
pub const SCOPE: u32 = layout::SCOPE as u32;

// A word; 0 behind the last.
pub(crate) fn word(words: &[u32], at: usize) -> u32
    ensures { result ≡ get_or words.now at 0 }
{
    words.get(at).copied().unwrap_or(0)
}

// One number of step k.
pub(crate) fn part(steps: &[u32], k: u32, field: u32) -> u32
    ensures { result ≡ get_or steps.now (step_length * k + field) 0 }
{
    word(steps, STEP_WORDS * k as usize + field as usize)
}
