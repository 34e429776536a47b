// The steps of a path in a word area that is lent, 9 words for each. Document 01, "Path".
// Truncation is free, and nothing is copied when a path grows.
ghost use Rattle.std.specs.Prelude.{◌≡◌, ◌+◌, ◌-◌, ◌*◌, ◌≤◌, length};
ghost use Rattle.semantics.specs.Limits.{step_length};
ghost use Rattle.semantics.specs.ReplayedPaths.{step_at};
ghost use Rattle.storage.specs.Index.{Blocks, node_row, edge_row};
ghost use Rattle.stepping.specs.StepWords.{with_step, maker_in};
ghost use Rattle.stepping.specs.Judged.{Ready, judged_of, words_after};

use crate::layout;
use crate::step::follow;
use semantics::bounds::STEP_WORDS;
use semantics::refusal::PathRefusal;
use semantics::replayed::Step;
use words::halves;

pub fn get_step(steps: &[u32], k: usize) -> Step
    requires { step_length * k + step_length ≤ length steps.now }
    ensures { result ≡ step_at steps.now k }
{
    let at = STEP_WORDS * k;
    Step {
        edge: steps[at],
        end: steps[at + layout::END],
        symbols: steps[at + layout::SYMBOLS],
        scopes: steps[at + layout::SCOPES],
        symbol: halves::join(steps[at + layout::SYMBOL], steps[at + layout::SYMBOL_HIGH]),
        attached: steps[at + layout::ATTACHED],
        below: steps[at + layout::BELOW],
        scope: steps[at + layout::SCOPE],
    }
}

pub fn put_step(steps: &mut [u32], k: usize, s: Step)
    requires { step_length * k + step_length ≤ length steps.old }
    ensures { steps.new ≡ with_step steps.old k s }
{
    let low = halves::low(s.symbol);
    let high = halves::high(s.symbol);
    let at = STEP_WORDS * k;
    steps[at] = s.edge;
    steps[at + layout::END] = s.end;
    steps[at + layout::SYMBOLS] = s.symbols;
    steps[at + layout::SCOPES] = s.scopes;
    steps[at + layout::SYMBOL] = low;
    steps[at + layout::SYMBOL_HIGH] = high;
    steps[at + layout::ATTACHED] = s.attached;
    steps[at + layout::BELOW] = s.below;
    steps[at + layout::SCOPE] = s.scope;
}

// The number of the step that made a cell; step 0 for none.
fn made_by(cell: u32) -> usize
    ensures { result ≡ cell - 1 }
{
    cell.saturating_sub(1) as usize
}

// The step that made a cell. Only its number is chosen by a test, so that of its words none is read but those that are asked for.
pub(crate) fn maker(steps: &[u32], cell: u32) -> Step
    requires { (step_length * cell ≤ length steps.now) × (step_length ≤ length steps.now) }
    ensures { result ≡ maker_in steps.now cell }
{
    get_step(steps, made_by(cell))
}

// Judges an edge on the path of k edges that stands in the steps.
pub fn judge(index: &[u32], steps: &[u32], k: u32, edge: u32) -> Result<Step, PathRefusal>
    requires { Blocks index.now × Ready steps.now k }
    ensures { result ≡ judged_of (node_row index.now) steps.now k edge (edge_row index.now edge) }
{
    let last = get_step(steps, k as usize);
    let top = maker(steps, last.symbols);
    let over = maker(steps, last.scopes);
    follow(index, edge, k + 1, last, top, over)
}

// Judges an edge, and adds its step where it is not refused.
pub fn append(index: &[u32], steps: &mut [u32], k: u32, edge: u32) -> Result<Step, PathRefusal>
    requires { Blocks index.now × Ready steps.old k × (step_length * (k + 1) + step_length ≤ length steps.old) }
    ensures value { result ≡ judged_of (node_row index.now) steps.old k edge (edge_row index.now edge) }
    ensures steps_after { steps.new ≡ words_after steps.old (k + 1) result }
{
    let effect = judge(index, steps, k, edge);
    let Ok(step) = effect else {
        return effect;
    };
    put_step(steps, k as usize + 1, step);
    effect
}
