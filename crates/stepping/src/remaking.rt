// A step that was made once is made again: its edge was accepted then, so that nothing is judged. Document 01, "Path".
// A path that waits keeps its edges alone; when it is taken, its steps are laid out by these functions.
ghost use Rattle.std.specs.Prelude.{◌≡◌, ◌+◌, ◌*◌, ◌<◌, ◌≤◌, length};
ghost use Rattle.semantics.specs.Limits.{step_length};
ghost use Rattle.storage.specs.Index.{BLOCK, Blocks, node_row, target_row};
ghost use Rattle.stepping.specs.StepWords.{with_step};
ghost use Rattle.stepping.specs.Judged.{Behind, Ready, remade_behind};
ghost use Rattle.stepping.specs.Judged.Remaking.{Accepted};

use crate::{step, steps};
use semantics::graph::EdgeId;
use semantics::kinds;
use semantics::replayed::Step;
use storage::{blocks, store};
use words::halves;

// Writes step k, and hands it on.
fn lay(steps: &mut [u32], k: usize, step: Step) -> Step
    requires { step_length * k + step_length ≤ length steps.old }
    ensures { (result ≡ step) × (steps.new ≡ with_step steps.old k result) }
{
    steps::put_step(steps, k, step);
    step
}

// Step k at node `target`, by its kind, which says what is read of the node and of the step that made a top. Each kind writes its step by
// itself: most leave words of it 0, and a step that all of them hand to one write is carried there word by word.
fn by_kind(index: &[u32], steps: &mut [u32], k: usize, target: u32, edge: u32, last: Step) -> Step
    requires { Blocks index.now × (BLOCK * target < length index.now) × Behind steps.old last k }
    ensures { (result ≡ remade_behind (node_row index.now) steps.old last k edge target) × (steps.new ≡ with_step steps.old k result) }
{
    let at = blocks::BLOCK * target as usize;
    match index[at + blocks::KIND] {
        kinds::JUMP_TO_SCOPE => {
            let over = steps::maker(steps, last.scopes);
            let step = step::plain(edge, over.scope, last.symbols, over.scopes);
            lay(steps, k, step)
        }
        kinds::PUSH => {
            let symbol = halves::join(index[at + blocks::SYMBOL], index[at + blocks::SYMBOL_HIGH]);
            lay(steps, k, step::push(symbol, target, edge, k as u32, last))
        }
        kinds::POP => {
            let top = steps::maker(steps, last.symbols);
            lay(steps, k, step::plain(edge, target, top.below, last.scopes))
        }
        kinds::PUSH_SCOPED => {
            let symbol = halves::join(index[at + blocks::SYMBOL], index[at + blocks::SYMBOL_HIGH]);
            let scope = index[at + blocks::SCOPE];
            let step = step::pushed_scoped(symbol, scope, target, edge, k as u32, last);
            lay(steps, k, step)
        }
        kinds::POP_SCOPED => {
            let top = steps::maker(steps, last.symbols);
            lay(steps, k, step::plain(edge, target, top.below, top.attached))
        }
        kinds::DROP_SCOPES => lay(steps, k, step::plain(edge, target, last.symbols, 0)),
        _ => {
            let step = step::plain(edge, target, last.symbols, last.scopes);
            lay(steps, k, step)
        }
    }
}

// Step k, of an edge behind `last`. It is handed on, so that a run of steps keeps the tops of both stacks in registers and reads no step back.
// Root and scopes, the commonest, change neither stack, and are told from the other kinds before these are told apart.
pub fn remake(index: &[u32], steps: &mut [u32], k: usize, edge: u32, last: Step) -> Step
    requires { Blocks index.now × (BLOCK * edge < length index.now) × (BLOCK * target_row index.now edge < length index.now) × Behind steps.old last k }
    ensures { (result ≡ remade_behind (node_row index.now) steps.old last k edge (target_row index.now edge))
        × (steps.new ≡ with_step steps.old k result) }
{
    let target = store::target(index, EdgeId(edge));
    if store::is_plain(index, target) {
        let step = step::plain(edge, target.0, last.symbols, last.scopes);
        return lay(steps, k, step);
    }
    by_kind(index, steps, k, target.0, edge, last)
}

// The step of an edge behind the k edges whose steps stand there, which was judged so and accepted.
pub fn advance(index: &[u32], steps: &mut [u32], k: u32, edge: u32)
    requires { Blocks index.now × Ready steps.old k × (step_length * (k + 1) + step_length ≤ length steps.old) × Accepted index.now steps.old k edge }
    ensures { (v : Accepted index.now steps.old k edge) → steps.new ≡ with_step steps.old (k + 1) v.step }
{
    let last = steps::get_step(steps, k as usize);
    remake(index, steps, k as usize + 1, edge, last);
}
