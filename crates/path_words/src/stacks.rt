// Both stacks, read off the steps cell by cell, tops first, and written.
// The number of the top cell also bounds how many cells are read, as in stepping/specs/Steps.antt: no chain need be known to end.
ghost use Rattle.semantics.specs.ReplayedPaths.{step_at, scopes_of, attached_of, symbols_of};
ghost use Rattle.path_words.specs.Written.{Adds};
ghost use Rattle.semantics.specs.PathWords.{closed, scope_words, symbol_word, symbol_words};

use crate::cells;
use crate::cells::part;
use crate::put::{NONE, put, put_item, put_wide};

// What stands in front of a scope.
const SCOPE: u32 = 1;
// In front of a symbol without scopes.
const PLAIN: u32 = 1;
// In front of a symbol with the scopes behind it.
const SCOPED: u32 = 2;

// The scopes from a cell down.
pub(crate) fn write_scopes(steps: &[u32], top: u32, area: &mut [u32], from: usize) -> usize
    ensures { Adds area.old from area.new result (closed (scope_words (scopes_of (step_at steps.now) top))) }
{
    let mut at = from;
    let mut cell = top;
    for _ in 0..top {
        if cell < 1 {
            return put(area, at, NONE);
        }
        at = put_item(area, at, SCOPE, part(steps, cell - 1, cells::SCOPE));
        cell = part(steps, cell - 1, cells::SCOPES);
    }
    put(area, at, NONE)
}

// The symbol that step k made, with the scopes attached to it, if any are.
fn write_symbol(steps: &[u32], k: u32, area: &mut [u32], from: usize) -> usize
    ensures { Adds area.old from area.new result
        (symbol_word (step_at steps.now k).symbol (attached_of (step_at steps.now) (step_at steps.now k).attached)) }
{
    let low = part(steps, k, cells::SYMBOL);
    let high = part(steps, k, cells::SYMBOL_HIGH);
    let attached = part(steps, k, cells::ATTACHED);
    if attached < 1 {
        return put_wide(area, from, PLAIN, high, low);
    }
    let next = put_wide(area, from, SCOPED, high, low);
    write_scopes(steps, attached, area, next)
}

// The symbols from a cell down.
pub(crate) fn write_symbols(steps: &[u32], top: u32, area: &mut [u32], from: usize) -> usize
    ensures { Adds area.old from area.new result (closed (symbol_words (symbols_of (step_at steps.now) top))) }
{
    let mut at = from;
    let mut cell = top;
    for _ in 0..top {
        if cell < 1 {
            return put(area, at, NONE);
        }
        at = write_symbol(steps, cell - 1, area, at);
        cell = part(steps, cell - 1, cells::BELOW);
    }
    put(area, at, NONE)
}
