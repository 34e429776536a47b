// What a caller reads off a replayed path, as numbers: its end; each edge e as 0 and e, the jump behind it to scope s as 1 and s, and a 2 behind the last;
// how many symbols there are and, tops first, each in two words, the high one first, with a flag and, where that is 1, its attached scopes; the scope stack.
// A list of scopes is a count and then the scopes, tops first.
ghost use Rattle.std.specs.Prelude.{◌<◌};
ghost use Rattle.semantics.specs.Limits.{step_length};

use case_list::answer::{put, word};
use semantics::bounds::{SLOT_WORDS, STEP_WORDS};
use semantics::replayed::Path;
use stepping::layout;

// Each step makes at most one cell of each stack. Cell 0 is none, cell c is what step c - 1 made.
const MOST_CELLS: u32 = SLOT_WORDS as u32;

// Words of a step: the node where it ends, the top cells of both stacks behind it, what stands in the cells that it made.
const END: u32 = layout::END as u32;

const SYMBOLS: u32 = layout::SYMBOLS as u32;

const SCOPES: u32 = layout::SCOPES as u32;

const SYMBOL: u32 = layout::SYMBOL as u32;

const SYMBOL_HIGH: u32 = layout::SYMBOL_HIGH as u32;

const ATTACHED: u32 = layout::ATTACHED as u32;

const BELOW: u32 = layout::BELOW as u32;

const SCOPE: u32 = layout::SCOPE as u32;

fn step_word(steps: &[u32], step: u32, which: u32) -> u32
    requires { which < step_length }
{
    word(steps, STEP_WORDS * step as usize + which as usize)
}

fn cell_word(steps: &[u32], cell: u32, which: u32) -> u32
    requires { which < step_length }
{
    if 0 < cell {
        return step_word(steps, cell - 1, which);
    }
    0
}

// How many cells hang together from a top cell on, by the word that names the next one.
fn chain_count(steps: &[u32], top: u32, link: u32) -> u32
    requires { link < step_length }
{
    let mut cell = top;
    for count in 0..MOST_CELLS {
        if cell == 0 {
            return count;
        }
        cell = cell_word(steps, cell, link);
    }
    MOST_CELLS
}

fn write_scopes(steps: &[u32], top: u32, out: &mut [u32], at: usize) -> usize {
    let count = chain_count(steps, top, SCOPES);
    let mut next = put(out, at, count);
    let mut cell = top;
    for _ in 0..count {
        next = put(out, next, cell_word(steps, cell, SCOPE));
        cell = cell_word(steps, cell, SCOPES);
    }
    next
}

fn write_symbol(steps: &[u32], cell: u32, out: &mut [u32], at: usize) -> usize {
    let low = put(out, at, cell_word(steps, cell, SYMBOL_HIGH));
    let next = put(out, low, cell_word(steps, cell, SYMBOL));
    let attached = cell_word(steps, cell, ATTACHED);
    if attached == 0 {
        return put(out, next, 0);
    }
    let behind = put(out, next, 1);
    write_scopes(steps, attached, out, behind)
}

fn write_symbols(steps: &[u32], top: u32, out: &mut [u32], at: usize) -> usize {
    let count = chain_count(steps, top, BELOW);
    let mut next = put(out, at, count);
    let mut cell = top;
    for _ in 0..count {
        next = write_symbol(steps, cell, out, next);
        cell = cell_word(steps, cell, BELOW);
    }
    next
}

// Edge j of the path, and the jump behind it.
fn write_step(path: Path, j: usize, out: &mut [u32], at: usize) -> usize {
    if let (Some(&edge), Some(&jump)) = (path.edges.get(j), path.jumps.get(j)) {
        let behind = put(out, at, 0);
        let next = put(out, behind, edge);
        if jump {
            let jumped = put(out, next, 1);
            return put(out, jumped, step_word(&path.steps, j as u32 + 1, END));
        }
        return next;
    }
    at
}

fn write_steps(path: Path, out: &mut [u32], at: usize) -> usize {
    let mut next = at;
    for j in 0..path.count as usize {
        next = write_step(path, j, out, next);
    }
    put(out, next, 2)
}

// Writes what is read off the path, and answers the place behind it.
pub fn write_path(path: Path, out: &mut [u32], at: usize) -> usize {
    let last = path.count;
    let steps = put(out, at, path.end);
    let symbols = write_steps(path, out, steps);
    let scopes = write_symbols(
        &path.steps,
        step_word(&path.steps, last, SYMBOLS),
        out,
        symbols,
    );
    write_scopes(
        &path.steps,
        step_word(&path.steps, last, SCOPES),
        out,
        scopes,
    )
}
