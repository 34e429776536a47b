// Rivals: a recorded path that most likely shadows another one, found by the edges of the other one alone.
// `best` has a word for each node: 0 at first, then the place in the result area of the edge of the greatest precedence of those that leave the
// node on a recorded path. Place 0 is a count word, never an edge. Only a no is relied on: a path that has a rival is compared.
// Document 01, "Path": "Different sources: no. Left precedence greater: yes."
// Kept: one struct of the index, the result area and `best` is no plainer: the area is marked between two questions, so it would be made anew, and its fact proved anew, at each.
ghost use Rattle.std.specs.Prelude.{◌≡◌, ℕ, ◌+◌, ◌*◌, ◌≤◌, ◌<◌, length, get_or};
ghost use Rattle.semantics.specs.Limits.{slot_length};
ghost use Rattle.storage.specs.Index.{Blocks, edge_row};
ghost use Rattle.reply.specs.Beatable.{exceeds};
ghost use Rattle.reply.specs.ResultSlots.{Fitting, AllFitting};
ghost use Rattle.reply.specs.Rivals.{Place, Best, Greater, Inside, Unrivalled, SlotUnrivalled};

use crate::lists;
use semantics::bounds::SLOT_WORDS;
use semantics::graph::{Edge, EdgeId};
use storage::store;

// Is it a live edge of a greater precedence?
fn exceeds(index: &[u32], edge: u32, precedence: i32) -> bool
    requires { Blocks index.now }
    ensures { result ≡ exceeds precedence (edge_row index.now edge) }
{
    match store::edge(index, EdgeId(edge)) {
        Edge::Removed => false,
        Edge::Live {
            source: _,
            target: _,
            precedence: other,
        } => precedence < other,
    }
}

// The place of the edge of the greater precedence: of one that is known, if any is, and another. The first one stays where they are equal.
fn greater(index: &[u32], res: &[u32], known: usize, at: usize) -> usize
    requires blocks { Blocks index.now }
    requires known_in_bounds { (known < length res.now) × (at < length res.now) }
    ensures { Greater index.now res.now known at result }
{
    if known < 1 {
        return at;
    }
    match store::edge(index, EdgeId(res[known])) {
        Edge::Removed => at,
        Edge::Live {
            source: _,
            target: _,
            precedence,
        } => {
            if exceeds(index, res[at], precedence) {
                at
            } else {
                known
            }
        }
    }
}

// The edge at a place is looked at: its source's word becomes this place, if no edge so great is known.
fn note(index: &[u32], res: &[u32], best: &mut [usize], at: usize)
    requires blocks { Blocks index.now }
    requires at_in_bounds { (at < length res.now) × Place slot_length res.now at × Best slot_length index.now res.now at best.old }
    ensures { Best slot_length index.now res.now (at + 1) best.new }
{
    match store::edge(index, EdgeId(res[at])) {
        Edge::Removed => {}
        Edge::Live {
            source,
            target: _,
            precedence: _,
        } => {
            let s = source.0 as usize;
            if best.len() <= s {
                return;
            }
            best[s] = greater(index, res, best[s], at);
        }
    }
}

// The edges in slot i are looked at.
fn note_slot(index: &[u32], res: &[u32], best: &mut [usize], i: usize)
    requires blocks { Blocks index.now }
    requires fitting { Fitting slot_length i res.now × Best slot_length index.now res.now (slot_length * i) best.old }
    ensures { Best slot_length index.now res.now (slot_length * i + slot_length) best.new }
{
    let start = SLOT_WORDS * i + 1;
    let end = start + lists::edge_count(res, i);
    for at in start..end {
        note(index, res, best, at);
    }
}

// The edges of all n paths are looked at.
pub(crate) fn note_all(index: &[u32], res: &[u32], best: &mut [usize], n: usize)
    requires blocks { Blocks index.now }
    requires all_fitting { AllFitting slot_length n res.now × Best slot_length index.now res.now 0 best.old }
    ensures { Best slot_length index.now res.now (slot_length * n) best.new }
{
    for i in 0..n {
        note_slot(index, res, best, i);
    }
}

// The place of an edge of the same source and a greater precedence than the edge at a place, or 0: no recorded path has one. Of a source
// without a word it is not known, so the place itself is answered.
fn rival(index: &[u32], res: &[u32], best: &[usize], at: usize) -> usize
    requires blocks { Blocks index.now }
    requires at_nonzero { (0 < at) × (at < length res.now) × Inside (length res.now) best.now }
    ensures { (result ≡ 0 → Unrivalled index.now res.now best.now (get_or res.now at 0))
        × ((m : ℕ) → Inside m best.now → at < m → result < m) }
{
    match store::edge(index, EdgeId(res[at])) {
        Edge::Removed => 0,
        Edge::Live {
            source,
            target: _,
            precedence,
        } => {
            let s = source.0 as usize;
            if best.len() <= s {
                return at;
            }
            let place = best[s];
            if exceeds(index, res[place], precedence) {
                place
            } else {
                0
            }
        }
    }
}

// The first rival of the edges in slot i, or 0.
pub(crate) fn first_rival(index: &[u32], res: &[u32], best: &[usize], i: usize) -> usize
    requires blocks { Blocks index.now }
    requires fitting { Fitting slot_length i res.now × Inside (length res.now) best.now }
    ensures { (result ≡ 0 → SlotUnrivalled slot_length index.now res.now best.now i)
        × ((m : ℕ) → Inside m best.now → slot_length * i + slot_length ≤ m → result < m) }
{
    let start = SLOT_WORDS * i + 1;
    let end = start + lists::edge_count(res, i);
    for at in start..end {
        let place = rival(index, res, best, at);
        if 0 < place {
            return place;
        }
    }
    0
}
