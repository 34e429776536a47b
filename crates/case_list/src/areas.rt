// Lent words: written before a call, and told word by word after it.
ghost use Rattle.std.specs.Prelude.{◌+◌, ◌<◌, ◌≤◌, length};
ghost use Rattle.case_list.specs.Bounds.{most_place};

use crate::answer::{put, word};
use crate::list;

// The words that a case gives at a place: a count in 2 bytes and as many numbers of 4 bytes, by twos a place of the area and its word.
pub fn write(case: &[u8], at: usize, area: &mut [u32])
    requires { at + 1000000 < most_place }
{
    let count = list::short(case, at) as usize;
    for i in (0..count).step_by(2) {
        let place = list::long(case, at + 2 + 4 * i) as usize;
        put(area, place, list::long(case, at + 6 + 4 * i));
    }
}

// Each word at its place in the other area, as far as that has places.
pub fn copy(area: &[u32], to: &mut [u32]) {
    let n = area.len().min(to.len());
    to[..n].copy_from_slice(&area[..n]);
}

// A place or a length as a word; no area here has more words than one can count.
fn narrow(number: usize) -> u32 {
    u32::try_from(number).unwrap_or(u32::MAX)
}

// Each word that is not 0, as its place and itself, then the length of the area.
pub fn put_area(out: &mut [u32], at: usize, area: &[u32]) -> usize {
    let mut next = at;
    for (place, &word) in area.iter().enumerate() {
        if word != 0 {
            next = put(out, next, narrow(place));
            next = put(out, next, word);
        }
    }
    put(out, next, narrow(area.len()))
}

// The length, then every word.
pub fn put_words(out: &mut [u32], at: usize, area: &[u32]) -> usize {
    let mut next = put(out, at, narrow(area.len()));
    for &word in area {
        next = put(out, next, word);
    }
    next
}

// Is the word at a place another one than before?
fn altered(before: &[u32], after: &[u32], at: usize) -> bool {
    word(before, at) != word(after, at)
}

// Do two places belong to one run: both as they were, or both altered to the same word?
fn alike(before: &[u32], after: &[u32], at: usize, other: usize) -> bool {
    let first = altered(before, after, at);
    first == altered(before, after, other) && (!first || word(after, at) == word(after, other))
}

// Where the run ends that begins at a place.
fn run_end(before: &[u32], after: &[u32], from: usize) -> usize
    requires { from < length after.now }
    ensures { (from < result) × (result ≤ length after.now) }
{
    for to in from + 1..after.len() {
        if !alike(before, after, from, to) {
            return to;
        }
    }
    after.len()
}

// An altered run is its place, how many words it has, and the word.
fn put_run(
    out: &mut [u32],
    at: usize,
    before: &[u32],
    after: &[u32],
    from: usize,
    to: usize,
) -> usize
    requires { from < to }
{
    if altered(before, after, from) {
        let count = put(out, at, narrow(from));
        let last = put(out, count, narrow(to - from));
        return put(out, last, word(after, from));
    }
    at
}

// Each altered run, then the length of the area: every word is told, a word that is in no run being the one of before.
pub fn put_changes(out: &mut [u32], at: usize, before: &[u32], after: &[u32]) -> usize {
    let mut next = at;
    let mut from: usize = 0;
    while from < after.len() {
        let to = run_end(before, after, from);
        next = put_run(out, next, before, after, from, to);
        from = to;
    }
    put(out, next, narrow(after.len()))
}
