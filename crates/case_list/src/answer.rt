// An answer as numbers in lent words, and as it is expected in the list: a count, in 1 or 2 bytes, and as many numbers of 4 bytes.
// It begins with document 01's number, 0 where nothing is refused, and the values that belong to it.
ghost use Rattle.std.specs.Prelude.{◌≡◌, ◌+◌, ◌*◌, ◌<◌, slice_index};
ghost use Rattle.case_list.specs.Bounds.{most_place};

use crate::list;

// The place of the first number, and how many there are.
#[derive(Clone, Copy)]
pub struct Expected {
    pub from: usize,
    pub count: usize,
}

// The answer at a place with a count of 2 bytes.
pub fn read(case: &[u8], at: usize) -> Expected
    requires { at + 500002 < most_place }
    ensures { (result.from ≡ at + 2) × (result.count < 65536) }
{
    Expected {
        from: at + 2,
        count: list::short(case, at) as usize,
    }
}

// And with one of 1 byte.
// Kept: two functions, as one would take the width of the count and the function that reads it.
pub fn read_few(case: &[u8], at: usize) -> Expected
    requires { at + 500001 < most_place }
    ensures { (result.from ≡ at + 1) × (result.count < 65536) }
{
    Expected {
        from: at + 1,
        count: list::tiny(case, at) as usize,
    }
}

// The place behind it.
pub fn behind(expected: Expected) -> usize
    requires { (expected.from + 500000 < most_place) × (expected.count < 65536) }
    ensures { result ≡ expected.from + 4 * expected.count }
{
    expected.from + 4 * expected.count
}

// The word at a place; 0 behind the words.
pub fn word(words: &[u32], at: usize) -> u32
    ensures { result ≡ slice_index words.now at }
{
    words.get(at).copied().unwrap_or(0)
}

// Writes a word and answers the place behind it. Where there is no room nothing is written; an answer that long would differ from the expected one by its count.
pub fn put(words: &mut [u32], at: usize, value: u32) -> usize {
    match words.get_mut(at) {
        Some(word) => {
            *word = value;
            at + 1
        }
        None => at,
    }
}

// A number of 64 bits is two words, the high one first.
pub fn put_wide(words: &mut [u32], at: usize, value: u64) -> usize {
    let high = put(words, at, (value / 4_294_967_296) as u32);
    put(words, high, (value % 4_294_967_296) as u32)
}

// Are the expected numbers those that were written?
pub fn same(case: &[u8], expected: Expected, given: &[u32], count: usize) -> bool
    requires { (expected.from + 500000 < most_place) × (expected.count < 65536) }
{
    let numbers = expected.count;
    if numbers != count {
        return false;
    }
    for i in 0..numbers {
        if list::long(case, expected.from + 4 * i) != word(given, i) {
            return false;
        }
    }
    true
}
