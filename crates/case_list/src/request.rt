// What a search or a replaced file is asked. Behind the tag there follow
// - of a search: the reference, the order, the limits on length, path count and complete paths, the word that the areas are filled with, the lengths
//   of the work and the result area;
// - of a replaced file: the file, the order, the limits on length and path count, the word that the work area is filled with, its length.
ghost use Rattle.std.specs.Prelude.{◌+◌, ◌<◌, ◌≤◌, length};
ghost use Rattle.case_list.specs.Bounds.{most_place};

use crate::list;

// Where each of these stands, counted from the tag. A limit has 9 bytes.
const NUMBER: usize = 1;

const ORDER: usize = 5;

const MAX_LENGTH: usize = 6;

const MAX_PATHS: usize = 15;

const MAX_COMPLETE: usize = 24;

pub const SEARCH_FILL: usize = 33;

pub const SEARCH_WORK: usize = 37;

pub const SEARCH_RESULT: usize = 41;

pub const FILE_FILL: usize = 24;

pub const FILE_WORK: usize = 28;

// Room for the longest work or result area: 132 slots.
pub const MOST_AREA: usize = 16896;

// How many numbers an exported call is asked, and where the limits stand among them: whether there is one, and behind that its value.
pub const ASKED: usize = 7;

const LENGTH_ASKED: usize = 1;

const PATHS_ASKED: usize = 3;

const COMPLETE_ASKED: usize = 5;

const DEPTH_FIRST: u8 = b'd';

// The number that comes first: of a reference, a file or a partial path.
pub fn number(case: &[u8]) -> u32 {
    list::long(case, NUMBER)
}

// How many words of an area are lent: as many as the case says, if there are so many.
pub fn area(case: &[u8], at: usize, words: &[u32]) -> usize
    requires { at + 2 < most_place }
    ensures { result ≤ length words.now }
{
    words.len().min(list::long(case, at) as usize)
}

fn put(asked: &mut [u64], at: usize, number: u64) {
    if let Some(place) = asked.get_mut(at) {
        *place = number;
    }
}

// 1 if a byte is the given one, else 0.
fn flag(case: &[u8], at: usize, byte: u8) -> u64
    ensures { result ≤ 1 }
{
    u64::from(list::byte(case, at) == byte)
}

// A limit has 0 for none, or 1 and then the number in 8 bytes.
fn put_limit(case: &[u8], at: usize, asked: &mut [u64], place: usize)
    requires { (at + 7 < most_place) × (place < 7) }
{
    put(asked, place, flag(case, at, 1));
    put(asked, place + 1, list::longest(case, at + 1));
}

// The order, 1 for depth-first, and the limits that a file is replaced by.
pub fn put_file_asked(case: &[u8], asked: &mut [u64]) {
    put(asked, 0, flag(case, ORDER, DEPTH_FIRST));
    put_limit(case, MAX_LENGTH, asked, LENGTH_ASKED);
    put_limit(case, MAX_PATHS, asked, PATHS_ASKED);
}

// A search has one limit more.
pub fn put_search_asked(case: &[u8], asked: &mut [u64]) {
    put_file_asked(case, asked);
    put_limit(case, MAX_COMPLETE, asked, COMPLETE_ASKED);
}
