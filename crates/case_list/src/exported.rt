// What an exported call has told, as the list has it.
ghost use Rattle.std.specs.Prelude.{◌≤◌};

use crate::answer::{put, put_wide};

// The numbers of the longest answer.
pub const TOLD: usize = 10;

// A number of 32 bits. A longer one is put as two words: the answer then differs from the expected one by its count.
fn put_number(out: &mut [u32], at: usize, number: u64) -> usize {
    match u32::try_from(number) {
        Ok(word) => put(out, at, word),
        Err(_) => put_wide(out, at, number),
    }
}

// How many values are told with a refusal: a record's place, a node, an edge or a file; two nodes with 13.
// Kept: a number for a refusal, as the C interface has it: what is compared here are the numbers that an exported call writes.
fn values(refusal: u64) -> usize
    ensures { result ≤ 2 }
{
    match refusal {
        4 | 5 | 10 | 11 | 12 | 14 | 15 | 16 | 17 | 18 | 19 | 20 | 21 => 1,
        13 => 2,
        _ => 0,
    }
}

// A number of 64 bits if it is wide. Behind the numbers that are told there are zeros; any other number is put too, by which the answer differs likewise.
fn put_one(out: &mut [u32], at: usize, number: u64, wide: bool, told: bool) -> usize {
    if wide {
        put_wide(out, at, number)
    } else if told || number != 0 {
        put_number(out, at, number)
    } else {
        at
    }
}

// The numbers behind the first, of which as many as are said to be wide have 64 bits. With the first, the answer has as many as are counted.
fn put_numbers(out: &mut [u32], at: usize, told: &[u64], wide: usize, count: usize) -> usize {
    let mut next = at;
    for (i, &number) in told.iter().enumerate().skip(1) {
        next = put_one(out, next, number, i <= wide, i < count);
    }
    next
}

// 0 and the numbers behind it; or the refusal and its values. It answers how many words that are.
pub fn put_answer(out: &mut [u32], told: &[u64], wide: usize, count: usize) -> usize {
    let refusal = told.first().copied().unwrap_or(0);
    let first = put_number(out, 0, refusal);
    if refusal == 0 {
        put_numbers(out, first, told, wide, count)
    } else {
        put_numbers(out, first, told, 0, 1 + values(refusal))
    }
}
