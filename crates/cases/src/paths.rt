// Paths of a reference and an edge list: replayed, asked for completeness, asked for shadowing.
use crate::shown;
use case_list::answer::put;
use case_list::exported::TOLD;
use case_list::kinds::Kind;
use case_list::{edges, exported, list, places, request};
use path::replay;
use pozhdaghi::reading::{pozhdaghi_is_complete, pozhdaghi_shadows};
use semantics::answer::{Replayed, TurnedBack};
use semantics::graph::NodeId;
use told::refusal::Told;

// The longest edge list that is lent.
const MOST_EDGES: usize = 100000;

// 0, and whether the question holds.
const NUMBERS: usize = 2;

// As many numbers as the refusal counts.
fn put_told(out: &mut [u32], told: Told) -> usize {
    let numbers = [told.number, told.first, told.second];
    let mut next = 0;
    for &number in numbers.iter().take(told.count.max(1) as usize) {
        next = put(out, next, number);
    }
    next
}

fn put_replayed(out: &mut [u32], answer: Replayed) -> usize {
    match answer {
        Ok(()) => put(out, 0, 0),
        Err(TurnedBack::Image(r)) => put_told(out, Told::from(r)),
        Err(TurnedBack::Refused(r)) => put_told(out, Told::from(r)),
    }
}

// A replay is answered by the path, if it is not refused. The list has what a caller reads off the path by value, so the call is the library's own.
fn answer_replay(image: &[u8], reference: u32, edges: &[u32], out: &mut [u32]) -> usize {
    let outcome = replay::replay(image, NodeId(reference), edges);
    let answer = outcome.answer;
    let next = put_replayed(out, answer);
    if let Ok(()) = answer {
        return shown::write_path(outcome.path, out, next);
    }
    next
}

fn answer_complete(image: &[u8], reference: u32, edges: &[u32], out: &mut [u32]) -> usize {
    let mut told = [0u64; TOLD];
    pozhdaghi_is_complete(image, reference, edges, &mut told);
    exported::put_answer(out, &told, 0, NUMBERS)
}

// The right path stands behind the edge list of the left one.
fn answer_shadows(
    case: &[u8],
    image: &[u8],
    edges: &[u32],
    others: &mut [u32],
    out: &mut [u32],
) -> usize {
    let mut told = [0u64; TOLD];
    let behind = edges::behind(case, places::EDGES);
    let right = list::long(case, behind);
    let others = edges::read(case, behind + places::REFERENCE_BYTES, others);
    let left = request::number(case);
    pozhdaghi_shadows(image, left, edges, right, others, &mut told);
    exported::put_answer(out, &told, 0, NUMBERS)
}

fn answer_lent(
    case: &[u8],
    kind: Kind,
    image: &[u8],
    edges: &mut [u32],
    others: &mut [u32],
    out: &mut [u32],
) -> usize {
    let edges = edges::read(case, places::EDGES, edges);
    match kind {
        Kind::Replays => answer_replay(image, request::number(case), edges, out),
        Kind::Complete => answer_complete(image, request::number(case), edges, out),
        _ => answer_shadows(case, image, edges, others, out),
    }
}

// Writes what a call on paths answers, and answers how many numbers that are.
pub fn answer(case: &[u8], kind: Kind, image: &[u8], out: &mut [u32]) -> usize {
    let mut edges = [0u32; MOST_EDGES];
    let mut others = [0u32; MOST_EDGES];
    answer_lent(case, kind, image, &mut edges, &mut others, out)
}
