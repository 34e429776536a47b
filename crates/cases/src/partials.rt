// Calls on a database: made afresh, with a file replaced, looked up. Every word that a call alters is compared: the words are kept before it.
use case_list::exported::TOLD;
use case_list::kinds::Kind;
use case_list::lent::MOST_WORDS;
use case_list::request::{ASKED, MOST_AREA};
use case_list::{areas, exported, list, request};
use database::lookup::lookup;
use pozhdaghi::filing::{pozhdaghi_fresh, pozhdaghi_replace_file};
use semantics::graph::PartialPathId;

// 0, three counts of 64 bits, two flags, and how many routes ever waited together.
const WIDE: usize = 3;

const NUMBERS: usize = 7;

// A fresh database and what it alters.
fn answer_fresh(image: &[u8], words: &mut [u32], before: &[u32], out: &mut [u32]) -> usize {
    let mut told = [0u64; TOLD];
    pozhdaghi_fresh(image, words, &mut told);
    let behind = exported::put_answer(out, &told, 0, 1);
    areas::put_changes(out, behind, before, words)
}

fn replace(
    case: &[u8],
    image: &[u8],
    words: &mut [u32],
    work: &mut [u32],
    out: &mut [u32],
) -> usize {
    let mut asked = [0u64; ASKED];
    let mut told = [0u64; TOLD];
    request::put_file_asked(case, &mut asked);
    pozhdaghi_replace_file(image, request::number(case), &asked, work, words, &mut told);
    exported::put_answer(out, &told, WIDE, NUMBERS)
}

// A replaced file, what it alters, and what it leaves in the work area.
fn answer_replaced(
    case: &[u8],
    image: &[u8],
    words: &mut [u32],
    work: &mut [u32],
    before: &[u32],
    out: &mut [u32],
) -> usize {
    work.fill(list::long(case, request::FILE_FILL));
    let behind = replace(case, image, words, work, out);
    let next = areas::put_changes(out, behind, before, words);
    areas::put_area(out, next, work)
}

// The work area has just the words that the list names.
fn answer_lent(
    case: &[u8],
    kind: Kind,
    image: &[u8],
    words: &mut [u32],
    work: &mut [u32],
    before: &mut [u32],
    out: &mut [u32],
) -> usize {
    areas::copy(words, before);
    if kind == Kind::Fresh {
        return answer_fresh(image, words, before, out);
    }
    let w = request::area(case, request::FILE_WORK, work);
    answer_replaced(case, image, words, &mut work[..w], before, out)
}

// Writes what a call that may alter a database answers and alters, and answers how many numbers that are.
pub fn answer(case: &[u8], kind: Kind, image: &[u8], words: &mut [u32], out: &mut [u32]) -> usize {
    let mut work = [0u32; MOST_AREA];
    let mut before = [0u32; MOST_WORDS];
    answer_lent(case, kind, image, words, &mut work, &mut before, out)
}

// The edges of a partial path, which are lent and alter nothing. The list has the edges, so the call is the library's own, which lends them.
pub fn answer_lookup(case: &[u8], words: &[u32], out: &mut [u32]) -> usize {
    let number = PartialPathId(request::number(case));
    areas::put_words(out, 0, lookup(words, number))
}
