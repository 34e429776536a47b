// Direct, linear and stitched searches. What they leave in both areas is compared word by word.
use case_list::exported::TOLD;
use case_list::kinds::Kind;
use case_list::request::{ASKED, MOST_AREA};
use case_list::{areas, exported, list, request};
use pozhdaghi::searching::{
    pozhdaghi_direct, pozhdaghi_direct_recorded, pozhdaghi_linear, pozhdaghi_linear_recorded,
    pozhdaghi_stitched, pozhdaghi_stitched_recorded,
};

// 0, the number of paths and four counts of 64 bits, three flags, and how many paths ever waited together.
const WIDE: usize = 5;

const NUMBERS: usize = 10;

// An image has at most so many files, and each is visible here.
const MOST_FILES: usize = 256;

const VISIBLE: u8 = 1;

fn is_linear(kind: Kind) -> bool {
    matches!(kind, Kind::Linear | Kind::LinearRecorded)
}

fn search(
    kind: Kind,
    image: &[u8],
    visible: &[u8],
    words: &[u32],
    node: u32,
    asked: &[u64],
    work: &mut [u32],
    res: &mut [u32],
    told: &mut [u64],
) {
    match kind {
        Kind::Direct => pozhdaghi_direct(image, visible, node, asked, work, res, told),
        Kind::DirectRecorded => {
            pozhdaghi_direct_recorded(image, visible, node, asked, work, res, told)
        }
        Kind::Linear => pozhdaghi_linear(image, visible, node, asked, res, told),
        Kind::LinearRecorded => pozhdaghi_linear_recorded(image, visible, node, asked, res, told),
        Kind::Stitched => {
            pozhdaghi_stitched(image, visible, words, node, asked, work, res, told)
        }
        _ => pozhdaghi_stitched_recorded(image, visible, words, node, asked, work, res, told),
    }
}

// What a search tells, with both areas filled by the word that the case says.
fn told(
    case: &[u8],
    kind: Kind,
    image: &[u8],
    words: &[u32],
    work: &mut [u32],
    res: &mut [u32],
) -> [u64; TOLD] {
    let visible = [VISIBLE; MOST_FILES];
    let node = request::number(case);
    let fill = list::long(case, request::SEARCH_FILL);
    let mut asked = [0u64; ASKED];
    let mut told = [0u64; TOLD];
    request::put_search_asked(case, &mut asked);
    work.fill(fill);
    res.fill(fill);
    search(
        kind, image, &visible, words, node, &asked, work, res, &mut told,
    );
    told
}

// The result area, and the work area of a search that takes one.
fn put_areas(out: &mut [u32], at: usize, kind: Kind, work: &[u32], res: &[u32]) -> usize {
    let behind = areas::put_area(out, at, res);
    if is_linear(kind) {
        return behind;
    }
    areas::put_area(out, behind, work)
}

// The areas have just the words that the list names.
fn answer_lent(
    case: &[u8],
    kind: Kind,
    image: &[u8],
    words: &[u32],
    work: &mut [u32],
    res: &mut [u32],
    out: &mut [u32],
) -> usize {
    let w = request::area(case, request::SEARCH_WORK, work);
    let r = request::area(case, request::SEARCH_RESULT, res);
    let told = told(case, kind, image, words, &mut work[..w], &mut res[..r]);
    let behind = exported::put_answer(out, &told, WIDE, NUMBERS);
    put_areas(out, behind, kind, &work[..w], &res[..r])
}

// Writes what a search answers and leaves in its areas, and answers how many numbers that are.
pub fn answer(case: &[u8], kind: Kind, image: &[u8], words: &[u32], out: &mut [u32]) -> usize {
    let mut work = [0u32; MOST_AREA];
    let mut result = [0u32; MOST_AREA];
    answer_lent(case, kind, image, words, &mut work, &mut result, out)
}
