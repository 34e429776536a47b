// Where the parts of a case stand, counted from its tag: what the kind asks, and the expected answer.
// - The check of an image: 'I' is a whole image; 'E' is the last whole image with one byte changed, the byte's place in 2 bytes and its new value; 'T' is the
//   beginning of the last whole image, its length in 2 bytes.
// - A replay and a question for completeness: a reference in 4 bytes and an edge list. A question for shadowing: the same twice, the left path first.
// - A search, a replaced file: request.rt. A fresh database: nothing. A lookup: the number of a partial path in 4 bytes.
ghost use Rattle.std.specs.Prelude.{◌+◌, ◌<◌};
ghost use Rattle.case_list.specs.Bounds.{most_place};

use crate::answer::Expected;
use crate::kinds::{KINDS, Kind};
use crate::{answer, edges, lent, list};

pub const CHANGED: u8 = b'E';

pub const CUT: u8 = b'T';

// The byte's place or the length.
pub const PLACE: usize = 1;

pub const VALUE: usize = 3;

// The edge list of the first path; that of the second stands behind a reference.
pub const EDGES: usize = 5;

pub const REFERENCE_BYTES: usize = 4;

// How many bytes a call takes in front of its answer, with its tag.
const FRESH_BYTES: usize = 1;

const REPLACED_BYTES: usize = 32;

const LOOKUP_BYTES: usize = 5;

const SEARCH_BYTES: usize = 45;

fn behind_check(case: &[u8]) -> usize
    ensures { (0 < result) × (result + 1000000 < most_place) }
{
    match list::byte(case, 0) {
        CHANGED => VALUE + 1,
        CUT => PLACE + 2,
        _ => lent::behind_image(case),
    }
}

fn behind_path(case: &[u8]) -> usize
    ensures { (0 < result) × (result + 2000000 < most_place) }
{
    edges::behind(case, EDGES)
}

fn behind_paths(case: &[u8]) -> usize
    ensures { (0 < result) × (result + 1000000 < most_place) }
{
    edges::behind(case, behind_path(case) + REFERENCE_BYTES)
}

// The expected answer of a call. That of a check has a count of 1 byte.
pub fn expected(case: &[u8], kind: usize) -> Expected
    ensures { (0 < result.from) × (result.from + 500000 < most_place) × (result.count < 65536) }
{
    match Kind::from(kind) {
        Kind::Images => answer::read_few(case, behind_check(case)),
        Kind::Replays | Kind::Complete => answer::read(case, behind_path(case)),
        Kind::Shadows => answer::read(case, behind_paths(case)),
        Kind::Fresh => answer::read(case, FRESH_BYTES),
        Kind::Replaced => answer::read(case, REPLACED_BYTES),
        Kind::Lookups => answer::read(case, LOOKUP_BYTES),
        Kind::Direct
        | Kind::DirectRecorded
        | Kind::Linear
        | Kind::LinearRecorded
        | Kind::Stitched
        | Kind::StitchedRecorded => answer::read(case, SEARCH_BYTES),
    }
}

// How many bytes a case takes.
pub fn bytes(case: &[u8], kind: usize) -> usize
    ensures { 0 < result }
{
    if kind == KINDS {
        return lent::behind(case);
    }
    answer::behind(expected(case, kind))
}
