// What the calls of a list are lent, copied out of it. 'I' is an image: its length in 4 bytes, then its bytes. 'W' are the words of a database: how many
// there are and the word that all are filled with, 4 bytes each, then those that differ from it. The calls behind them, up to the next of their sort,
// are lent these, the words each as the last call left them.
ghost use Rattle.std.specs.Prelude.{◌+◌, ◌<◌, ◌≤◌, length};
ghost use Rattle.case_list.specs.Bounds.{most_place};

use crate::{answer, areas, list};

const IMAGE: u8 = b'I';

const WORDS: u8 = b'W';

// Where each of these stands, counted from the tag.
const COUNT: usize = 1;

const BYTES: usize = 5;

const FILL: usize = 5;

const DIFFERENT: usize = 9;

// Room for the longest image.
pub const MOST_IMAGE: usize = 65537;

// Room for a database of 4,098 slots, two more than it may use.
pub const MOST_WORDS: usize = 536841;

// How many bytes and words are lent.
#[derive(Clone, Copy)]
pub struct Lent {
    pub bytes: usize,
    pub words: usize,
}

// As many bytes as there is room for.
fn copy(case: &[u8], image: &mut [u8])
    requires { length image.old < most_place }
{
    for (i, byte) in image.iter_mut().enumerate() {
        *byte = list::byte(case, BYTES + i);
    }
}

fn write(case: &[u8], words: &mut [u32]) {
    words.fill(list::long(case, FILL));
    areas::write(case, DIFFERENT, words);
}

// As many as are said, if there is room for them.
fn count(case: &[u8], room: usize) -> usize
    ensures { (result ≤ room) × (result < most_place) }
{
    room.min(list::long(case, COUNT) as usize)
}

// What is lent from a case on: if it is an image or words, these are copied, and what was lent before is lent further.
pub fn read(case: &[u8], last: Lent, image: &mut [u8], words: &mut [u32]) -> Lent
    requires { (last.bytes ≤ length image.old) × (last.words ≤ length words.old) }
    ensures { (result.bytes ≤ length image.old) × (result.words ≤ length words.old) }
{
    match list::byte(case, 0) {
        IMAGE => {
            let bytes = count(case, image.len());
            copy(case, &mut image[..bytes]);
            Lent { bytes, ..last }
        }
        WORDS => {
            let lent = count(case, words.len());
            write(case, &mut words[..lent]);
            Lent {
                words: lent,
                ..last
            }
        }
        _ => last,
    }
}

// The place behind an image.
pub fn behind_image(case: &[u8]) -> usize
    ensures { (0 < result) × (result + 1000000 < most_place) }
{
    BYTES + list::long(case, COUNT) as usize
}

// The place behind an image or words.
pub fn behind(case: &[u8]) -> usize
    ensures { 0 < result }
{
    if list::byte(case, 0) == WORDS {
        return answer::behind(answer::read(case, DIFFERENT));
    }
    behind_image(case)
}
