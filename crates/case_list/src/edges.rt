// The edge list of a path: 'L', a count in 2 bytes and as many numbers of 4 bytes; or 'R', a count in 4 bytes and one number, which is repeated.
ghost use Rattle.std.specs.Prelude.{◌+◌, ◌<◌, ◌≤◌, length};
ghost use Rattle.case_list.specs.Bounds.{most_place};

use crate::list;

const REPEATED: u8 = b'R';

// As many numbers as there is room for.
fn copy(case: &[u8], at: usize, edges: &mut [u32])
    requires { (at + 280000 < most_place) × (length edges.old < 65536) }
{
    for (i, edge) in edges.iter_mut().enumerate() {
        *edge = list::long(case, at + 4 * i);
    }
}

// The edge list at a place, in the lent words.
// No edge list here is longer than the words are; of such a one, only the beginning would be read.
pub fn read<'a>(case: &[u8], at: usize, words: &'a mut [u32]) -> &'a [u32]
    requires { at + 300000 < most_place }
    ensures { length result.now ≤ length words.old }
{
    if list::byte(case, at) == REPEATED {
        let n = words.len().min(list::long(case, at + 1) as usize);
        words[..n].fill(list::long(case, at + 5));
        return &words[..n];
    }
    let n = words.len().min(list::short(case, at + 1) as usize);
    copy(case, at + 3, &mut words[..n]);
    &words[..n]
}

// The place behind the edge list at a place.
pub fn behind(case: &[u8], at: usize) -> usize
    requires { at + 3 < most_place }
    ensures { (at < result) × (result < at + 300000) }
{
    if list::byte(case, at) == REPEATED {
        return at + 9;
    }
    at + 3 + 4 * list::short(case, at + 1) as usize
}
