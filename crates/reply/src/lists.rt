// The edge lists that result slots hold. A slot is marked by SLOT_WORDS more in its count word; reading a count takes the mark off.
// Document 01, "Answer": a slot has "edge count, edges, zeros".
ghost use Rattle.std.specs.Prelude.{◌≡◌, true, false, ◌*◌, length, get_or};
ghost use Rattle.semantics.specs.Limits.{slot_length};
ghost use Rattle.semantics.specs.Lists.{same};
ghost use Rattle.words.specs.Slots.{InArea};
ghost use Rattle.reply.specs.ResultSlots.{count_of, edges_at, Fitting};

use semantics::bounds::SLOT_WORDS;

// What a mark adds to a count, which is less.
pub const MARK: u32 = SLOT_WORDS as u32;

// The count in a count word, marked or not.
fn unmarked(word: u32) -> u32
    ensures { result ≡ count_of slot_length word }
{
    if word < MARK { word } else { word - MARK }
}

// How many edges slot i holds.
pub fn edge_count(res: &[u32], i: usize) -> usize
    requires { InArea slot_length i res.now }
    ensures { result ≡ count_of slot_length (get_or res.now (slot_length * i) 0) }
{
    unmarked(res[SLOT_WORDS * i]) as usize
}

// Do their first numbers tell two lists of one length apart?
fn starts_apart(left: &[u32], right: &[u32]) -> bool
    requires { length left.now ≡ length right.now }
    ensures { result ≡ true → same left.now right.now ≡ false }
{
    0 < left.len() && left[0] != right[0]
}

// Are the lists equal? Paths from one reference differ at their ends most often, so the lists are compared from there. Many ways into one
// scope end alike, and differ in the first edge: it is looked at before.
fn is_same(left: &[u32], right: &[u32]) -> bool
    ensures { result ≡ same left.now right.now }
{
    if left.len() != right.len() {
        return false;
    }
    if starts_apart(left, right) {
        return false;
    }
    for (x, y) in left.iter().rev().zip(right.iter().rev()) {
        if *x != *y {
            return false;
        }
    }
    true
}

// Do slots i and j hold the same list?
pub(crate) fn holds_same(res: &[u32], i: usize, j: usize) -> bool
    requires { Fitting slot_length i res.now × Fitting slot_length j res.now }
    ensures { result ≡ same (edges_at slot_length i res.now) (edges_at slot_length j res.now) }
{
    let left = SLOT_WORDS * i + 1;
    let right = SLOT_WORDS * j + 1;
    let m = edge_count(res, i);
    let n = edge_count(res, j);
    is_same(&res[left..left + m], &res[right..right + n])
}
