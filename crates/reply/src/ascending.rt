// Do the result slots ascend? Then no two of them hold the same list, and none need be compared with all others.
// Only a yes is relied on: after a no the copies are looked for.
ghost use Rattle.std.specs.Prelude.{◌≡◌, true, length, ◌+◌};
ghost use Rattle.semantics.specs.Limits.{slot_length};
ghost use Rattle.words.specs.Slots.{SlotsIn, slot_at};
ghost use Rattle.reply.specs.Ascending.{Ahead, Ascending};

use semantics::bounds::SLOT_WORDS;

// Is the first word in which the two slots differ less in the left one?
fn is_ahead(left: &[u32], right: &[u32]) -> bool
    requires { length left.now ≡ length right.now }
    ensures { result ≡ true → Ahead left.now right.now }
{
    for (x, y) in left.iter().zip(right) {
        if *x < *y {
            return true;
        }
        if *y < *x {
            return false;
        }
    }
    false
}

// Does slot i come before the next one?
fn comes_before_next(res: &[u32], i: usize) -> bool
    requires { SlotsIn slot_length (i + 2) res.now }
    ensures { result ≡ true → Ahead (slot_at slot_length i res.now) (slot_at slot_length (i + 1) res.now) }
{
    let left = SLOT_WORDS * i;
    let right = left + SLOT_WORDS;
    is_ahead(&res[left..right], &res[right..right + SLOT_WORDS])
}

// Does each of the first `kept` slots come before the next one?
pub(crate) fn is_ascending(res: &[u32], kept: usize) -> bool
    requires { SlotsIn slot_length kept res.now }
    ensures { result ≡ true → Ascending slot_length kept res.now }
{
    for i in 1..kept {
        if !comes_before_next(res, i - 1) {
            return false;
        }
    }
    true
}
