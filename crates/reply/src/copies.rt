// Copies of a list are dropped from the result slots, the first of each is kept.
// Document 01, "Answer": "`from_complete` drops copies", "Copies take slots until the search has ended".
ghost use Rattle.std.specs.Prelude.{◌≡◌, not, [], ◌≤◌};
ghost use Rattle.semantics.specs.Limits.{slot_length};
ghost use Rattle.reply.specs.EdgeLists.{has_list, distinct_lists};
ghost use Rattle.reply.specs.ResultSlots.{Lists, Leaves, edges_at, lists_at, Fitting, AllFitting, Keeps};

use crate::{ascending, closing_up, lists};

// Does one of the first `seen` slots hold the list of slot i?
fn is_copy(res: &[u32], seen: usize, i: usize) -> bool
    requires { AllFitting slot_length seen res.now × Fitting slot_length i res.now }
    ensures { result ≡ has_list (edges_at slot_length i res.now) (lists_at slot_length seen res.now) }
{
    for j in 0..seen {
        if lists::holds_same(res, i, j) {
            return true;
        }
    }
    false
}

// Slot i is moved behind the first `seen`, unless it is a copy of one of them.
fn keep_new(res: &mut [u32], seen: usize, i: usize) -> usize
    requires { AllFitting slot_length seen res.old × Fitting slot_length i res.old × (seen ≤ i) }
    ensures { Keeps slot_length (not (has_list (edges_at slot_length i res.old) (lists_at slot_length seen res.old))) i seen
        res.old result res.new }
{
    if is_copy(res, seen, i) {
        return seen;
    }
    closing_up::move_down(res, i, seen);
    seen + 1
}

// Each list is compared with those before it.
fn drop_compared(res: &mut [u32], kept: usize) -> usize
    requires { Lists slot_length kept res.old }
    ensures { Leaves slot_length kept (distinct_lists []) res.old result res.new }
{
    let mut seen: usize = 0;
    for i in 0..kept {
        seen = keep_new(res, seen, i);
    }
    closing_up::clear(res, seen, kept);
    seen
}

// The lists in the first `kept` slots lose their copies and are closed up; answers how many are left. Lists that ascend have none.
pub(crate) fn drop_copies(res: &mut [u32], kept: usize) -> usize
    requires { Lists slot_length kept res.old }
    ensures { Leaves slot_length kept (distinct_lists []) res.old result res.new }
{
    if ascending::is_ascending(res, kept) {
        return kept;
    }
    drop_compared(res, kept)
}
