// Paths that another recorded one shadows are dropped from the result slots.
// Document 01, "Answer": "`from_complete` drops copies, then every path shadowed by another recorded one".
// A shadowed path still shadows others, so all lists stay until all are judged: first every slot is marked that is to go, then the others are closed up.
ghost use Rattle.std.specs.Prelude.{◌≡◌, Bool, List, [], ℕ, ◌*◌, ◌≤◌, ◌<◌, ltb, length, get_or};
ghost use Rattle.semantics.specs.Limits.{slot_length};
ghost use Rattle.semantics.specs.Words.{area};
ghost use Rattle.words.specs.Slots.{InArea};
ghost use Rattle.storage.specs.Index.{Blocks, edge_row, HoldsGraph};
ghost use Rattle.path.specs.Shadows.{shadows_edges};
ghost use Rattle.reply.specs.EdgeLists.{beaten_list, beaten_at, without, unbeaten_lists};
ghost use Rattle.reply.specs.ResultSlots.{Lists, Leaves, edges_at, lists_at, Fitting, AllFitting, mark_if, Marked, Marks, MarkedLists, Keeps};
ghost use Rattle.reply.specs.Rivals.{Best};

use crate::{closing_up, lists, rivals};
use path::shadows;
use semantics::bounds::SLOT_WORDS;
use storage::blocks;

// From so many paths on it is worth asking first whether a path can be shadowed at all.
const MANY: usize = 32;
// A word for each node that a graph may have.
const NODES: usize = blocks::NODES as usize;

// Does the path in slot i shadow the path in slot j?
fn shadows_slot(index: &[u32], res: &[u32], i: usize, j: usize) -> bool
    requires blocks { Blocks index.now }
    requires fitting { Fitting slot_length i res.now × Fitting slot_length j res.now }
    ensures { result ≡ shadows_edges (edge_row index.now) (edges_at slot_length i res.now) (edges_at slot_length j res.now) }
{
    let left = SLOT_WORDS * i + 1;
    let right = SLOT_WORDS * j + 1;
    let m = lists::edge_count(res, i);
    let n = lists::edge_count(res, j);
    shadows::shadows(index, &res[left..left + m], &res[right..right + n])
}

// Does one of the n paths shadow the path in slot i? No path shadows itself.
fn is_shadowed(index: &[u32], res: &[u32], n: usize, i: usize) -> bool
    requires blocks { Blocks index.now }
    requires all_fitting { AllFitting slot_length n res.now × Fitting slot_length i res.now }
    ensures { result ≡ beaten_list (shadows_edges (edge_row index.now)) (edges_at slot_length i res.now) (lists_at slot_length n res.now) }
{
    for j in 0..n {
        if shadows_slot(index, res, j, i) {
            return true;
        }
    }
    false
}

// The same. Of many paths most are let off by their own edges alone, or are shadowed by the first rival that these tell of.
fn is_beaten(index: &[u32], res: &[u32], best: &[usize], n: usize, i: usize) -> bool
    requires blocks { Blocks index.now }
    requires all_fitting { AllFitting slot_length n res.now × (i < n) }
    requires best { Best slot_length index.now res.now (slot_length * n) best.now }
    ensures { result ≡ beaten_list (shadows_edges (edge_row index.now)) (edges_at slot_length i res.now) (lists_at slot_length n res.now) }
{
    let place = rivals::first_rival(index, res, best, i);
    if place < 1 {
        return false;
    }
    if shadows_slot(index, res, place / SLOT_WORDS, i) {
        return true;
    }
    is_shadowed(index, res, n, i)
}

// Slot i is marked if the test holds.
fn mark_if(res: &mut [u32], i: usize, test: bool)
    requires { InArea slot_length i res.old × (get_or res.old (slot_length * i) 0 < slot_length) }
    ensures { res.new ≡ mark_if slot_length i test res.old }
{
    if test {
        let at = SLOT_WORDS * i;
        res[at] += lists::MARK;
    }
}

// Each of the n slots that another one shadows is marked. Each path is compared with all others.
fn mark_few(index: &[u32], res: &mut [u32], n: usize)
    requires holds_graph { HoldsGraph index.now }
    requires lists { Lists slot_length n res.old }
    ensures { Marks slot_length n (beaten_at (shadows_edges (edge_row index.now))) res.old res.new }
{
    for i in 0..n {
        let shadowed = is_shadowed(index, res, n, i);
        mark_if(res, i, shadowed);
    }
}

// The same. The edges of all paths are looked at before any path is judged.
// Kept: one loop for both with the test as a closure is no plainer: it needs a clause on each area that the test may be asked of, as marks change it from slot to slot.
fn mark_many(index: &[u32], res: &mut [u32], best: &mut [usize], n: usize)
    requires holds_graph { HoldsGraph index.now }
    requires lists { Lists slot_length n res.old }
    requires best { Best slot_length index.now res.old 0 best.old }
    ensures { Marks slot_length n (beaten_at (shadows_edges (edge_row index.now))) res.old res.new }
{
    rivals::note_all(index, res, best, n);
    for i in 0..n {
        let shadowed = is_beaten(index, res, best, n, i);
        mark_if(res, i, shadowed);
    }
}

// The same. The words of the nodes are zeroed only where there are many paths: else that would take longer than comparing them.
fn mark_shadowed(index: &[u32], res: &mut [u32], n: usize)
    requires holds_graph { HoldsGraph index.now }
    requires lists { Lists slot_length n res.old }
    ensures { Marks slot_length n (beaten_at (shadows_edges (edge_row index.now))) res.old res.new }
{
    if n < MANY {
        mark_few(index, res, n);
        return;
    }
    let mut best = [0usize; NODES];
    mark_many(index, res, &mut best, n);
}

// Slot i becomes slot `to`, unless it is marked.
fn keep_unmarked(res: &mut [u32], to: usize, i: usize) -> usize
    requires { InArea slot_length i res.old × (to ≤ i) }
    ensures { Keeps slot_length (ltb (get_or res.old (slot_length * i) 0) slot_length) i to res.old result res.new }
{
    if res[SLOT_WORDS * i] < lists::MARK {
        closing_up::move_down(res, i, to);
        return to + 1;
    }
    to
}

// The slots without a mark are closed up; answers how many they are.
fn close_up(res: &mut [u32], n: usize) -> usize
    requires { MarkedLists slot_length n res.old }
    ensures { (length res.new ≡ length res.old)
        × ((drops : List ℕ → Bool) (ls : List (List ℕ)) → length ls ≡ n → Marked slot_length (λ (j : ℕ). drops (get_or ls j [])) ls res.old
        → (res.new ≡ area slot_length (length res.old) (without drops ls)) × (result ≡ length (without drops ls))) }
{
    let mut to: usize = 0;
    for i in 0..n {
        to = keep_unmarked(res, to, i);
    }
    closing_up::clear(res, to, n);
    to
}

// The lists in the first `recorded` slots lose those that another one shadows and are closed up; answers how many are left.
pub(crate) fn drop_shadowed(index: &[u32], res: &mut [u32], recorded: usize) -> usize
    requires holds_graph { HoldsGraph index.now }
    requires lists { Lists slot_length recorded res.old }
    ensures { Leaves slot_length recorded (λ ls. unbeaten_lists (shadows_edges (edge_row index.now)) ls ls) res.old result res.new }
{
    mark_shadowed(index, res, recorded);
    close_up(res, recorded)
}
