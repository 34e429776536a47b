// Dead slots are dropped, live ones move down in their order, and a list says each one's old and new number.
// Document 02, order 7; 35 and 32 in that order. A refused call alters no word of the database and leaves the list zero.
ghost use Rattle.std.specs.Prelude.{◌≡◌, ◌++◌, ◌+◌, ◌*◌, ◌≤◌, ◌<◌, ◌^◌, length, drop};
ghost use Rattle.semantics.specs.Limits.{base};
ghost use Rattle.semantics.specs.Lists.{pick};
ghost use Rattle.semantics.specs.Told.{told_compaction};
ghost use Rattle.semantics.specs.Entries.{compact_database};
ghost use Rattle.semantics.specs.Database.{used_in, records};
ghost use Rattle.semantics.specs.Database.Compaction.{is_live, live_of, live_count, renumbered};
ghost use Rattle.database.specs.Records.{InWords, Whole, record_at, put_record, owner_word};
ghost use Rattle.database.specs.Filing.{with_records};
ghost use Rattle.compaction.specs.Moves.{Keeps, noted, freed};

use database::{check, layout};
use semantics::answer::{Compaction, CompactionRefusal};
use semantics::bounds::{MAX_EDGES, RECORD_WORDS};
use words::slots;

// A live slot's old and new number in the list.
const PAIR_WORDS: usize = 2;

// One more, if record i is live.
fn one_more(words: &[u32], i: usize, n: usize) -> usize
    requires { InWords base i words.now × (n ≤ i) }
    ensures { result ≡ pick (is_live (record_at base i words.now)) (n + 1) n }
{
    let owner = layout::owner(words, MAX_EDGES, i);
    if 0 < owner {
        return n + 1;
    }
    n
}

// How many of the used slots are live.
fn count_live(words: &[u32]) -> usize
    requires { Whole base words.now }
    ensures { (result ≡ live_count base words.now) × (result ≤ used_in words.now) × (result < 2 ^ 32) }
{
    let used = layout::number(words, layout::USED_AT);
    let mut n: usize = 0;
    for i in 0..used {
        n = one_more(words, i, n);
    }
    n
}

// Record `to` becomes what record i holds, every word of it. A record that stands right is not copied.
fn move_record(words: &mut [u32], i: usize, to: usize)
    requires { InWords base i words.old × (to ≤ i) }
    ensures { words.new ≡ put_record base to (record_at base i words.old) words.old }
{
    if to < i {
        let end = words.len();
        slots::copy_slot(&mut words[layout::FIRST_RECORD..end], RECORD_WORDS, i, to);
    }
}

// The old and the new number stand in the list behind those of the slots before.
fn note(list: &mut [u32], i: usize, to: usize)
    requires { (2 * to + 2 ≤ length list.old) × (i < 2 ^ 32) × (to ≤ i) }
    ensures { list.new ≡ noted i to list.old }
{
    list[PAIR_WORDS * to] = i as u32;
    list[PAIR_WORDS * to + 1] = to as u32;
}

// Record i goes to place `to`, with its numbers, if it is live; answers the next place.
fn keep(words: &mut [u32], list: &mut [u32], i: usize, to: usize) -> usize
    requires { InWords base i words.old × (to ≤ i) × (i < 2 ^ 32) × (0 < owner_word base i words.old → 2 * to + 2 ≤ length list.old) }
    ensures { Keeps base i to words.old list.old result words.new list.new }
{
    if 0 < layout::owner(words, MAX_EDGES, i) {
        move_record(words, i, to);
        note(list, i, to);
        return to + 1;
    }
    to
}

// All live slots are moved down and listed.
fn close_up(words: &mut [u32], list: &mut [u32]) -> usize
    requires { Whole base words.old × (2 * live_count base words.old ≤ length list.old) }
    ensures value { (result ≡ live_count base words.old) × (result ≤ used_in words.old) × (result < 2 ^ 32) }
    ensures words_after { words.new ≡ with_records base (live_of (records base words.old)) words.old }
    ensures list_after { list.new ≡ renumbered 0 0 (records base words.old) ++ drop (2 * live_count base words.old) list.old }
{
    let used = layout::number(words, layout::USED_AT);
    let mut to: usize = 0;
    for i in 0..used {
        to = keep(words, list, i, to);
    }
    to
}

// The slots from the first free one to the used ones become zeros; then the number of live ones is stored.
fn free_rest(words: &mut [u32], live: usize)
    requires { Whole base words.old × (live ≤ used_in words.old) × (live < 2 ^ 32) }
    ensures { words.new ≡ freed base live words.old }
{
    let used = layout::number(words, layout::USED_AT);
    let start = layout::FIRST_RECORD + RECORD_WORDS * live;
    let end = layout::FIRST_RECORD + RECORD_WORDS * used;
    slots::zero(&mut words[start..end]);
    words[layout::USED_AT] = live as u32;
}

// The dead slots are dropped; answers how many are live. 35, then 32 for a list of under two words a live slot.
pub fn compact(words: &mut [u32], list: &mut [u32]) -> Compaction
    ensures result_value { told_compaction result ≡ told_compaction (compact_database words.old list.old).answer }
    ensures words_after { words.new ≡ (compact_database words.old list.old).database }
    ensures list_after { list.new ≡ (compact_database words.old list.old).list }
{
    slots::zero(list);
    if !check::well_formed(words, MAX_EDGES) {
        return Err(CompactionRefusal::Malformed);
    }
    let live = count_live(words);
    if list.len() < PAIR_WORDS * live {
        return Err(CompactionRefusal::ListTooShort);
    }
    let last = close_up(words, list);
    free_rest(words, last);
    Ok(live as u32)
}
