// The expanded counts of the last 1,024 searches in lent words: where the next entry goes, then the entries, each in the place of the oldest. Sum and greatest are
// found when they are asked for: no word says them, so every list of words is a window, also a short one, and no word behind it is read or written.
// Document 02, order 10.
ghost use Rattle.std.specs.Prelude.{◌≡◌, ◌+◌, ◌≤◌, ◌<◌, ◌^◌, length, get_or, take, set};
ghost use Rattle.semantics.specs.Limits.{window_entries, window_words};
ghost use Rattle.semantics.specs.Told.{told_entered, told_trend};
ghost use Rattle.semantics.specs.Window.{room_in, place_in, place_behind, trend_of};
ghost use Rattle.semantics.specs.Entries.{begin_window, enter_window, report_window};

use semantics::answer::{Entered, EntryRefusal, Trend};
use semantics::bounds::{MAX_EXPANSIONS, WINDOW_WORDS};

// The word that says where the next entry goes, and that of the first entry.
const PLACE_AT: usize = 0;

const FIRST_ENTRY: usize = 1;

// How many of the words are the window's.
fn extent(words: &[u32]) -> usize
    ensures { (result ≡ length (take window_words words.now)) × (result ≤ window_words) × (result ≤ length words.now) }
{
    words.len().min(WINDOW_WORDS)
}

// How many entries they have room for.
fn room(words: &[u32]) -> usize
    ensures { (result ≡ room_in window_entries words.now) × (result ≤ window_entries) }
{
    extent(words).saturating_sub(FIRST_ENTRY)
}

// The word at a place; 0 behind the last.
fn word(words: &[u32], i: usize) -> u32
    ensures { (result ≡ get_or words.now i 0) × (result < 2 ^ 32) }
{
    words.get(i).copied().unwrap_or(0)
}

// Behind the last word nothing is stored.
fn put(words: &mut [u32], i: usize, value: u32)
    ensures { words.new ≡ set words.old i value }
{
    if i < words.len() {
        words[i] = value;
    }
}

// Where the next entry goes: the place of the oldest.
fn place(words: &[u32]) -> usize
    ensures { (result ≡ place_in window_entries words.now) × (result ≤ window_entries) }
{
    let at = word(words, PLACE_AT) as usize;
    if at < room(words) {
        return at;
    }
    0
}

// The place behind another, round and round.
fn behind(room: usize, at: usize) -> u32
    requires { (room ≤ window_entries) × (at ≤ window_entries) }
    ensures { result ≡ place_behind room at }
{
    if at + 1 < room {
        return (at + 1) as u32;
    }
    0
}

// Their sum and the greatest, in one pass that has no way out, so that it is compiled to vector instructions. 1,024 words of 32 bits are far from filling 64.
fn trend(entries: &[u32]) -> Trend
    requires { length entries.now ≤ window_entries }
    ensures { result ≡ trend_of entries.now }
{
    let mut sum: u64 = 0;
    let mut greatest: u32 = 0;
    for entry in entries {
        sum += u64::from(*entry);
        greatest = greatest.max(*entry);
    }
    Trend { sum, greatest }
}

// A window is begun empty; what the words held is gone. Words behind it stay.
pub fn begin(words: &mut [u32])
    ensures { words.new ≡ begin_window words.old }
{
    let end = extent(words);
    words[..end].fill(0);
}

// A count is entered; 40, and no word is altered, above the bound on expansions.
pub fn enter(words: &mut [u32], count: u64) -> Entered
    ensures result_value { told_entered result ≡ told_entered (enter_window words.old count).answer }
    ensures words_after { words.new ≡ (enter_window words.old count).window }
{
    if MAX_EXPANSIONS < count {
        return Err(EntryRefusal::TooGreat);
    }
    let room = room(words);
    let at = place(words);
    put(words, FIRST_ENTRY + at, count as u32);
    put(words, PLACE_AT, behind(room, at));
    Ok(())
}

// The sum of the last entries and the greatest of them.
pub fn report(words: &[u32]) -> Trend
    ensures { told_trend result ≡ told_trend (report_window words.now) }
{
    let end = extent(words);
    if FIRST_ENTRY < end {
        return trend(&words[FIRST_ENTRY..end]);
    }
    Trend {
        sum: 0,
        greatest: 0,
    }
}
