// The steps by which a file is replaced: its records become zeros, new ones are written behind the used ones, the words in front are stored last.
// Document 01, "Partial paths": "Replacing a file zeroes its slots, appends the new ones in order found and stores the graph's N and F".
ghost use Rattle.std.specs.Prelude.{◌≡◌, ◌+◌, ◌-◌, ◌≤◌, ◌<◌, ◌^◌, eqb, leb, length};
ghost use Rattle.semantics.specs.Limits.{base, record_words};
ghost use Rattle.semantics.specs.PartialPaths.{slot};
ghost use Rattle.semantics.specs.Words.{zeros};
ghost use Rattle.semantics.specs.Database.{used_in, capacity, encode_slot, clear_record};
ghost use Rattle.database.specs.Records.{bounded, InWords, Whole, record_at, put_record};
ghost use Rattle.database.specs.Filing.{cleared, headed, is_clean, used_up_to, freed_from};
ghost use Rattle.semantics.specs.Lists.{and};

use crate::layout;
use semantics::bounds;
use words::slots;

// Slots used plus new ones do not exceed capacity; else 33. The difference is taken, because the sum might overflow.
pub fn has_room(words: &[u32], new: u64) -> bool
    requires { (3 ≤ length words.now) × (used_in words.now ≤ capacity base words.now) }
    ensures { result ≡ leb (used_in words.now + new) (capacity base words.now) }
{
    let left = layout::capacity(words, bounds::MAX_EDGES) - layout::number(words, layout::USED_AT);
    new <= left as u64
}

// Record i becomes zeros.
pub fn zero_record(words: &mut [u32], most: usize, i: usize)
    requires { InWords (bounded most) i words.old }
    ensures { words.new ≡ put_record (bounded most) i (zeros (record_words (bounded most))) words.old }
{
    let at = layout::FIRST_RECORD + (most + layout::EDGES) * i;
    let end = at + (most + layout::EDGES);
    slots::zero(&mut words[at..end]);
}

// It does so if it is a live record of the file; a dead one, or one of another file, stays as it is.
fn clear_record(words: &mut [u32], i: usize, file: u32)
    requires { InWords base i words.old }
    ensures { words.new ≡ put_record base i (clear_record file (record_at base i words.old)) words.old }
{
    let owner = layout::owner(words, bounds::MAX_EDGES, i);
    if 0 < owner && owner - 1 == file {
        zero_record(words, bounds::MAX_EDGES, i);
    }
}

// All used records of the file become zeros; every other word stays.
pub fn clear_file(words: &mut [u32], file: u32)
    requires { Whole base words.old }
    ensures { words.new ≡ cleared base file words.old }
{
    let used = layout::number(words, layout::USED_AT);
    for i in 0..used {
        clear_record(words, i, file);
    }
}

// The words of a record become file + 1, start, end, the edge count, the edges, and zeros behind them.
fn lay_out(into: &mut [u32], most: usize, file: u32, start: u32, end: u32, edges: &[u32])
    requires { (length into.old ≡ record_words (bounded most)) × (file + 1 < 2 ^ 32) × (length edges.now ≤ most) × (most < 2 ^ 31) }
    ensures { into.new ≡ encode_slot (record_words (bounded most)) (slot file start end edges.now) }
{
    into[0] = file + 1;
    into[layout::START] = start;
    into[layout::END] = end;
    let up_to = most + layout::EDGES;
    slots::write_list(&mut into[layout::COUNT..up_to], most + 1, 0, edges);
}

// Record i becomes a partial path of the file. Its first word is the file + 1, so that has to be a word.
pub fn put_record(
    words: &mut [u32],
    most: usize,
    i: usize,
    file: u32,
    start: u32,
    end: u32,
    edges: &[u32],
)
    requires { InWords (bounded most) i words.old × (file + 1 < 2 ^ 32) × (length edges.now ≤ most) × (most < 2 ^ 31) }
    ensures { words.new ≡ put_record (bounded most) i (encode_slot (record_words (bounded most)) (slot file start end edges.now)) words.old }
{
    let at = layout::FIRST_RECORD + (most + layout::EDGES) * i;
    let behind = at + (most + layout::EDGES);
    lay_out(&mut words[at..behind], most, file, start, end, edges);
}

// The words in front: slots used, N and F.
pub fn store_header(words: &mut [u32], used: u32, nodes: u32, files: u32)
    requires { 3 ≤ length words.old }
    ensures { words.new ≡ headed used nodes files words.old }
{
    words[layout::USED_AT] = used;
    words[layout::NODES_AT] = nodes;
    words[layout::FILES_AT] = files;
}

// Are all of them zeros? Without a way out of the loop they are compared several at a time.
fn is_clean(words: &[u32]) -> bool
    ensures { result ≡ is_clean words.now }
{
    let mut clean = true;
    for word in words {
        clean &= *word == 0;
    }
    clean
}

// Is record i all zeros, so that what is written there can be taken back?
pub fn is_free(words: &[u32], i: usize) -> bool
    requires { InWords base i words.now }
    ensures { result ≡ is_clean (record_at base i words.now) }
{
    let at = layout::FIRST_RECORD + bounds::RECORD_WORDS * i;
    let end = at + bounds::RECORD_WORDS;
    is_clean(&words[at..end])
}

// So many slots are used.
pub fn count_used(words: &mut [u32], used: usize)
    requires { (3 ≤ length words.old) × (used < 2 ^ 32) }
    ensures { words.new ≡ used_up_to used words.old }
{
    words[layout::USED_AT] = used as u32;
}

// The records from one on up to the last used become zeros, and are no longer used.
pub fn take_back(words: &mut [u32], first: usize)
    requires { Whole base words.old × (first < 2 ^ 32) }
    ensures { words.new ≡ used_up_to first (freed_from base first (used_in words.old - first) words.old) }
{
    let used = layout::number(words, layout::USED_AT);
    for i in (first..used).rev() {
        zero_record(words, bounds::MAX_EDGES, i);
    }
    count_used(words, first);
}
