// Where the words of a database stand: three in front, then the records, and how many records there may be.
// Document 01, "Partial paths": "slots used, N, F; then slots": "file + 1 (0 means dead), start, end, edge count" and edges,
// of which there are 63 since document 02, order 6. How many a record has room for is an argument, so that words of before are read by the same functions.
ghost use Rattle.std.specs.Prelude.{◌≡◌, ◌≤◌, ◌<◌, ◌^◌, length, get_or};
ghost use Rattle.semantics.specs.Limits.{base};
ghost use Rattle.semantics.specs.Database.{capacity};
ghost use Rattle.database.specs.Records.{bounded, InWords, owner_word, start_word, end_word, count_word, edge_words};

use semantics::bounds;

// The words in front: slots used, N and F.
pub const USED_AT: usize = 0;

pub const NODES_AT: usize = 1;

pub const FILES_AT: usize = 2;

pub const FIRST_RECORD: usize = 3;

// The words of a record, counted from its place: in front stands the file + 1, or 0 if it is dead.
pub const START: usize = 1;

pub const END: usize = 2;

pub const COUNT: usize = 3;

pub const EDGES: usize = 4;

// The word at a place, as a number of words or records.
pub fn number(words: &[u32], at: usize) -> usize
    requires { at < length words.now }
    ensures { (result ≡ get_or words.now at 0) × (result < 2 ^ 32) }
{
    words[at] as usize
}

// The lesser of 4,096 and the whole slots lent, for slots of so many edges.
pub fn capacity(words: &[u32], most: usize) -> usize
    requires { most < 2 ^ 32 }
    ensures { result ≡ capacity (bounded most) words.now }
{
    if words.len() < FIRST_RECORD {
        return 0;
    }
    let whole = (words.len() - FIRST_RECORD) / (most + EDGES);
    whole.min(bounds::MAX_RECORDS)
}

// Record i's file + 1, or 0 if it is dead.
// Kept: InWords joins the words, the bound and a record's number; a struct of the three would borrow the words, so it is made anew for each number and after each write.
pub fn owner(words: &[u32], most: usize, i: usize) -> u32
    requires { InWords (bounded most) i words.now }
    ensures { result ≡ owner_word (bounded most) i words.now }
{
    words[FIRST_RECORD + (most + EDGES) * i]
}

// The node that record i starts at.
pub fn start(words: &[u32], most: usize, i: usize) -> u32
    requires { InWords (bounded most) i words.now }
    ensures { result ≡ start_word (bounded most) i words.now }
{
    words[FIRST_RECORD + (most + EDGES) * i + START]
}

// The node that it ends at.
pub fn end(words: &[u32], most: usize, i: usize) -> u32
    requires { InWords (bounded most) i words.now }
    ensures { result ≡ end_word (bounded most) i words.now }
{
    words[FIRST_RECORD + (most + EDGES) * i + END]
}

// How many edges record i says it has.
pub fn count(words: &[u32], most: usize, i: usize) -> u32
    requires { InWords (bounded most) i words.now }
    ensures { result ≡ count_word (bounded most) i words.now }
{
    words[FIRST_RECORD + (most + EDGES) * i + COUNT]
}

// The edges of record i, which says that it has no more than it may.
pub fn edges(words: &[u32], most: usize, i: usize) -> &[u32]
    requires { InWords (bounded most) i words.now × (count_word (bounded most) i words.now ≤ most) }
    ensures { result.now ≡ edge_words (bounded most) i words.now }
{
    let from = FIRST_RECORD + (most + EDGES) * i + EDGES;
    let up_to = from + count(words, most, i) as usize;
    &words[from..up_to]
}
