// The bounds of documents 01 and 02, each in one place. specs/Limits.antt has the same numbers for the definitions.

// How many edges a path may hold.
pub const MAX_EDGES: usize = 63;
// How many it might hold when databases had longer slots: document 02, order 6.
pub const FORMER_EDGES: usize = 127;
// A result or waiting slot in words: the count and the edges.
pub const SLOT_WORDS: usize = MAX_EDGES + 1;
// How many lengths a path may have: document 02, order 9.
pub const LENGTHS: usize = MAX_EDGES + 1;
// A database slot in words: owner + 1, start, end, the count and the edges.
pub const RECORD_WORDS: usize = MAX_EDGES + 4;
// A step of a path in words, of which its symbol has two, and all steps of a path: one for the reference and one for each edge.
pub const STEP_WORDS: usize = 9;

pub const STEPS_WORDS: usize = STEP_WORDS * SLOT_WORDS;
// How many slots a database may have.
pub const MAX_RECORDS: usize = 4_096;
// The owner of the alias set, which no file of a graph is: its slots have 65,535 as their first word, which is the owner plus 1.
pub const NOBODY: u32 = 65_534;
// How many expansions a search may make.
pub const MAX_EXPANSIONS: u64 = 16_777_216;
// How many entries the window over the last searches is over, and its words: the place of the next entry, and the entries. Document 02, order 10.
pub const WINDOW_ENTRIES: usize = 1_024;

pub const WINDOW_WORDS: usize = 1 + WINDOW_ENTRIES;
// A row of a flow directory in bytes: the ISIN, the tranche, the leg and the reference; the first three are its key. Document 02, order 11.
pub const ISIN_BYTES: usize = 12;

pub const KEY_BYTES: usize = ISIN_BYTES + 4;

pub const ROW_BYTES: usize = KEY_BYTES + 2;
