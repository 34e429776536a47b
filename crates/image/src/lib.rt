// The bytes of a graph image: its header, and its records tested and put into an index in one pass.
// Document 01, "Graph image" and the rows 1 to 4 of "Turned back".
#![tactic(auto)]

pub mod blocks;
pub mod header;
pub mod record;
pub mod scan;
pub mod version;
