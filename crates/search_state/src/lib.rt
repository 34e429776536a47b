// What every search from a reference shares: the path under expansion, what is counted and kept, and what waits.
// Document 01, "Answer".
#![tactic(auto)]

pub mod dead_ends;
pub mod path_slot;
pub mod progress;
pub mod retrace;
pub mod search;
pub mod state;
