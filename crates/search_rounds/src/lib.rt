// The rounds of a search from a reference, for every choice of what is tried on a path: its start, its loop and its end.
// Document 01, "Answer" and "Budget and frontier".
#![tactic(auto)]

pub mod conclusion;
pub mod start;
