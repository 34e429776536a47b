// A window over the expanded counts of the last searches.
// Document 02, order 10.
#![tactic(auto)]

pub mod counts;
