// The database of partial paths, in words that the caller lends.
// Document 01, "Partial paths", second paragraph; 33, 34 and 35 of "Turned back".
#![tactic(auto)]

pub mod check;
pub mod fresh;
pub mod layout;
pub mod lookup;
pub mod replace;
