// The end of a search: the recorded paths without copies, and without those that another one shadows.
// Document 01, "Answer": `from_complete`.
#![tactic(auto)]

mod ascending;
pub mod closing_up;
pub mod copies;
pub mod finish;
pub mod lists;
mod rivals;
pub mod shadowed;
