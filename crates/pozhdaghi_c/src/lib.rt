// The calls of the crate pozhdaghi on numbers and slices, exported for Rust and C: the static library libpozhdaghi.a. Each calls the function of its name
// there and states its clauses again, which the gate compares. A slice is passed as a pointer and a length.
#![tactic(auto)]

pub mod costs;
pub mod directory;
pub mod filing;
pub mod naming;
pub mod reading;
pub mod records;
pub mod searching;
pub mod tallying;
pub mod versions;
