// The partial paths of a file, and a file replaced in the database. Document 01, "Partial paths".
#![tactic(auto)]

pub mod compute;
pub mod replace;
