// What becomes of a file's starts and of the edges that leave a route. Document 01, "Partial paths".
#![tactic(auto)]

pub mod expand;
pub mod seed;
