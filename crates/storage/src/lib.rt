// The graph image: its check, its loaded form and its records by number.
// Document 01, "Graph image" and the rows 1 to 5 of "Turned back".
#![tactic(auto)]

pub mod check;
pub mod links;
pub mod refs;
pub mod store;
// The blocks of the index that `image` fills and `store` reads.
pub use image::blocks;
