// Stitched search over the partial paths of a lent database. Document 01, "Partial paths": `try_compute_from_partials`.
#![tactic(auto)]

pub mod stitched;
