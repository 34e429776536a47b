// Linear search from a reference. Document 01, "Answer".
#![tactic(auto)]

pub mod linear;
