// Demand 3 as contracts of functions that make the public calls: the premise on databases, and what the two recorded calls leave.
#![tactic(auto)]

pub mod filing;
pub mod sets;
