// A tally by length. Document 02, order 9.
#![tactic(auto)]

pub mod lengths;
