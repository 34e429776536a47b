// What becomes of an edge on the path under expansion, for direct and for linear search. Document 01, "Answer".
#![tactic(auto)]

pub mod judgement;
pub mod trial;
