// The limits of a search, its counts, and which limit refused work. Document 01, "Budget and frontier".
#![tactic(auto)]

pub mod budget;
