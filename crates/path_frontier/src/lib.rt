// The frontier of paths that wait, which every bounded path enumeration shares. Document 01, "Budget and frontier".
#![tactic(auto)]

pub mod frontier;
