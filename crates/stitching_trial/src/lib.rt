// One partial path of a lent database tried on a path: those that start at its end, the judgement, and the longer path's words.
// Document 01, "Partial paths" and "Answer".
#![tactic(auto)]

pub mod joined_path;
pub mod links;
pub mod trial;
