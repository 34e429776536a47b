// A graph read by number: a node, an edge, the references, the edges that leave a node; each as far as a set of files is visible.
#![tactic(auto)]

pub mod listing;
pub mod records;
