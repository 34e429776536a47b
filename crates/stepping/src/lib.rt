// What a node does to the two stacks, and the steps of a path in lent words. Document 01, "Path".
#![tactic(auto)]

pub mod layout;
pub mod node;
pub mod remaking;
pub mod step;
pub mod steps;
