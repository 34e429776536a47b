// A path by value as words in an area that the caller lends: specs/PathWords.antt.
#![tactic(auto)]

mod cells;
mod put;
mod stacks;
mod steps;
pub mod write;
