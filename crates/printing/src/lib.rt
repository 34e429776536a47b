// What programs read and print with: an input as far as there is room, named numbers on a line, and the paths of a result area.
#![tactic(auto)]

pub mod input;
pub mod line;
pub mod paths;
