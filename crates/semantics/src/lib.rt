// The values that contracts speak about. What they mean stands in specs/.
#![tactic(auto)]

pub mod answer;
pub mod bounds;
pub mod graph;
pub mod judgement;
pub mod kinds;
pub mod refusal;
pub mod replayed;
pub mod search;
