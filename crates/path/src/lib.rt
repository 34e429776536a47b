// Paths: replay, completeness and shadowing. Document 01, "Path".
#![tactic(auto)]

pub mod judgement;
pub mod path;
pub mod replay;
pub mod shadows;
