// A graph image rewritten in another version. Document 02, order 3.
#![tactic(auto)]

mod back;
mod forward;
mod record;
pub mod rewrite;
mod symbols;
mod write;
