// A directory of cash flows for brokers: from an ISIN, a tranche and a leg to the definition. Document 02, order 11.
#![tactic(auto)]

pub mod directory;
pub mod ends;
pub mod isin;
pub mod rows;
