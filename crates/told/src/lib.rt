// Document 01's number and values of each refusal, as a program prints and compares them.
#![tactic(auto)]

pub mod refusal;
