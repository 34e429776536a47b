// What the computation of a file's partial paths works with: routes that wait, found ones that are filed, and what is counted.
// Document 01, "Partial paths".
#![tactic(auto)]

pub mod extraction;
pub mod filing;
pub mod route;
