// The stored lists of cases: read, with the areas that a call is lent, and the answers written as numbers, compared with the expected ones and told.
// A case is handed on as the bytes of its list from its tag on. The calls themselves are made by the program `cases`.
#![tactic(auto)]

pub mod answer;
pub mod areas;
pub mod compared;
pub mod edges;
pub mod exported;
pub mod kinds;
pub mod lent;
pub mod list;
pub mod places;
pub mod report;
pub mod request;
