// What an edge does to a path, said before anything is built. Document 02, order 4.
use crate::refusal::PathRefusal;

// Whether the extension is complete, or the refusal that appending it gives.
pub type EdgeJudgement = Result<bool, PathRefusal>;
