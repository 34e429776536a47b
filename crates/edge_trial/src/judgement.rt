// The judgement of an edge on the path as it stands: the refusal that appending it gives, or none, and then whether the extension is complete.
// Document 02, order 4: nothing is built for an edge that is then rejected.
ghost use Rattle.std.specs.Prelude.{◌≡◌, true, ◌<◌, ◌≤◌, length};
ghost use Rattle.semantics.specs.Graph.{Graph, view_of, is_reference};
ghost use Rattle.semantics.specs.Judgement.{judgement};
ghost use Rattle.semantics.specs.Limits.{max_edges, steps_length};
ghost use Rattle.semantics.specs.Path.{Path};
ghost use Rattle.storage.specs.Index.{Blocks, node_row, edge_row, Loaded};
ghost use Rattle.stepping.specs.Judged.{Ready, Stepped, judged_of};
ghost use Rattle.edge_trial.specs.Trials.{judgement_by};

use semantics::judgement::EdgeJudgement;
use stepping::{step, steps};

// The path has k edges, and its steps stand in `steps`. What the index and the steps stand for is judged as the definition judges it; the second
// clause says so of the words alone, for the callers that have no graph yet.
pub fn judge(index: &[u32], steps: &[u32], k: u32, edge: u32) -> EdgeJudgement
    requires { Blocks index.now × Ready steps.now k }
    ensures value { (g : Graph) (p : Path) → Loaded g index.now → Stepped steps.now k p → steps_length ≤ length steps.now → k < max_edges
        → is_reference ((view_of g).node p.start) ≡ true → result ≡ judgement (view_of g) p edge }
    ensures value_2 { result ≡ judgement_by (node_row index.now) (judged_of (node_row index.now) steps.now k edge (edge_row index.now edge)) }
{
    match steps::judge(index, steps, k, edge) {
        Err(refusal) => Err(refusal),
        Ok(step) => Ok(step::is_complete(index, step)),
    }
}
