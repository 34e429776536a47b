// What becomes of an edge on the path under expansion. Document 01, "Answer": cycle, length, the bound on edges, append, completeness.
// The edge is judged on the path as it stands; nothing is built that is then rejected.
ghost use Rattle.std.specs.Prelude.{◌≡◌, ◌+◌, ltb, length};
ghost use Rattle.semantics.specs.Lists.{has};
ghost use Rattle.semantics.specs.Limits.{within, max_edges};
ghost use Rattle.storage.specs.Index.{Blocks, node_row, edge_row};
ghost use Rattle.stepping.specs.Judged.{Ready, judged_of};
ghost use Rattle.edge_trial.specs.Trials.{judgement_by, tried_by, trial_by};

use crate::judgement;
use path_budget::budget::Budget;
use search_state::path_slot;
use semantics::bounds::MAX_EDGES;

#[derive(Clone, Copy)]
pub enum EdgeTrial {
    Cut,
    Overlong,
    Rejected,
    TooLong,
    Extended { complete: bool },
}

// As it is judged; what a rejected edge is refused with is not asked here.
fn tried(index: &[u32], steps: &[u32], k: u32, edge: u32) -> EdgeTrial
    requires { Blocks index.now × Ready steps.now k }
    ensures { result ≡ tried_by (judgement_by (node_row index.now) (judged_of (node_row index.now) steps.now k edge (edge_row index.now edge))) }
{
    let judged = judgement::judge(index, steps, k, edge);
    let Ok(complete) = judged else {
        return EdgeTrial::Rejected;
    };
    EdgeTrial::Extended { complete }
}

// `edges` are those of the path; its steps stand in `steps`.
pub fn judge_edge(
    index: &[u32],
    steps: &[u32],
    edges: &[u32],
    edge: u32,
    budget: Budget,
) -> EdgeTrial
    requires { Blocks index.now × Ready steps.now (length edges.now) }
    ensures { result ≡ trial_by (node_row index.now) (has edge edges.now) (within (length edges.now + 1) budget.max_length)
        (ltb (length edges.now) max_edges) (judged_of (node_row index.now) steps.now (length edges.now) edge
        (edge_row index.now edge)) }
{
    if path_slot::contains(edges, edge) {
        return EdgeTrial::Cut;
    }
    let asked = budget.admitted_length(edges.len() as u64 + 1);
    if asked.allowed {
        if edges.len() < MAX_EDGES {
            return tried(index, steps, edges.len() as u32, edge);
        }
        return EdgeTrial::TooLong;
    }
    EdgeTrial::Overlong
}
