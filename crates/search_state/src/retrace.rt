// The steps of a path that was popped. A waiting slot holds edges alone, so their steps are made again behind the reference.
// Document 01, "Answer": "Waiting paths are held likewise". Each edge was appended before, so none is judged.
ghost use Rattle.std.specs.Prelude.{◌+◌, ◌*◌, ◌≤◌, length};
ghost use Rattle.semantics.specs.Limits.{max_edges, step_length};
ghost use Rattle.search_state.specs.Retraces.{Retraces, Retraced, Shared};

use stepping::{remaking, steps};

// How many of the first edges stand in the steps already, which are laid out up to step n.
fn shared(steps: &[u32], edges: &[u32], n: usize) -> usize
    requires { (length edges.now ≤ max_edges) × (step_length * length edges.now + step_length ≤ length steps.now) }
    ensures { Shared steps.now edges.now n result }
{
    let most = edges.len().min(n);
    for (i, edge) in edges[..most].iter().enumerate() {
        if steps::get_step(steps, i + 1).edge != *edge {
            return i;
        }
    }
    most
}

// The steps of these edges. Those that the path before has in common with it, of which steps 0 to n stand there, are not laid out again.
pub fn retrace(index: &[u32], steps: &mut [u32], edges: &[u32], n: usize)
    requires { Retraces index.now steps.old edges.now n }
    ensures { (t : Retraces index.now steps.old edges.now n)
        → Retraced index.now steps.old edges.now n t steps.new }
{
    let first = shared(steps, edges, n);
    let mut last = steps::get_step(steps, first);
    for i in first..edges.len() {
        last = remaking::remake(index, steps, i + 1, edges[i], last);
    }
}
