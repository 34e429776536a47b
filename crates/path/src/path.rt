// A path by value: the outside form. Document 01, "Path": its edges stand "in a fixed array"; document 02, order 6: at most 63.
// What both stacks hold stands in its steps, as inside the searches.
ghost use Rattle.std.specs.Prelude.{◌≡◌, ◌<◌};
ghost use Rattle.semantics.specs.ReplayedPaths.{step_at};
ghost use Rattle.storage.specs.Index.{Blocks, node_row, edge_row};
ghost use Rattle.stepping.specs.Judged.{begun_of, judged_of};
ghost use Rattle.path.specs.Values.{empty_path, is_jump_edge, grown, started_by, appended_by, Sized, Growing};

use semantics::bounds::{MAX_EDGES, STEPS_WORDS};
use semantics::graph::{Edge, EdgeId, JUMP};
use semantics::refusal::PathRefusal;
use semantics::replayed::{Path, Step};
use stepping::step::begin;
use stepping::steps::{get_step, judge, put_step};
use storage::store;

// Step k of a path: what a caller reads the stacks from. Behind the last there is none, and every word is 0.
pub fn step(path: Path, k: u32) -> Step
    ensures { result ≡ step_at path.steps k }
{
    let steps = path.steps;
    if MAX_EDGES < k as usize {
        return Step {
            edge: 0,
            end: 0,
            symbols: 0,
            scopes: 0,
            symbol: 0,
            attached: 0,
            below: 0,
            scope: 0,
        };
    }
    get_step(&steps, k as usize)
}

// No path: what stands beside a refusal.
pub(crate) fn empty() -> Path
    ensures { result ≡ empty_path }
{
    Path {
        start: 0,
        end: 0,
        count: 0,
        edges: [0; MAX_EDGES],
        jumps: [false; MAX_EDGES],
        steps: [0; STEPS_WORDS],
    }
}

// An edge into node 1 is followed by a jump step.
fn is_jump(index: &[u32], edge: u32) -> bool
    requires { Blocks index.now }
    ensures { result ≡ is_jump_edge (edge_row index.now edge) }
{
    match store::edge(index, EdgeId(edge)) {
        Edge::Removed => false,
        Edge::Live {
            source: _,
            target,
            precedence: _,
        } => target.0 == JUMP,
    }
}

// A path that starts at a reference, where there was none; beside a refusal there is none.
pub(crate) fn from_reference(
    path: &mut Path,
    index: &[u32],
    reference: u32,
) -> Result<Step, PathRefusal>
    requires { Blocks index.now × (path.old ≡ empty_path) }
    ensures { grown result path.new ≡ started_by reference (begun_of (node_row index.now) reference) }
{
    let effect = begin(index, reference);
    let Ok(step) = effect else {
        return effect;
    };
    path.start = reference;
    path.end = reference;
    put_step(&mut path.steps, 0, step);
    Ok(step)
}

// An edge more, and its step; beside a refusal the path stays as it was.
pub(crate) fn append(path: &mut Path, index: &[u32], edge: u32) -> Result<Step, PathRefusal>
    requires { Blocks index.now × Growing path.old }
    ensures { grown result path.new ≡ appended_by path.old edge (is_jump_edge (edge_row index.now edge))
        (judged_of (node_row index.now) path.old.steps path.old.count edge (edge_row index.now edge)) }
{
    let at = path.count as usize;
    let effect = judge(index, &path.steps, path.count, edge);
    let Ok(step) = effect else {
        return effect;
    };
    put_step(&mut path.steps, at + 1, step);
    path.end = step.end;
    path.edges[at] = edge;
    path.jumps[at] = is_jump(index, edge);
    path.count += 1;
    Ok(step)
}
