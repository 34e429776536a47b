// From outside: a lent edge list is replayed from a reference. Document 01, "Path".
ghost use Rattle.std.specs.Prelude.{◌≡◌, ℕ};
ghost use Rattle.semantics.specs.Entries.{graph_in, replay_of};
ghost use Rattle.semantics.specs.ReplayedPaths.{read_path};
ghost use Rattle.semantics.specs.Limits.{base};
ghost use Rattle.semantics.specs.Graph.{Graph, view_of};
ghost use Rattle.semantics.specs.Path as Model;
ghost use Rattle.semantics.specs.Told.{told_replayed};
ghost use Rattle.storage.specs.Index.{Blocks, node_row, edge_row, Loaded, Takes};
ghost use Rattle.path.specs.Shadows.Laws.{JumpAt};
ghost use Rattle.path.specs.Replays.{replayed, left_by, one_more, value_of, replay_value, Answers};
ghost use Rattle.path.specs.Replays.Laws.{Sound};
ghost use Rattle.path.specs.Values.{empty_path};

use crate::path::{append, empty, from_reference};
use semantics::answer::{Replayed, TurnedBack};
use semantics::bounds::MAX_EDGES;
use semantics::graph::NodeId;
use semantics::refusal::{PathRefusal, ReplayRefusal};
use semantics::replayed::{Path, Step};
use storage::{blocks, check};

// The answer of a replay, and the path beside it; no path where it is refused.
// Kept: the clause `path_value` of `replay` speaks of the path beside a refusal too.
#[derive(Clone, Copy)]
pub struct ReplayOutcome {
    pub answer: Replayed,
    pub path: Path,
}

// What the start or an edge leaves: the path, or no path beside the refusal.
fn outcome(effect: Result<Step, PathRefusal>, path: &mut Path) -> Replayed
    ensures { replayed result path.new ≡ left_by effect path.old }
{
    match effect {
        Ok(_) => Ok(()),
        Err(r) => {
            *path = empty();
            Err(TurnedBack::Refused(ReplayRefusal::Path(r)))
        }
    }
}

// One edge more: the bound is tested, then the edge is appended.
fn one_more(path: &mut Path, index: &[u32], edge: u32) -> Replayed
    requires { Blocks index.now × Sound path.old }
    ensures { replayed result path.new ≡ one_more (node_row index.now) (edge_row index.now) path.old edge }
{
    if MAX_EDGES <= path.count as usize {
        *path = empty();
        return Err(TurnedBack::Refused(ReplayRefusal::TooLong));
    }
    let effect = append(path, index, edge);
    outcome(effect, path)
}

// Edge after edge from the reference on, until one is refused.
fn replay_onto(path: &mut Path, index: &[u32], reference: u32, edges: &[u32]) -> Replayed
    requires { Blocks index.now × (path.old ≡ empty_path) }
    ensures { replayed result path.new ≡ value_of (node_row index.now) (edge_row index.now) reference edges.now }
{
    let effect = from_reference(path, index, reference);
    let begun = outcome(effect, path);
    let Ok(()) = begun else {
        return begun;
    };
    for edge in edges {
        let grown = one_more(path, index, *edge);
        let Ok(()) = grown else {
            return grown;
        };
    }
    Ok(())
}

// The answer, and the path beside it.
pub(crate) fn replay_loaded(index: &[u32], reference: u32, edges: &[u32]) -> ReplayOutcome
    requires { Blocks index.now }
    ensures value { result ≡ value_of (node_row index.now) (edge_row index.now) reference edges.now }
    ensures answers { (g : Graph) → Loaded g index.now → JumpAt (view_of g) → Answers result (Model.replay base (view_of g) reference edges.now) }
{
    let mut path = empty();
    let answer = replay_onto(&mut path, index, reference, edges);
    ReplayOutcome { answer, path }
}

// The image is checked into the lent index, then the edge list is replayed.
fn replay_in(image: &[u8], index: &mut [u32], reference: u32, edges: &[u32]) -> ReplayOutcome
    requires { Takes image.now index.old }
    ensures answer_value { told_replayed result.answer ≡ told_replayed (replay_of image.now reference edges.now).answer }
    ensures path_value { read_path result.path ≡ (replay_of image.now reference edges.now).path }
    ensures value { result ≡ replay_value (graph_in image.now) reference edges.now }
{
    match check::load_fresh(image, index) {
        Err(r) => ReplayOutcome {
            answer: Err(TurnedBack::Image(r)),
            path: empty(),
        },
        Ok(_) => replay_loaded(index, reference, edges),
    }
}

// The path of a reference and an edge list, on any bytes and any numbers.
pub fn replay(image: &[u8], reference: NodeId, edges: &[u32]) -> ReplayOutcome
    ensures answer_value { told_replayed result.answer ≡ told_replayed (replay_of image.now reference.0 edges.now).answer }
    ensures path_value { read_path result.path ≡ (replay_of image.now reference.0 edges.now).path }
    ensures value { result ≡ replay_value (graph_in image.now) reference.0 edges.now }
{
    if check::is_small(image) {
        let mut index = [0u32; blocks::SMALL];
        return replay_in(image, &mut index, reference.0, edges);
    }
    let mut index = [0u32; blocks::INDEX];
    replay_in(image, &mut index, reference.0, edges)
}
