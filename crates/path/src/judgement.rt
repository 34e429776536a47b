// From outside: is a path complete, does one path shadow another? Each path is a reference and a lent edge list, replayed first.
// Document 01, "Path".
ghost use Rattle.std.specs.Prelude.{◌≡◌};
ghost use Rattle.semantics.specs.Entries.{complete_of, shadows_of};
ghost use Rattle.semantics.specs.Limits.{base};
ghost use Rattle.semantics.specs.Graph.{Graph, view_of};
ghost use Rattle.semantics.specs.Path as Model;
ghost use Rattle.semantics.specs.Told.{told_judgement};
ghost use Rattle.semantics.specs.Calls.{left_first};
ghost use Rattle.storage.specs.Index.{Blocks, Loaded, Takes};
ghost use Rattle.path.specs.Shadows.Laws.{JumpAt};
ghost use Rattle.path.specs.Replays.{judged_as};

use crate::replay::replay_loaded;
use crate::shadows;
use semantics::answer::{Judgement, Replayed, TurnedBack};
use semantics::graph::NodeId;
use stepping::step;
use stepping::steps::get_step;
use storage::{blocks, check};

// What is judged of a path that was replayed, or the refusal of its replay.
fn judged(answer: Replayed, holds: bool) -> Judgement
    ensures { result ≡ judged_as answer holds }
{
    answer?;
    Ok(holds)
}

// The left path is replayed before the right one.
fn shadows_loaded(
    index: &[u32],
    left: u32,
    left_edges: &[u32],
    right: u32,
    right_edges: &[u32],
) -> Judgement
    requires { Blocks index.now }
    ensures { (g : Graph) → Loaded g index.now → JumpAt (view_of g) → result
        ≡ left_first (Model.replay base (view_of g) left left_edges.now) (Model.replay base (view_of g) right right_edges.now) }
{
    let first = replay_loaded(index, left, left_edges).answer;
    let Ok(()) = first else {
        return judged(first, false);
    };
    let second = replay_loaded(index, right, right_edges).answer;
    judged(second, shadows::shadows(index, left_edges, right_edges))
}

// The image is checked into the lent index, then the path is replayed and judged.
fn is_complete_in(image: &[u8], index: &mut [u32], reference: u32, edges: &[u32]) -> Judgement
    requires { Takes image.now index.old }
    ensures { told_judgement result ≡ told_judgement (complete_of image.now reference edges.now) }
{
    check::load_fresh(image, index).map_err(TurnedBack::Image)?;
    let replayed = replay_loaded(index, reference, edges);
    let path = &replayed.path;
    let last = get_step(&path.steps, path.count as usize);
    judged(replayed.answer, step::is_complete(index, last))
}

// Does the path of a reference and an edge list end at a definition with both stacks empty?
pub fn is_complete(image: &[u8], reference: NodeId, edges: &[u32]) -> Judgement
    ensures { told_judgement result ≡ told_judgement (complete_of image.now reference.0 edges.now) }
{
    if check::is_small(image) {
        let mut index = [0u32; blocks::SMALL];
        return is_complete_in(image, &mut index, reference.0, edges);
    }
    let mut index = [0u32; blocks::INDEX];
    is_complete_in(image, &mut index, reference.0, edges)
}

// The image is checked into the lent index, then both paths are replayed and compared.
fn shadows_in(
    image: &[u8],
    index: &mut [u32],
    left: u32,
    left_edges: &[u32],
    right: u32,
    right_edges: &[u32],
) -> Judgement
    requires { Takes image.now index.old }
    ensures { told_judgement result ≡ told_judgement (shadows_of image.now left left_edges.now right right_edges.now) }
{
    check::load_fresh(image, index).map_err(TurnedBack::Image)?;
    shadows_loaded(index, left, left_edges, right, right_edges)
}

// Does the left path shadow the right one?
pub fn shadows(
    image: &[u8],
    left: NodeId,
    left_edges: &[u32],
    right: NodeId,
    right_edges: &[u32],
) -> Judgement
    ensures { told_judgement result ≡ told_judgement (shadows_of image.now left.0 left_edges.now right.0 right_edges.now) }
{
    if check::is_small(image) {
        let mut index = [0u32; blocks::SMALL];
        return shadows_in(image, &mut index, left.0, left_edges, right.0, right_edges);
    }
    let mut index = [0u32; blocks::INDEX];
    shadows_in(image, &mut index, left.0, left_edges, right.0, right_edges)
}
