// On numbers and slices: the check of an image, a replayed path, and what is judged of a path.
ghost use Rattle.std.specs.Prelude.{◌≡◌, length};
ghost use Rattle.semantics.specs.Entries.{check_of, replay_of, complete_of, shadows_of};
ghost use Rattle.semantics.specs.Written.{written};
ghost use Rattle.semantics.specs.Told.{told_checked, told_replayed, told_judgement};
ghost use Rattle.semantics.specs.PathWords.{path_words};

use crate::numbers::Tell;
use path::{judgement, replay};
use path_words::write;
use semantics::graph::NodeId;
use storage::check;

// 0, F, N and M; or the refusal.
pub fn pozhdaghi_check(image: &[u8], answer: &mut [u64])
    ensures { answer.new ≡ written (length answer.old) (told_checked (check_of image.now)) }
{
    let checked = check::check(image);
    checked.tell(answer);
}

// 0, and the path of a reference and an edge list; or the refusal, and zeros in the place of the path.
pub fn pozhdaghi_replay(
    image: &[u8],
    reference: u32,
    edges: &[u32],
    path: &mut [u32],
    answer: &mut [u64],
)
    ensures answer_after { answer.new ≡ written (length answer.old) (told_replayed (replay_of image.now reference edges.now).answer) }
    ensures path_after { path.new ≡ written (length path.old) (path_words (replay_of image.now reference edges.now).path) }
{
    let outcome = replay::replay(image, NodeId(reference), edges);
    let replayed = outcome.answer;
    write::write(outcome.path, path);
    replayed.tell(answer);
}

// 0, then 1 if the path of a reference and an edge list is complete; or the refusal.
pub fn pozhdaghi_is_complete(image: &[u8], reference: u32, edges: &[u32], answer: &mut [u64])
    ensures { answer.new ≡ written (length answer.old) (told_judgement (complete_of image.now reference edges.now)) }
{
    let judged = judgement::is_complete(image, NodeId(reference), edges);
    judged.tell(answer);
}

// 0, then 1 if the left path shadows the right one; or the refusal.
pub fn pozhdaghi_shadows(
    image: &[u8],
    left: u32,
    left_edges: &[u32],
    right: u32,
    right_edges: &[u32],
    answer: &mut [u64],
)
    ensures { answer.new ≡ written (length answer.old)
        (told_judgement (shadows_of image.now left left_edges.now right right_edges.now)) }
{
    let judged = judgement::shadows(image, NodeId(left), left_edges, NodeId(right), right_edges);
    judged.tell(answer);
}
