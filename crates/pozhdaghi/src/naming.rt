// On numbers and slices: a name for a definition. It answers 0, then 1 and the reference whose path stands in the first result slot, or 0; or the refusal.
ghost use Rattle.std.specs.Prelude.{◌≡◌, length};
ghost use Rattle.semantics.specs.Entries.{name_asked};
ghost use Rattle.semantics.specs.Written.{written};
ghost use Rattle.semantics.specs.Told.{told_finding};

use crate::asked;
use crate::numbers::Tell;
use finding::name;
use semantics::graph::NodeId;

// Of what is asked only the limit on length is read.
pub fn pozhdaghi_find_name(
    image: &[u8],
    visible: &[u8],
    node: u32,
    asked: &[u64],
    work: &mut [u32],
    res: &mut [u32],
    answer: &mut [u64],
)
    ensures answer_after { answer.new ≡ written (length answer.old)
        (told_finding (name_asked image.now visible.now node asked.now work.old res.old).answer) }
    ensures work_after { work.new ≡ (name_asked image.now visible.now node asked.now work.old res.old).work }
    ensures res_after { res.new ≡ (name_asked image.now visible.now node asked.now work.old res.old).result }
{
    let limit = asked::length(asked);
    let found = name::find_name(image, visible, NodeId(node), limit, work, res);
    found.tell(answer);
}
