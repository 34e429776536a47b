// On numbers and slices: the searches. Each takes the set of visible files behind the image, and answers 0, the number of paths in the result slots, four counts and three flags; or the refusal.
ghost use Rattle.std.specs.Prelude.{◌≡◌, length};
ghost use Rattle.semantics.specs.Entries.{direct_asked, linear_asked, stitched_asked};
ghost use Rattle.semantics.specs.Written.{written};
ghost use Rattle.semantics.specs.Recorded.{recorded, returned};
ghost use Rattle.semantics.specs.Told.{told_resolution, told_linear_resolution};
ghost use Rattle.reply.specs.Replies.{reply_of};

use crate::asked;
use crate::numbers::Tell;
use direct_search::direct;
use linear_search::linear;
use reply::finish::Reply;
use semantics::graph::NodeId;
use stitching::stitched;

// Direct search: the returned paths.
// Kept: a function for each reply, here and of linear and stitched search, as each is the exported call of its name, and the C interface has both.
pub fn pozhdaghi_direct(
    image: &[u8],
    visible: &[u8],
    reference: u32,
    asked: &[u64],
    work: &mut [u32],
    res: &mut [u32],
    answer: &mut [u64],
)
    ensures answer_after { answer.new ≡ written (length answer.old)
        (told_resolution (direct_asked returned image.now visible.now reference asked.now work.old res.old).answer) }
    ensures work_after { work.new ≡ (direct_asked returned image.now visible.now reference asked.now work.old res.old).work }
    ensures res_after { res.new ≡ (direct_asked returned image.now visible.now reference asked.now work.old res.old).result }
{
    let order = asked::order(asked);
    let limits = asked::limits(asked);
    let found = direct::search(image, visible, NodeId(reference), order, limits, work, res);
    found.tell(answer);
}

// Direct search: the recorded paths.
pub fn pozhdaghi_direct_recorded(
    image: &[u8],
    visible: &[u8],
    reference: u32,
    asked: &[u64],
    work: &mut [u32],
    res: &mut [u32],
    answer: &mut [u64],
)
    ensures answer_after { answer.new ≡ written (length answer.old)
        (told_resolution (direct_asked recorded image.now visible.now reference asked.now work.old res.old).answer) }
    ensures work_after { work.new ≡ (direct_asked recorded image.now visible.now reference asked.now work.old res.old).work }
    ensures res_after { res.new ≡ (direct_asked recorded image.now visible.now reference asked.now work.old res.old).result }
{
    let order = asked::order(asked);
    let limits = asked::limits(asked);
    let found = direct::search_recorded(
        image,
        visible,
        NodeId(reference),
        order,
        limits,
        work,
        res,
    );
    found.tell(answer);
}

// A linear search for either reply.
fn linear_for(
    image: &[u8],
    visible: &[u8],
    reference: u32,
    asked: &[u64],
    reply: Reply,
    res: &mut [u32],
    answer: &mut [u64],
)
    ensures answer_after { answer.new ≡ written (length answer.old)
        (told_linear_resolution (linear_asked (reply_of reply) image.now visible.now reference asked.now res.old).answer) }
    ensures res_after { res.new ≡ (linear_asked (reply_of reply) image.now visible.now reference asked.now res.old).result }
{
    let limits = asked::limits(asked);
    let found = linear::search_image(image, visible, reference, limits, reply, res);
    found.tell(answer);
}

// Linear search: the returned paths. It has no order and takes no work area.
pub fn pozhdaghi_linear(
    image: &[u8],
    visible: &[u8],
    reference: u32,
    asked: &[u64],
    res: &mut [u32],
    answer: &mut [u64],
)
    ensures answer_after { answer.new ≡ written (length answer.old)
        (told_linear_resolution (linear_asked returned image.now visible.now reference asked.now res.old).answer) }
    ensures res_after { res.new ≡ (linear_asked returned image.now visible.now reference asked.now res.old).result }
{
    linear_for(
        image,
        visible,
        reference,
        asked,
        Reply::Returned,
        res,
        answer,
    );
}

// Linear search: the recorded paths.
pub fn pozhdaghi_linear_recorded(
    image: &[u8],
    visible: &[u8],
    reference: u32,
    asked: &[u64],
    res: &mut [u32],
    answer: &mut [u64],
)
    ensures answer_after { answer.new ≡ written (length answer.old)
        (told_linear_resolution (linear_asked recorded image.now visible.now reference asked.now res.old).answer) }
    ensures res_after { res.new ≡ (linear_asked recorded image.now visible.now reference asked.now res.old).result }
{
    linear_for(
        image,
        visible,
        reference,
        asked,
        Reply::Recorded,
        res,
        answer,
    );
}

// Stitched search over the database in the words: the returned paths.
pub fn pozhdaghi_stitched(
    image: &[u8],
    visible: &[u8],
    words: &[u32],
    reference: u32,
    asked: &[u64],
    work: &mut [u32],
    res: &mut [u32],
    answer: &mut [u64],
)
    ensures answer_after { answer.new ≡ written (length answer.old)
        (told_resolution (stitched_asked returned image.now visible.now words.now reference asked.now work.old
        res.old).answer) }
    ensures work_after { work.new ≡ (stitched_asked returned image.now visible.now words.now reference asked.now work.old res.old).work }
    ensures res_after { res.new ≡ (stitched_asked returned image.now visible.now words.now reference asked.now work.old res.old).result }
{
    let order = asked::order(asked);
    let limits = asked::limits(asked);
    let found = stitched::search(
        image,
        visible,
        words,
        NodeId(reference),
        order,
        limits,
        work,
        res,
    );
    found.tell(answer);
}

// Stitched search over the database in the words: the recorded paths.
pub fn pozhdaghi_stitched_recorded(
    image: &[u8],
    visible: &[u8],
    words: &[u32],
    reference: u32,
    asked: &[u64],
    work: &mut [u32],
    res: &mut [u32],
    answer: &mut [u64],
)
    ensures answer_after { answer.new ≡ written (length answer.old)
        (told_resolution (stitched_asked recorded image.now visible.now words.now reference asked.now work.old
        res.old).answer) }
    ensures work_after { work.new ≡ (stitched_asked recorded image.now visible.now words.now reference asked.now work.old res.old).work }
    ensures res_after { res.new ≡ (stitched_asked recorded image.now visible.now words.now reference asked.now work.old res.old).result }
{
    let order = asked::order(asked);
    let limits = asked::limits(asked);
    let found = stitched::search_recorded(
        image,
        visible,
        words,
        NodeId(reference),
        order,
        limits,
        work,
        res,
    );
    found.tell(answer);
}
