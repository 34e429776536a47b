// On numbers and slices: an image rewritten in the other version, into bytes that the caller lends. It answers 0 and the length of the result, or the refusal.
ghost use Rattle.std.specs.Prelude.{◌≡◌, length};
ghost use Rattle.semantics.specs.Entries.{widen_image, narrow_image};
ghost use Rattle.semantics.specs.Written.{written};
ghost use Rattle.semantics.specs.Told.{told_rewriting};

use crate::numbers::Tell;
use rewriting::rewrite;

// From version 1 to version 2.
pub fn pozhdaghi_widen(image: &[u8], area: &mut [u8], answer: &mut [u64])
    ensures answer_after { answer.new ≡ written (length answer.old) (told_rewriting (widen_image image.now area.old).answer) }
    ensures area_after { area.new ≡ (widen_image image.now area.old).bytes }
{
    let rewritten = rewrite::widen(image, area);
    rewritten.tell(answer);
}

// From version 2 to version 1.
// Kept: a function for each direction, as each is the exported call of its name.
pub fn pozhdaghi_narrow(image: &[u8], area: &mut [u8], answer: &mut [u64])
    ensures answer_after { answer.new ≡ written (length answer.old) (told_rewriting (narrow_image image.now area.old).answer) }
    ensures area_after { area.new ≡ (narrow_image image.now area.old).bytes }
{
    let rewritten = rewrite::narrow(image, area);
    rewritten.tell(answer);
}
