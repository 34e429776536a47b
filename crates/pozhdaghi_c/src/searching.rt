// Exported: the searches. Each takes the set of visible files behind the image, and answers 0, the number of paths in the result slots, four counts and three flags; or the refusal.
ghost use Rattle.std.specs.Prelude.{◌≡◌, length};
ghost use Rattle.semantics.specs.Entries.{direct_asked, linear_asked, stitched_asked};
ghost use Rattle.semantics.specs.Written.{written};
ghost use Rattle.semantics.specs.Recorded.{recorded, returned};
ghost use Rattle.semantics.specs.Told.{told_resolution, told_linear_resolution};

use pozhdaghi::searching;

// Direct search: the returned paths.
#[unsafe(no_mangle)]
pub extern "C" fn pozhdaghi_direct(
    image: &[u8],
    visible: &[u8],
    reference: u32,
    asked: &[u64],
    work: &mut [u32],
    res: &mut [u32],
    answer: &mut [u64],
)
    ensures answer_after { answer.new ≡ written (length answer.old)
        (told_resolution (direct_asked returned image.now visible.now reference asked.now work.old res.old).answer) }
    ensures work_after { work.new ≡ (direct_asked returned image.now visible.now reference asked.now work.old res.old).work }
    ensures res_after { res.new ≡ (direct_asked returned image.now visible.now reference asked.now work.old res.old).result }
{
    searching::pozhdaghi_direct(image, visible, reference, asked, work, res, answer);
}

// Direct search: the recorded paths.
#[unsafe(no_mangle)]
pub extern "C" fn pozhdaghi_direct_recorded(
    image: &[u8],
    visible: &[u8],
    reference: u32,
    asked: &[u64],
    work: &mut [u32],
    res: &mut [u32],
    answer: &mut [u64],
)
    ensures answer_after { answer.new ≡ written (length answer.old)
        (told_resolution (direct_asked recorded image.now visible.now reference asked.now work.old res.old).answer) }
    ensures work_after { work.new ≡ (direct_asked recorded image.now visible.now reference asked.now work.old res.old).work }
    ensures res_after { res.new ≡ (direct_asked recorded image.now visible.now reference asked.now work.old res.old).result }
{
    searching::pozhdaghi_direct_recorded(image, visible, reference, asked, work, res, answer);
}

// Linear search: the returned paths. It has no order and takes no work area.
#[unsafe(no_mangle)]
pub extern "C" fn pozhdaghi_linear(
    image: &[u8],
    visible: &[u8],
    reference: u32,
    asked: &[u64],
    res: &mut [u32],
    answer: &mut [u64],
)
    ensures answer_after { answer.new ≡ written (length answer.old)
        (told_linear_resolution (linear_asked returned image.now visible.now reference asked.now res.old).answer) }
    ensures res_after { res.new ≡ (linear_asked returned image.now visible.now reference asked.now res.old).result }
{
    searching::pozhdaghi_linear(image, visible, reference, asked, res, answer);
}

// Linear search: the recorded paths.
#[unsafe(no_mangle)]
pub extern "C" fn pozhdaghi_linear_recorded(
    image: &[u8],
    visible: &[u8],
    reference: u32,
    asked: &[u64],
    res: &mut [u32],
    answer: &mut [u64],
)
    ensures answer_after { answer.new ≡ written (length answer.old)
        (told_linear_resolution (linear_asked recorded image.now visible.now reference asked.now res.old).answer) }
    ensures res_after { res.new ≡ (linear_asked recorded image.now visible.now reference asked.now res.old).result }
{
    searching::pozhdaghi_linear_recorded(image, visible, reference, asked, res, answer);
}

// Stitched search over the database in the words: the returned paths.
#[unsafe(no_mangle)]
pub extern "C" fn pozhdaghi_stitched(
    image: &[u8],
    visible: &[u8],
    words: &[u32],
    reference: u32,
    asked: &[u64],
    work: &mut [u32],
    res: &mut [u32],
    answer: &mut [u64],
)
    ensures answer_after { answer.new ≡ written (length answer.old)
        (told_resolution (stitched_asked returned image.now visible.now words.now reference asked.now work.old
        res.old).answer) }
    ensures work_after { work.new ≡ (stitched_asked returned image.now visible.now words.now reference asked.now work.old res.old).work }
    ensures res_after { res.new ≡ (stitched_asked returned image.now visible.now words.now reference asked.now work.old res.old).result }
{
    searching::pozhdaghi_stitched(image, visible, words, reference, asked, work, res, answer);
}

// Stitched search over the database in the words: the recorded paths.
#[unsafe(no_mangle)]
pub extern "C" fn pozhdaghi_stitched_recorded(
    image: &[u8],
    visible: &[u8],
    words: &[u32],
    reference: u32,
    asked: &[u64],
    work: &mut [u32],
    res: &mut [u32],
    answer: &mut [u64],
)
    ensures answer_after { answer.new ≡ written (length answer.old)
        (told_resolution (stitched_asked recorded image.now visible.now words.now reference asked.now work.old
        res.old).answer) }
    ensures work_after { work.new ≡ (stitched_asked recorded image.now visible.now words.now reference asked.now work.old res.old).work }
    ensures res_after { res.new ≡ (stitched_asked recorded image.now visible.now words.now reference asked.now work.old res.old).result }
{
    searching::pozhdaghi_stitched_recorded(
        image, visible, words, reference, asked, work, res, answer,
    );
}
