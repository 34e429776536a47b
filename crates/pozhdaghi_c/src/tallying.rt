// Exported: a tally by length. It answers 0 and the numbers for the lengths 0 to 63, or the refusal. Nothing else has an answer of so many numbers.
ghost use Rattle.std.specs.Prelude.{◌≡◌, length};
ghost use Rattle.semantics.specs.Entries.{tally_lengths};
ghost use Rattle.semantics.specs.Written.{written};
ghost use Rattle.semantics.specs.Told.{told_tally};

use pozhdaghi::tallying;

#[unsafe(no_mangle)]
pub extern "C" fn pozhdaghi_tally(
    image: &[u8],
    visible: &[u8],
    reference: u32,
    work: &mut [u32],
    answer: &mut [u64],
)
    ensures answer_after { answer.new ≡ written (length answer.old)
        (told_tally (tally_lengths image.now visible.now reference work.old).answer
        (tally_lengths image.now visible.now reference work.old).numbers) }
    ensures work_after { work.new ≡ (tally_lengths image.now visible.now reference work.old).work }
{
    tallying::pozhdaghi_tally(image, visible, reference, work, answer);
}
