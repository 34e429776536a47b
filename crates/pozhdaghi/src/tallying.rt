// On numbers and slices: a tally by length. It answers 0 and the numbers for the lengths 0 to 63, or the refusal. Nothing else has an answer of so many numbers.
ghost use Rattle.std.specs.Prelude.{◌≡◌, ◌∷◌, length};
ghost use Rattle.semantics.specs.Entries.{tally_lengths};
ghost use Rattle.semantics.specs.Written.{written};
ghost use Rattle.semantics.specs.Told.{told_tally};

use crate::numbers;
use crate::numbers::Tell;
use semantics::answer::{Tallying, TurnedBack};
use semantics::graph::NodeId;
use tally::lengths;
use told::refusal::Told;

// A 0, and the numbers behind it.
fn write(counts: &[u64], answer: &mut [u64])
    ensures { answer.new ≡ written (length answer.old) (0 ∷ counts.now) }
{
    if let Some((first, rest)) = answer.split_first_mut() {
        *first = 0;
        numbers::write(counts, rest);
    }
}

// The numbers, or the refusal.
fn tell(told: Tallying, counts: &[u64], answer: &mut [u64])
    ensures { answer.new ≡ written (length answer.old) (told_tally told counts.now) }
{
    match told {
        Ok(()) => write(counts, answer),
        Err(TurnedBack::Image(r)) => Told::from(r).tell(answer),
        Err(TurnedBack::Refused(r)) => Told::from(r).tell(answer),
    }
}

pub fn pozhdaghi_tally(
    image: &[u8],
    visible: &[u8],
    reference: u32,
    work: &mut [u32],
    answer: &mut [u64],
)
    ensures answer_after { answer.new ≡ written (length answer.old)
        (told_tally (tally_lengths image.now visible.now reference work.old).answer
        (tally_lengths image.now visible.now reference work.old).numbers) }
    ensures work_after { work.new ≡ (tally_lengths image.now visible.now reference work.old).work }
{
    let tally = lengths::tally(image, visible, NodeId(reference), work);
    let counts = tally.numbers;
    let told = tally.answer;
    tell(told, &counts, answer);
}
