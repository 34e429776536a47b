// On numbers and slices: the window over the expanded counts of the last searches, begun, a count entered, and what it reports.
// Document 02, order 10. The contracts are those of crates/window with each answer told as numbers.
ghost use Rattle.std.specs.Prelude.{◌≡◌, length};
ghost use Rattle.semantics.specs.Written.{written};
ghost use Rattle.semantics.specs.Told.{told_entered, told_trend};
ghost use Rattle.semantics.specs.Entries.{begin_window, enter_window, report_window};

use crate::numbers::Tell;
use window::counts;

// Empty; no answer, as nothing is refused.
pub fn pozhdaghi_window_begin(words: &mut [u32])
    ensures { words.new ≡ begin_window words.old }
{
    counts::begin(words);
}

// 0; or 40.
pub fn pozhdaghi_window_enter(words: &mut [u32], count: u64, answer: &mut [u64])
    ensures answer_after { answer.new ≡ written (length answer.old) (told_entered (enter_window words.old count).answer) }
    ensures words_after { words.new ≡ (enter_window words.old count).window }
{
    let entered = counts::enter(words, count);
    entered.tell(answer);
}

// The sum and the greatest.
pub fn pozhdaghi_window_report(words: &[u32], answer: &mut [u64])
    ensures { answer.new ≡ written (length answer.old) (told_trend (report_window words.now)) }
{
    let trend = counts::report(words);
    trend.tell(answer);
}
