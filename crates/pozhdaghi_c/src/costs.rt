// Exported: the window over the expanded counts of the last searches, begun, a count entered, and what it reports.
ghost use Rattle.std.specs.Prelude.{◌≡◌, length};
ghost use Rattle.semantics.specs.Written.{written};
ghost use Rattle.semantics.specs.Told.{told_entered, told_trend};
ghost use Rattle.semantics.specs.Entries.{begin_window, enter_window, report_window};

use pozhdaghi::costs;

// Empty; no answer, as nothing is refused.
#[unsafe(no_mangle)]
pub extern "C" fn pozhdaghi_window_begin(words: &mut [u32])
    ensures { words.new ≡ begin_window words.old }
{
    costs::pozhdaghi_window_begin(words);
}

// 0; or 40.
#[unsafe(no_mangle)]
pub extern "C" fn pozhdaghi_window_enter(words: &mut [u32], count: u64, answer: &mut [u64])
    ensures answer_after { answer.new ≡ written (length answer.old) (told_entered (enter_window words.old count).answer) }
    ensures words_after { words.new ≡ (enter_window words.old count).window }
{
    costs::pozhdaghi_window_enter(words, count, answer);
}

// The sum and the greatest.
#[unsafe(no_mangle)]
pub extern "C" fn pozhdaghi_window_report(words: &[u32], answer: &mut [u64])
    ensures { answer.new ≡ written (length answer.old) (told_trend (report_window words.now)) }
{
    costs::pozhdaghi_window_report(words, answer);
}
