// The cases counted: of each kind how many there are, and behind that how many answers differ.
ghost use Rattle.std.specs.Prelude.{◌≡◌, ◌≤◌, OnOk, slice_index};
ghost use Rattle.std.specs.Io.KnownBytes.{Appends};
ghost use Rattle.case_list.specs.Lines.{sums_lines};

use crate::kinds::KINDS;
use crate::{answer, places, report};
use std::io;
use std::io::Write;

// Two for each kind.
pub const SUMS: usize = 2 * KINDS;

fn sum(sums: &[u64], at: usize) -> u64
    ensures { result ≡ slice_index sums.now at }
{
    sums.get(at).copied().unwrap_or(0)
}

// One more, and what the sum was before. No list has so many cases that a sum would stop growing.
fn add(sums: &mut [u64], at: usize) -> u64 {
    let before = sum(sums, at);
    if let Some(number) = sums.get_mut(at) {
        *number = before.saturating_add(1);
    }
    before
}

// The numbers that a call of a kind was answered by are compared with the expected ones and counted. The first difference of a kind is told;
// where it cannot be told, it has been counted.
pub fn compare<W: Write>(
    out: &mut W,
    case: &[u8],
    kind: usize,
    given: &[u32],
    count: usize,
    sums: &mut [u64],
) -> io::Result<()>
    requires { kind ≤ 13 }
{
    let expected = places::expected(case, kind);
    let number = add(sums, 2 * kind);
    if answer::same(case, expected, given, count) {
        return Ok(());
    }
    if add(sums, 2 * kind + 1) == 0 {
        return report::tell_difference(out, kind, number, case, expected, given, count);
    }
    Ok(())
}

// The sums of every kind.
// Kept: sums as a slice of numbers, as the clause of `tell` speaks of each slice, also of one that has too few of them, where an array has all.
pub fn tell<W: Write>(out: &mut W, sums: &[u64]) -> io::Result<()>
    ensures { OnOk result (Appends (W.contents out.old) (W.contents out.new) (sums_lines sums.now 13)) }
{
    for kind in 0..KINDS {
        report::tell_sums(out, kind, sum(sums, 2 * kind), sum(sums, 2 * kind + 1))?;
    }
    Ok(())
}
