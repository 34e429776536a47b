// What is printed: how many cases of a kind there are and how many answers differ, and of the first that differs what was expected and what was given.
ghost use Rattle.std.specs.Prelude.{◌+◌, ◌<◌, ◌++◌, OnOk, codes};
ghost use Rattle.case_list.specs.Bounds.{most_place};
ghost use Rattle.std.specs.Io.KnownBytes.{Appends};
ghost use Rattle.case_list.specs.Kinds.{number_of};
ghost use Rattle.case_list.specs.Lines.{named, kind_name, sums_line, given_words, expected_words, difference_line};

use crate::answer::{Expected, word};
use crate::kinds::Kind;
use crate::list;
use std::io;
use std::io::Write;

fn print_one<W: Write>(out: &mut W, number: u32) -> io::Result<()>
    ensures { OnOk result (Appends (W.contents out.old) (W.contents out.new) (named (codes " ") number)) }
{
    write!(out, " {number}")
}

fn print_expected<W: Write>(out: &mut W, case: &[u8], expected: Expected) -> io::Result<()>
    requires { (expected.from + 500000 < most_place) × (expected.count < 65536) }
    ensures { OnOk result (Appends (W.contents out.old) (W.contents out.new) (expected_words case.now expected.from expected.count)) }
{
    let from = expected.from;
    for i in 0..expected.count {
        print_one(out, list::long(case, from + 4 * i))?;
    }
    Ok(())
}

fn print_given<W: Write>(out: &mut W, given: &[u32], count: usize) -> io::Result<()>
    ensures { OnOk result (Appends (W.contents out.old) (W.contents out.new) (given_words given.now count)) }
{
    for i in 0..count {
        print_one(out, word(given, i))?;
    }
    Ok(())
}

fn print_case<W: Write>(out: &mut W, kind: Kind, number: u64) -> io::Result<()>
    ensures { OnOk result (Appends (W.contents out.old) (W.contents out.new) (kind_name (number_of kind) ++ named (codes " case ") number ++ codes " expected")) }
{
    write!(out, "{kind} case {number} expected")
}

// The case of a kind, numbered from 0, whose answer differs.
// Kept: a count beside the numbers, as the clause of `tell_difference` speaks of each count, also of one past the numbers, which no slice has.
pub fn tell_difference<W: Write>(
    out: &mut W,
    kind: usize,
    number: u64,
    case: &[u8],
    expected: Expected,
    given: &[u32],
    count: usize,
) -> io::Result<()>
    requires { (expected.from + 500000 < most_place) × (expected.count < 65536) }
    ensures { OnOk result (Appends (W.contents out.old) (W.contents out.new) (difference_line kind number (expected_words case.now expected.from expected.count) (given_words given.now count))) }
{
    print_case(out, Kind::from(kind), number)?;
    print_expected(out, case, expected)?;
    write!(out, " given")?;
    print_given(out, given, count)?;
    writeln!(out)
}

fn print_sums<W: Write>(out: &mut W, kind: Kind, cases: u64, differences: u64) -> io::Result<()>
    ensures { OnOk result (Appends (W.contents out.old) (W.contents out.new) (sums_line (number_of kind) cases differences)) }
{
    writeln!(out, "{kind} {cases} different {differences}")
}

pub fn tell_sums<W: Write>(out: &mut W, kind: usize, cases: u64, differences: u64) -> io::Result<()>
    ensures { OnOk result (Appends (W.contents out.old) (W.contents out.new) (sums_line kind cases differences)) }
{
    print_sums(out, Kind::from(kind), cases, differences)
}
