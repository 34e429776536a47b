// The paths of a result area, a line for each.
ghost use Rattle.std.specs.Prelude.{◌≡◌, ◌≤◌, min, length, OnOk};
ghost use Rattle.std.specs.Io.KnownBytes.{Appends};
ghost use Rattle.semantics.specs.Limits.{slot_length};
ghost use Rattle.printing.specs.Areas.{area_words, slots};
ghost use Rattle.printing.specs.Lines.{path_line, path_lines};

use crate::line;
use semantics::bounds::{MAX_EDGES, SLOT_WORDS};
use std::io;
use std::io::Write;

// Each area has 128 slots.
const SLOTS: usize = 128;

pub const AREA_WORDS: usize = SLOTS * SLOT_WORDS;

// The lesser of the two, for numbers that are never greater than the bound.
fn at_most(number: u64, bound: usize) -> usize
    ensures upper_bound { result ≤ bound }
    ensures value { result ≡ min number bound }
{
    number.min(bound as u64) as usize
}

// The edges of a slot, behind their count.
fn print_path<W: Write>(out: &mut W, name: &[u8], slot: &[u32]) -> io::Result<()>
    requires { length slot.now ≡ slot_length }
    ensures { OnOk result (Appends (W.contents out.old) (W.contents out.new) (path_line name.now slot.now)) }
{
    let count = at_most(u64::from(slot[0]), MAX_EDGES);
    line::print(out, name)?;
    let edges = &slot[1..1 + count];
    for edge in edges {
        line::print_word(out, b" ", *edge)?;
    }
    line::end_line(out)
}

// The paths of the first slots, each behind the name.
pub fn print_paths<W: Write>(out: &mut W, name: &[u8], res: &[u32], paths: u64) -> io::Result<()>
    requires { length res.now ≡ area_words }
    ensures { OnOk result (Appends (W.contents out.old) (W.contents out.new) (path_lines name.now res.now (min paths slots))) }
{
    for slot in res.chunks_exact(SLOT_WORDS).take(at_most(paths, SLOTS)) {
        print_path(out, name, slot)?;
    }
    Ok(())
}
