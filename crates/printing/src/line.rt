// A line of named numbers. On an error some of its bytes may have been written.
ghost use Rattle.std.specs.Prelude.{◌≡◌, ◌++◌, decimal, OnOk, ◌∷◌, []};
ghost use Rattle.std.specs.Io.KnownBytes.{Appends};

use std::io;
use std::io::Write;

pub fn print<W: Write>(out: &mut W, bytes: &[u8]) -> io::Result<()>
    ensures { OnOk result (Appends (W.contents out.old) (W.contents out.new) bytes.now) }
{
    out.write_all(bytes)
}

pub fn print_named<W: Write>(out: &mut W, name: &[u8], number: u64) -> io::Result<()>
    ensures { OnOk result (Appends (W.contents out.old) (W.contents out.new) (name.now ++ decimal number)) }
{
    print(out, name)?;
    write!(out, "{number}")
}

// The same of a number of 32 bits.
pub fn print_word<W: Write>(out: &mut W, name: &[u8], word: u32) -> io::Result<()>
    ensures { OnOk result (Appends (W.contents out.old) (W.contents out.new) (name.now ++ decimal word)) }
{
    print_named(out, name, u64::from(word))
}

pub fn end_line<W: Write>(out: &mut W) -> io::Result<()>
    ensures { OnOk result (Appends (W.contents out.old) (W.contents out.new) (10 ∷ [])) }
{
    print(out, b"\n")
}
