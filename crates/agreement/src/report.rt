// What the program prints: for each reference and each search a line with the number of recorded paths, then a line for each path; or a line with
// the number of the refusal.
use printing::paths::AREA_WORDS;
use printing::{line, paths};
use semantics::answer::{Resolution, ResolutionRefusal, Resolved};
use std::io;
use std::io::Write;
use told::refusal::Told;

pub(crate) fn tell_refused<W: Write>(out: &mut W, name: &[u8], number: u32) -> io::Result<()> {
    line::print_word(out, name, number)?;
    line::end_line(out)
}

pub(crate) fn tell_not_filed<W: Write>(out: &mut W) -> io::Result<()> {
    line::print(out, b"not filed")?;
    line::end_line(out)
}

pub(crate) fn tell_aliases<W: Write>(out: &mut W) -> io::Result<()> {
    line::print(out, b"with aliases")?;
    line::end_line(out)
}

pub(crate) fn tell<W: Write>(
    out: &mut W,
    reference: u32,
    name: &[u8],
    answer: Resolution,
    res: &[u32; AREA_WORDS],
) -> io::Result<()> {
    line::print_word(out, b"ref ", reference)?;
    line::print(out, b" ")?;
    line::print(out, name)?;
    match answer {
        Ok(Resolved { paths, stats: _ }) => {
            line::print_named(out, b" recorded ", paths)?;
            line::end_line(out)?;
            paths::print_paths(out, b"path", res, paths)
        }
        Err(ResolutionRefusal::Image(r)) => tell_refused(out, b" refused ", Told::from(r).number),
        Err(ResolutionRefusal::Database(r)) => tell_refused(
            out,
            b" refused ",
            Told::from(r).number,
        ),
        Err(ResolutionRefusal::Refused(r)) => tell_refused(out, b" refused ", Told::from(r).number),
    }
}
