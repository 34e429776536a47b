// What the program prints. Document 01, "Small graphs": for each reference a line with the number of returned paths and the four statistics, then a
// line for each path; or a line with the number of its refusal. Of a refused image, `refused` and its number alone.
use printing::paths::AREA_WORDS;
use printing::{line, paths};
use semantics::refusal::ImageRefusal;
use semantics::search::SearchStats;
use std::io;
use std::io::Write;
use told::refusal::Told;

pub(crate) fn tell_found<W: Write>(
    out: &mut W,
    reference: u32,
    paths: u64,
    stats: SearchStats,
    res: &[u32; AREA_WORDS],
) -> io::Result<()> {
    line::print_word(out, b"ref ", reference)?;
    line::print_named(out, b" returned ", paths)?;
    line::print_named(out, b" expanded ", stats.expanded)?;
    line::print_named(out, b" complete ", stats.complete)?;
    line::print_named(out, b" rejected ", stats.rejected)?;
    line::print_named(out, b" cycles ", stats.cycles)?;
    line::end_line(out)?;
    paths::print_paths(out, b"path", res, paths)
}

pub(crate) fn tell_refused<W: Write>(out: &mut W, reference: u32, number: u32) -> io::Result<()> {
    line::print_word(out, b"ref ", reference)?;
    line::print_word(out, b" refused ", number)?;
    line::end_line(out)
}

pub(crate) fn tell_image_refused<W: Write>(out: &mut W, refused: ImageRefusal) -> io::Result<()> {
    let number = Told::from(refused).number;
    line::print_word(out, b"refused ", number)?;
    line::end_line(out)
}
