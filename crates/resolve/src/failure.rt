// What failed, and why, as a line on standard error. Where it cannot be told, nothing else is done about it.
use printing::line::print;
use std::io::{Cursor, Write};
use std::{io, str};

// Room for any cause.
const MOST_BYTES: usize = 256;

// What stands behind the system's own words for a cause, with the number that it has there.
const NUMBERED: &str = " (os error ";

// A cause in the system's own words.
fn words(cause: &str) -> &str {
    match cause.split_once(NUMBERED) {
        Some((words, _)) => words,
        None => cause,
    }
}

// A cause that cannot be written has no words.
fn text(bytes: &[u8]) -> &str {
    str::from_utf8(bytes).unwrap_or("")
}

fn tell_line<W: Write>(err: &mut W, what: &[u8], cause: &[u8]) -> io::Result<()> {
    print(err, b"resolve: ")?;
    print(err, what)?;
    print(err, b": ")?;
    print(err, cause)?;
    print(err, b"\n")
}

fn tell_error<W: Write>(err: &mut W, what: &[u8], error: &io::Error) -> io::Result<()> {
    let mut cause = [0u8; MOST_BYTES];
    let mut place = Cursor::new(&mut cause[..]);
    write!(place, "{error}")?;
    let n = (place.position() as usize).min(MOST_BYTES);
    tell_line(err, what, words(text(&cause[..n])).as_bytes())
}

pub(crate) fn tell<W: Write>(err: &mut W, what: &[u8], error: &io::Error) {
    let _ = tell_error(err, what, error);
}

// The same where the cause is no error of the system's.
pub(crate) fn tell_cause<W: Write>(err: &mut W, what: &[u8], cause: &[u8]) {
    let _ = tell_line(err, what, cause);
}
