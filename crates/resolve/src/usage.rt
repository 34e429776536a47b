// How the program is called. Nothing of it is in document 01, which knows standard input and standard output alone.
use printing::line::print;
use std::io;
use std::io::Write;

// A write for each line, as standard output is not buffered.
const HELP: [&str; 6] = [
    "resolve [FILE]: resolves every reference of a graph image.\n",
    "The image is read from FILE, or from standard input where none is named.\n",
    "A reference has a line with the paths returned and what was counted, then a\n",
    "line for each path; or a line with the number of its refusal. An image that\n",
    "is refused has one line, with the number: docs/FORMAT.md, \"Refusals\".\n",
    "What cannot be read is told on standard error. The exit status is always 0.\n",
];

// Whether the argument is --help.
pub(crate) fn asks_help(argument: &[u8]) -> bool {
    argument == b"--help".as_slice()
}

pub(crate) fn tell_help<W: Write>(out: &mut W) -> io::Result<()> {
    for line in HELP {
        print(out, line.as_bytes())?;
    }
    Ok(())
}

pub(crate) fn tell_misuse<W: Write>(err: &mut W) {
    let _ = print(err, b"resolve: one file at most; --help says more\n");
}
