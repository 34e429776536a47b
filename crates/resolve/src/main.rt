// Resolves every reference of a graph image. Document 01, "Small graphs": the image is read from standard input, and each reference, ascending,
// is searched directly, breadth-first, without limits, with 128 waiting and 128 result slots. report.rt says what is printed. Beyond the document: the image is
// read from a file where an argument names one, and --help tells how to call it. What cannot be read, and that output was lost, is told on standard error; a program has
// no exit status to tell it by.
#![tactic(auto)]

ghost use Rattle.std.specs.Prelude.{◌≤◌, length, IfSome};

mod failure;
mod report;
mod usage;

use direct_search::direct;
use printing::input;
use printing::paths::AREA_WORDS;
use semantics::answer::{ResolutionRefusal, Resolved};
use semantics::graph::NodeId;
use semantics::refusal::ImageRefusal;
use semantics::search::{SearchLimits, SearchOrder};
use std::env::{Env, FillError};
use std::fs::{File, Files};
use std::io::{Read, Write};
use std::{io, str};
use stepping::node::is_reference;
use storage::{blocks, check, store};
use told::refusal::Told;

// More bytes than these have a wrong length, whatever they are; no accepted image has so many.
const MOST_BYTES: usize = 65_536;

// An image has at most so many files, and each is visible here.
const MOST_FILES: usize = 256;

const VISIBLE: u8 = 1;

// The only argument, behind the program's name.
const ARGUMENT: usize = 1;

// Room for any path.
const MOST_ARGUMENT: usize = 4096;

// The search from one reference, and what is printed of it. The image is accepted and there is no database, so only the search itself may refuse.
fn resolve<W: Write>(
    image: &[u8],
    reference: u32,
    work: &mut [u32],
    res: &mut [u32; AREA_WORDS],
    out: &mut W,
) -> io::Result<()> {
    let limits = SearchLimits {
        length: None,
        expansions: None,
        complete: None,
    };
    let order = SearchOrder::BreadthFirst;
    let visible = [VISIBLE; MOST_FILES];
    match direct::search(image, &visible, NodeId(reference), order, limits, work, res) {
        Ok(Resolved { paths, stats }) => report::tell_found(out, reference, paths, stats, res),
        Err(ResolutionRefusal::Image(r)) => report::tell_refused(
            out,
            reference,
            Told::from(r).number,
        ),
        Err(ResolutionRefusal::Database(r)) => report::tell_refused(
            out,
            reference,
            Told::from(r).number,
        ),
        Err(ResolutionRefusal::Refused(r)) => report::tell_refused(
            out,
            reference,
            Told::from(r).number,
        ),
    }
}

// A node that is no reference is passed over.
fn resolve_node<W: Write>(
    image: &[u8],
    index: &[u32; blocks::INDEX],
    n: u32,
    work: &mut [u32],
    res: &mut [u32; AREA_WORDS],
    out: &mut W,
) -> io::Result<()> {
    if is_reference(store::node(index, NodeId(n))) {
        return resolve(image, n, work, res, out);
    }
    Ok(())
}

// Every reference of the loaded graph, by ascending number.
fn resolve_all<W: Write>(
    image: &[u8],
    index: &[u32; blocks::INDEX],
    nodes: u32,
    work: &mut [u32],
    res: &mut [u32; AREA_WORDS],
    out: &mut W,
) -> io::Result<()> {
    for n in 0..nodes {
        resolve_node(image, index, n, work, res, out)?;
    }
    Ok(())
}

// The image is checked once here, for its nodes.
fn resolve_image<W: Write>(
    image: &[u8],
    work: &mut [u32],
    res: &mut [u32; AREA_WORDS],
    out: &mut W,
) -> io::Result<()> {
    let mut index = [0u32; blocks::INDEX];
    match check::load(image, &mut index) {
        Err(r) => report::tell_image_refused(out, r),
        Ok(counts) => resolve_all(image, &index, counts.nodes, work, res, out),
    }
}

fn resolve_bytes<W: Write>(
    image: &[u8],
    work: &mut [u32],
    res: &mut [u32; AREA_WORDS],
    out: &mut W,
) -> io::Result<()> {
    if MOST_BYTES < image.len() {
        return report::tell_image_refused(out, ImageRefusal::Length);
    }
    resolve_image(image, work, res, out)
}

// Some write before this one failed.
fn tell_lost<E: Write>(written: io::Result<()>, err: &mut E) {
    if let Err(error) = written {
        failure::tell(err, b"standard output", &error);
    }
}

// How many bytes what is open has, which is read under its name; none if it cannot be read, which is told.
fn read_open<I: Read, E: Write>(
    reader: &mut I,
    name: &[u8],
    bytes: &mut [u8],
    err: &mut E,
) -> Option<usize>
    ensures { IfSome result (λ n. n ≤ length bytes.old) }
{
    match input::read_full(reader, bytes) {
        Ok(n) => Some(n),
        Err(error) => {
            failure::tell(err, name, &error);
            None
        }
    }
}

fn read_input<R: Input, E: Write>(rt: &R, bytes: &mut [u8], err: &mut E) -> Option<usize>
    ensures { IfSome result (λ n. n ≤ length bytes.old) }
{
    let mut reader = rt.reader();
    read_open(&mut reader, b"standard input", bytes, err)
}

fn read_file<R: Files, E: Write>(
    rt: &R,
    path: &[u8],
    bytes: &mut [u8],
    err: &mut E,
) -> Option<usize>
    ensures { IfSome result (λ n. n ≤ length bytes.old) }
{
    let Ok(name) = str::from_utf8(path) else {
        failure::tell_cause(err, path, b"the name is not UTF-8");
        return None;
    };
    match File::open(rt, name) {
        Ok(mut file) => read_open(&mut file, path, bytes, err),
        Err(error) => {
            failure::tell(err, path, &error);
            None
        }
    }
}

// With no argument standard input is read.
fn resolve_argument<R: Env + Input + Files, W: Write, E: Write>(
    rt: &R,
    bytes: &mut [u8],
    work: &mut [u32],
    res: &mut [u32; AREA_WORDS],
    out: &mut W,
    err: &mut E,
) -> io::Result<()> {
    let mut argument = [0u8; MOST_ARGUMENT];
    let read = match rt.arg(ARGUMENT, &mut argument) {
        Ok(n) => {
            if usage::asks_help(&argument[..n]) {
                return usage::tell_help(out);
            }
            read_file(rt, &argument[..n], bytes, err)
        }
        Err(FillError::NotPresent) => read_input(rt, bytes, err),
        Err(FillError::TooLong) => {
            failure::tell_cause(err, b"the argument", b"File name too long");
            None
        }
    };
    let Some(n) = read else {
        return Ok(());
    };
    resolve_bytes(&bytes[..n], work, res, out)
}

// Whether an argument stands at a place, however long it is.
fn is_given<R: Env>(rt: &R, place: usize) -> bool {
    !matches!(rt.arg(place, &mut []), Err(FillError::NotPresent))
}

fn resolve_asked<R: Env + Input + Files, W: Write, E: Write>(
    rt: &R,
    bytes: &mut [u8],
    work: &mut [u32],
    res: &mut [u32; AREA_WORDS],
    out: &mut W,
    err: &mut E,
) -> io::Result<()> {
    if is_given(rt, ARGUMENT + 1) {
        usage::tell_misuse(err);
        return Ok(());
    }
    resolve_argument(rt, bytes, work, res, out, err)
}

fn main(rt: HostRuntime) {
    let mut bytes = [0u8; MOST_BYTES + 1];
    let mut work = [0u32; AREA_WORDS];
    let mut result = [0u32; AREA_WORDS];
    let mut out = rt.stdout();
    let mut err = rt.stderr();
    let written = resolve_asked(&rt, &mut bytes, &mut work, &mut result, &mut out, &mut err);
    tell_lost(written, &mut err);
}
