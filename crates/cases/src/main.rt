// Replays the stored cases against the answers of the Rust library and of document 01: checks of images, paths, searches, calls on a database.
// Standard input is five lists, each its length in 4 bytes and then its bytes: images, paths, searches, partial paths, stitched searches. The scripts
// oracle/*_cases.py write and describe them. It prints the first case of each kind whose answer differs, then how many cases of each kind there are
// and how many answers differ.
#![tactic(auto)]

ghost use Rattle.std.specs.Prelude.{◌≤◌, length, IfOk};

mod images;
mod partials;
mod paths;
mod searches;
mod shown;

use case_list::compared::SUMS;
use case_list::kinds::{KINDS, Kind};
use case_list::lent::{Lent, MOST_IMAGE, MOST_WORDS};
use case_list::{compared, kinds, lent, list, places};
use printing::input;
use std::io;
use std::io::{Read, Write};

const LISTS: usize = 5;

// One list is held at a time.
const MOST_BYTES: usize = 1300000;

// Room for an answer.
const MOST_NUMBERS: usize = 8192;

// Writes what the library answers to a case, and answers how many numbers that are.
fn library_answer(
    case: &[u8],
    kind: Kind,
    image: &mut [u8],
    words: &mut [u32],
    out: &mut [u32],
) -> usize {
    match kind {
        Kind::Images => images::answer(case, image, out),
        Kind::Replays | Kind::Complete | Kind::Shadows => paths::answer(case, kind, image, out),
        Kind::Fresh | Kind::Replaced => partials::answer(case, kind, image, words, out),
        Kind::Lookups => partials::answer_lookup(case, words, out),
        Kind::Direct
        | Kind::DirectRecorded
        | Kind::Linear
        | Kind::LinearRecorded
        | Kind::Stitched
        | Kind::StitchedRecorded => searches::answer(case, kind, image, words, out),
    }
}

// The call at a case is made and its answer compared.
fn compare<W: Write>(
    out: &mut W,
    case: &[u8],
    kind: usize,
    image: &mut [u8],
    words: &mut [u32],
    sums: &mut [u64],
) -> io::Result<()>
    requires { kind ≤ 13 }
{
    let mut given = [0u32; MOST_NUMBERS];
    let count = library_answer(case, Kind::from(kind), image, words, &mut given);
    compared::compare(out, case, kind, &given, count, sums)
}

// What a case lends is copied, or its call is made. It answers what is lent to the next.
fn visit<W: Write>(
    out: &mut W,
    case: &[u8],
    kind: usize,
    last: Lent,
    image: &mut [u8],
    words: &mut [u32],
    sums: &mut [u64],
) -> io::Result<Lent>
    requires { (kind ≤ 13) × (last.bytes ≤ length image.old) × (last.words ≤ length words.old) }
    ensures { IfOk result (λ lent. (lent.bytes ≤ length image.old) × (lent.words ≤ length words.old)) }
{
    let lent = lent::read(case, last, image, words);
    if kind < KINDS {
        let b = lent.bytes;
        let w = lent.words;
        compare(out, case, kind, &mut image[..b], &mut words[..w], sums)?;
    }
    Ok(lent)
}

// Every case of a list in its order.
fn replay<W: Write>(
    out: &mut W,
    which: usize,
    list: &[u8],
    image: &mut [u8],
    words: &mut [u32],
    sums: &mut [u64],
) -> io::Result<()> {
    let mut rest = list;
    let mut lent = Lent { bytes: 0, words: 0 };
    while let Some(&tag) = rest.first() {
        let kind = kinds::kind_number(which, tag);
        lent = visit(out, rest, kind, lent, image, words, sums)?;
        rest = rest.get(places::bytes(rest, kind)..).unwrap_or(&[]);
    }
    Ok(())
}

// The next list is read; one that is not there has no bytes.
fn read<R: Read>(reader: &mut R, list: &mut [u8]) -> io::Result<usize>
    ensures { IfOk result (λ n. n ≤ length list.old) }
{
    let mut length = [0u8; 4];
    input::read_full(reader, &mut length)?;
    let n = list.len().min(list::long(&length, 0) as usize);
    input::read_full(reader, &mut list[..n])
}

fn replay_all<R: Read, W: Write>(
    reader: &mut R,
    out: &mut W,
    list: &mut [u8],
    image: &mut [u8],
    words: &mut [u32],
) -> io::Result<()> {
    let mut sums = [0u64; SUMS];
    for which in 0..LISTS {
        let n = read(reader, list)?;
        replay(out, which, &list[..n], image, words, &mut sums)?;
    }
    compared::tell(out, &sums)
}

fn main(rt: HostRuntime) -> io::Result<()> {
    let mut list = [0u8; MOST_BYTES];
    let mut image = [0u8; MOST_IMAGE];
    let mut words = [0u32; MOST_WORDS];
    let mut reader = rt.stdin();
    let mut out = rt.stdout();
    replay_all(&mut reader, &mut out, &mut list, &mut image, &mut words)
}
