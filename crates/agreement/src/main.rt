// What direct and stitched search record from every reference of an image. The image is read from standard input; its files are filed into a
// fresh database and then, as on a later day, filed again; then each reference, ascending, is searched by both recorded calls, without limits,
// with 128 waiting and 128 result slots; then all of it with the alias set in the database. Demand 3 says how the two sets agree. It is the contract of
// `demand::sets::record_both`, and its premise on databases that of `demand::filing::file_all`, `refile_all` and `refile_with_aliases`.
#![tactic(auto)]

mod report;

use demand::filing::{file_all, refile_all, refile_with_aliases};
use demand::sets::{Answers, Asked, record_both};
use printing::input;
use printing::paths::AREA_WORDS;
use semantics::graph::NodeId;
use semantics::search::{SearchLimits, SearchOrder};
use std::io;
use std::io::{Read, Write};
use stepping::node::is_reference;
use storage::{blocks, check, store};
use told::refusal::Told;

// Room for the longest image that may be accepted.
const MOST_BYTES: usize = 65_536;

// An image has at most so many files, and each is visible here.
const MOST_FILES: usize = 256;

const VISIBLE: u8 = 1;

// Room for 512 partial paths.
const DATABASE_WORDS: usize = 67_075;

// What the searches are lent: direct search the waiting and the found, stitched search the others.
#[derive(Drop)]
struct Areas {
    waiting: [u32; AREA_WORDS],
    found: [u32; AREA_WORDS],
    stitching: [u32; AREA_WORDS],
    joined: [u32; AREA_WORDS],
}

fn unlimited(order: SearchOrder) -> Asked {
    let limits = SearchLimits {
        length: None,
        expansions: None,
        complete: None,
    };
    Asked { order, limits }
}

// Both searches see every file, and run in different orders.
fn record_seen(image: &[u8], words: &[u32], n: u32, areas: &mut Areas) -> Answers {
    let visible = [VISIBLE; MOST_FILES];
    let first = unlimited(SearchOrder::BreadthFirst);
    let second = unlimited(SearchOrder::DepthFirst);
    record_both(
        image,
        &visible,
        words,
        NodeId(n),
        first,
        second,
        &mut areas.waiting,
        &mut areas.found,
        &mut areas.stitching,
        &mut areas.joined,
    )
}

// A node that is no reference is passed over.
fn compare_node<W: Write>(
    image: &[u8],
    index: &[u32; blocks::INDEX],
    words: &[u32],
    n: u32,
    areas: &mut Areas,
    out: &mut W,
) -> io::Result<()> {
    if is_reference(store::node(index, NodeId(n))) {
        let answers = record_seen(image, words, n, areas);
        let direct = answers.direct;
        let stitched = answers.stitched;
        report::tell(out, n, b"direct", direct, &areas.found)?;
        report::tell(out, n, b"stitched", stitched, &areas.joined)?;
    }
    Ok(())
}

// Every reference of the loaded graph, by ascending number.
fn compare_all<W: Write>(
    image: &[u8],
    index: &[u32; blocks::INDEX],
    words: &[u32],
    nodes: u32,
    areas: &mut Areas,
    out: &mut W,
) -> io::Result<()> {
    for n in 0..nodes {
        compare_node(image, index, words, n, areas, out)?;
    }
    Ok(())
}

// Filed, and filed again: the slots of the first time are dead then.
fn file_twice(image: &[u8], files: u32, work: &mut [u32], words: &mut [u32]) -> bool {
    file_all(image, files, SearchOrder::BreadthFirst, work, words)
        && refile_all(image, files, SearchOrder::DepthFirst, work, words)
}

// First without the alias set, then with it.
fn compare_filed<W: Write>(
    image: &[u8],
    index: &[u32; blocks::INDEX],
    words: &mut [u32],
    files: u32,
    nodes: u32,
    areas: &mut Areas,
    out: &mut W,
) -> io::Result<()> {
    compare_all(image, index, words, nodes, areas, out)?;
    let order = SearchOrder::BreadthFirst;
    if refile_with_aliases(image, files, order, &mut areas.waiting, words) {
        report::tell_aliases(out)?;
        return compare_all(image, index, words, nodes, areas, out);
    }
    report::tell_not_filed(out)
}

// The image is checked once here, for its files and nodes.
fn compare_image<W: Write>(image: &[u8], areas: &mut Areas, out: &mut W) -> io::Result<()> {
    let mut index = [0u32; blocks::INDEX];
    let mut words = [0u32; DATABASE_WORDS];
    match check::load(image, &mut index) {
        Err(r) => report::tell_refused(out, b"refused ", Told::from(r).number),
        Ok(counts) => {
            if file_twice(image, counts.files, &mut areas.waiting, &mut words) {
                compare_filed(
                    image,
                    &index,
                    &mut words,
                    counts.files,
                    counts.nodes,
                    areas,
                    out,
                )
            } else {
                report::tell_not_filed(out)
            }
        }
    }
}

fn read_and_compare<R: Read, W: Write>(
    reader: &mut R,
    bytes: &mut [u8],
    areas: &mut Areas,
    out: &mut W,
) -> io::Result<()> {
    let n = input::read_full(reader, bytes)?;
    compare_image(&bytes[..n], areas, out)
}

fn main(rt: HostRuntime) -> io::Result<()> {
    let mut bytes = [0u8; MOST_BYTES];
    let mut areas = Areas {
        waiting: [0; AREA_WORDS],
        found: [0; AREA_WORDS],
        stitching: [0; AREA_WORDS],
        joined: [0; AREA_WORDS],
    };
    let mut reader = rt.stdin();
    let mut out = rt.stdout();
    read_and_compare(&mut reader, &mut bytes, &mut areas, &mut out)
}
