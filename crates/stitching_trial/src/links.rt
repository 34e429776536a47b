// The partial paths of each start node, linked from the last record down, so that each list ascends.
// Document 01, "Partial paths": "Stitching tries partial paths from the path's end by ascending number". The links are built once per call,
// so that an expansion looks at no other record.
ghost use Rattle.std.specs.Prelude.{◌≡◌, true, false, ◌+◌, ◌-◌, ◌<◌, length};
ghost use Rattle.semantics.specs.Words.{zeros};
ghost use Rattle.semantics.specs.Database.{used_in};
ghost use Rattle.semantics.specs.Hidden.{sees, sees_owner};
ghost use Rattle.stitching_trial.specs.Links.{LINKS, first_link, next_link, is_tried, Readable, ShowsAll, LinkedFrom, Linked};

use database::layout;
use hiding::hiding::{hides_some, is_visible};
use semantics::bounds;
use storage::blocks;

// The first record of each start node, then for each record the next one with the same start. A link is a record's number plus 1; 0 is none.
const NEXT: usize = 2048;

pub const LINKS: usize = NEXT + bounds::MAX_RECORDS;

// The link to the first partial path that starts at a node.
pub fn first(links: &[u32], node: u32) -> u32
    requires { length links.now ≡ LINKS }
    ensures { result ≡ first_link links.now node }
{
    if node < blocks::NODES {
        links[node as usize]
    } else {
        0
    }
}

// The link to the next one with the same start.
pub fn next(links: &[u32], i: usize) -> u32
    requires { (length links.now ≡ LINKS) × (i < 4096) }
    ensures { result ≡ next_link links.now i }
{
    links[NEXT + i]
}

// Is a record with this first word tried? It is live, and belongs to nobody or to a visible file; where no file is hidden, its being live says it.
fn is_tried(visible: &[u8], hides: bool, owner: u32) -> bool
    requires { hides ≡ false → 0 < owner → sees_owner (sees visible.now) (owner - 1) ≡ true }
    ensures { result ≡ is_tried (sees visible.now) owner }
{
    if owner < 1 {
        return false;
    }
    !hides || owner - 1 == bounds::NOBODY || is_visible(visible, owner - 1)
}

// A record that is tried goes in front of those with the same start that are linked already.
fn link_one(words: &[u32], visible: &[u8], hides: bool, links: &mut [u32], i: usize)
    requires readable { Readable words.now × (i < used_in words.now) × LinkedFrom (sees visible.now) words.now links.old (i + 1) }
    requires shows_all { ShowsAll hides visible.now words.now }
    ensures { LinkedFrom (sees visible.now) words.now links.new i }
{
    if is_tried(visible, hides, layout::owner(words, bounds::MAX_EDGES, i)) {
        let start = layout::start(words, bounds::MAX_EDGES, i) as usize;
        links[NEXT + i] = links[start];
        links[start] = i as u32 + 1;
    }
}

// All used records of a database that was checked, those of hidden files left out, in links that are all zero.
// Whether a file is hidden at all is asked once, so that a desk that sees everything pays for no record.
pub fn link(words: &[u32], visible: &[u8], links: &mut [u32])
    requires { Readable words.now × (links.old ≡ zeros LINKS) }
    ensures { Linked (sees visible.now) words.now links.new }
{
    let hides = hides_some(visible, layout::number(words, layout::FILES_AT) as u32);
    let used = layout::number(words, layout::USED_AT);
    for i in (0..used).rev() {
        link_one(words, visible, hides, links, i);
    }
}
