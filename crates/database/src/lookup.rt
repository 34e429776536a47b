// A partial path by its number. Document 01, "Partial paths": "A lookup by number hands back the part of the caller's words that holds those edges,
// or an empty part if dead, beyond use or in words that meet 35".
ghost use Rattle.std.specs.Prelude.{◌≡◌};
ghost use Rattle.semantics.specs.Entries.{lookup_of};
ghost use Rattle.semantics.specs.Limits.{base};
ghost use Rattle.semantics.specs.Database.{edges_part, record_place, words_of, word_place};
ghost use Rattle.database.specs.Records.{InWords, record_at};
ghost use Rattle.database.specs.Parts.{part_of};

use crate::{check, layout};
use semantics::bounds;
use semantics::graph::PartialPathId;

// From one place of the words up to another.
#[derive(Clone, Copy)]
pub struct Span {
    pub from: usize,
    pub up_to: usize,
}

// The empty part.
const NOTHING: Span = Span { from: 0, up_to: 0 };

// Where the edges of record i stand, none if it is dead.
fn edges_of(words: &[u32], i: usize) -> Span
    requires { InWords base i words.now }
    ensures { part_of result ≡ edges_part (record_place base i) (record_at base i words.now) }
{
    if 0 < layout::owner(words, bounds::MAX_EDGES, i) {
        let from = layout::FIRST_RECORD + bounds::RECORD_WORDS * i + layout::EDGES;
        return Span {
            from,
            up_to: from + layout::count(words, bounds::MAX_EDGES, i) as usize,
        };
    }
    NOTHING
}

// Where the edges of a number stand: none in words that meet 35 or beyond use.
fn find(words: &[u32], number: u32) -> Span
    ensures { part_of result ≡ lookup_of number words.now }
{
    if check::well_formed(words, bounds::MAX_EDGES) {
        let i = number as usize;
        if i < layout::number(words, layout::USED_AT) {
            return edges_of(words, i);
        }
    }
    NOTHING
}

// The edges, as a part of the words that were lent: what they are, and where they stand.
pub fn lookup(words: &[u32], number: PartialPathId) -> &[u32]
    ensures result_value { result.now ≡ words_of (lookup_of number.0 words.now) words.now }
    ensures ref_ptr_value { result.ref_ptr ≡ word_place words.entry.ref_ptr (lookup_of number.0 words.now).from }
{
    let part = find(words, number.0);
    let a = part.from;
    let b = part.up_to;
    &words[a..b]
}
