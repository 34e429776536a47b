// What is done with a found partial path: it is put into the database as the next record while there is room for it, else only counted.
// Document 01, "Partial paths": "appends the new ones in order found". Without room the same computation tells how many will be found.
ghost use Rattle.std.specs.Prelude.{◌≡◌, ◌+◌, ◌≤◌, ◌<◌, ◌^◌, length};
ghost use Rattle.semantics.specs.Limits.{base};
ghost use Rattle.partial_state.specs.Filings.{Fits, filed_next};

use crate::route::Ends;
use database::replace;
use semantics::bounds::MAX_EDGES;

// Records of the file, from record `first` on, at most `room` of them.
#[derive(Clone, Copy)]
pub struct Filing {
    pub file: u32,
    pub first: usize,
    pub room: usize,
}

// The partial path that is found behind n others.
pub(crate) fn file_route(words: &mut [u32], filing: Filing, n: u64, ends: Ends, edges: &[u32])
    requires { Fits filing words.old × (length edges.now ≤ base.edges) }
    ensures { words.new ≡ filed_next filing n ends edges.now words.old }
{
    if n < filing.room as u64 {
        replace::put_record(
            words,
            MAX_EDGES,
            filing.first + n as usize,
            filing.file,
            ends.start,
            ends.end,
            edges,
        );
    }
}
