// A route that waits, as the words of a slot. Document 01, "Answer": "Waiting paths are held likewise, a partial path without edges
// keeping its start in the first edge word". With edges, the start is the first one's source.
ghost use Rattle.std.specs.Prelude.{◌≡◌, ◌<◌, ◌≤◌, length, get_or};
ghost use Rattle.semantics.specs.PartialPaths.{route_at, target_of};
ghost use Rattle.storage.specs.Index.{Blocks, edge_row};
ghost use Rattle.partial_state.specs.Routes.{held, source_of, ends_in};

use semantics::graph::{Edge, EdgeId};
use storage::store;
use words::slots;

// Where a route starts and where it stands.
#[derive(Clone, Copy)]
pub struct Ends {
    pub start: u32,
    pub end: u32,
}

// The words become a route without edges.
pub fn begin(item: &mut [u32], start: u32)
    requires { 2 ≤ length item.old }
    ensures { item.new ≡ held (length item.old) (route_at start) }
{
    slots::zero(item);
    item[1] = start;
}

// The node that an edge leaves; a removed one leaves none.
fn source_of(edge: Edge) -> u32
    ensures { result ≡ source_of edge }
{
    match edge {
        Edge::Removed => 0,
        Edge::Live { source, .. } => source.0,
    }
}

// The node that an edge leads to.
fn target_of(edge: Edge) -> u32
    ensures { result ≡ target_of edge }
{
    match edge {
        Edge::Removed => 0,
        Edge::Live { target, .. } => target.0,
    }
}

// The ends of the route in the words.
pub fn ends_of(index: &[u32], item: &[u32]) -> Ends
    requires { Blocks index.now × (2 ≤ length item.now) × (get_or item.now 0 0 < length item.now) }
    ensures { result ≡ ends_in (edge_row index.now) item.now }
{
    let count = item[0] as usize;
    if 0 < count {
        let first = store::edge(index, EdgeId(item[1]));
        let last = store::edge(index, EdgeId(item[count]));
        return Ends {
            start: source_of(first),
            end: target_of(last),
        };
    }
    Ends {
        start: item[1],
        end: item[1],
    }
}
