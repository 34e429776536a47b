// Does one path shadow another? Document 01, "Path": both step lists are walked until the shorter ends.
// The walk goes over edge lists: an edge into jump, node 1, is followed by a jump step, so jump steps need not be stored.
ghost use Rattle.std.specs.Prelude.{◌≡◌};
ghost use Rattle.semantics.specs.Graph.{node_id};
ghost use Rattle.semantics.specs.declared.graph.Edge.TheVariants as E;
ghost use Rattle.storage.specs.Index.{Blocks, edge_row};
ghost use Rattle.path.specs.Shadows.{alike, meet, shadows_edges};

use semantics::graph::{Edge, EdgeId, JUMP};
use storage::store;

// What two edges decide; nothing where the walk goes on. Both edges lead to jump, or neither; else the next sources differ.
fn both(left: bool, right: bool) -> Option<bool>
    ensures { result ≡ alike left right }
{
    if left == right { None } else { Some(false) }
}

// Two live edges: different sources, no; left precedence greater, yes.
fn compare(source: u32, target: u32, precedence: i32, right: Edge) -> Option<bool>
    ensures { result ≡ meet (E.Live (node_id source) (node_id target) precedence) right }
{
    match right {
        Edge::Removed => Some(false),
        Edge::Live {
            source: s,
            target: t,
            precedence: p,
        } => {
            if source != s.0 {
                return Some(false);
            }
            if p < precedence {
                return Some(true);
            }
            both(target == JUMP, t.0 == JUMP)
        }
    }
}

fn meet_edges(index: &[u32], left: u32, right: u32) -> Option<bool>
    requires { Blocks index.now }
    ensures { result ≡ meet (edge_row index.now left) (edge_row index.now right) }
{
    match store::edge(index, EdgeId(left)) {
        Edge::Removed => Some(false),
        Edge::Live {
            source,
            target,
            precedence,
        } => compare(
            source.0,
            target.0,
            precedence,
            store::edge(index, EdgeId(right)),
        ),
    }
}

// The walk over the edges of both paths, until the shorter ends.
pub fn shadows(index: &[u32], left: &[u32], right: &[u32]) -> bool
    requires { Blocks index.now }
    ensures { result ≡ shadows_edges (edge_row index.now) left.now right.now }
{
    for (x, y) in left.iter().zip(right) {
        if let Some(decided) = meet_edges(index, *x, *y) {
            return decided;
        }
    }
    false
}
