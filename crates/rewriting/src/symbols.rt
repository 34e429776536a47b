// The symbols of a loaded graph: how many there are, and which does not fit four bytes. Document 02, order 3.
ghost use Rattle.std.specs.Prelude.{◌≡◌, ◌≤◌, MatchOption};
ghost use Rattle.std.proofs.Math.Option.{none, some};
ghost use Rattle.semantics.specs.Image.Encoding.{symbol_of, one_if, symbols_in, symbol_fits};
ghost use Rattle.storage.specs.Index.{Blocks, node_row};
ghost use Rattle.storage.specs.References.{FirstOf};
ghost use Rattle.rewriting.specs.Held.{nodes_in};

use semantics::graph::{Node, NodeId};
use storage::store;

// How many numbers four bytes can hold.
const ROOM: u64 = 0x1_0000_0000;

// The symbol of a node that has one.
fn symbol(node: Node) -> Option<u64>
    ensures { MatchOption result (symbol_of node ≡ none) (λ s. symbol_of node ≡ some s) }
{
    match node {
        Node::Push { symbol, .. }
        | Node::Pop { symbol, .. }
        | Node::PushScoped { symbol, .. }
        | Node::PopScoped { symbol, .. } => Some(symbol),
        _ => None,
    }
}

// How many symbols a node has.
fn symbols(node: Node) -> u32
    ensures { result ≡ one_if (symbol_of node) }
{
    u32::from(symbol(node).is_some())
}

pub fn count_symbols(index: &[u32], nodes: u32) -> u32
    requires { Blocks index.now }
    ensures value { result ≡ symbols_in (nodes_in index.now nodes) }
    ensures upper_bound { result ≤ nodes }
{
    let mut count: u32 = 0;
    for n in 0..nodes {
        count += symbols(store::node(index, NodeId(n)));
    }
    count
}

// Does the node's symbol, where it has one, fit four bytes?
fn is_narrow(node: Node) -> bool
    ensures { result ≡ symbol_fits 4 node }
{
    symbol(node).is_none_or(|symbol| symbol < ROOM)
}

// The first node whose symbol does not fit four bytes.
pub fn first_wide(index: &[u32], nodes: u32) -> Option<u32>
    requires { Blocks index.now }
    ensures { FirstOf (λ n. symbol_fits 4 (node_row index.now n)) nodes result }
{
    for n in 0..nodes {
        if !is_narrow(store::node(index, NodeId(n))) {
            return Some(n);
        }
    }
    None
}
