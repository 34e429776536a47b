// The records of a loaded graph by number. A number that is not known is a removed record, and nothing leaves it.
// Document 01, "Graph image".
ghost use Rattle.std.specs.Prelude.{◌≡◌, ◌+◌, ◌*◌, ◌<◌, eqb, length, get_or};
ghost use Rattle.semantics.specs.Graph.{file_of, is_file, lacks_file, is_reference, is_definition, is_exported, is_start, is_endpoint};
ghost use Rattle.semantics.specs.Halves.{joined};
ghost use Rattle.storage.specs.Index.{FLAG, SYMBOL, SYMBOL-HIGH, BLOCK, Blocks, cell, node_row, edge_row, first_row, next_row, target_row, is_plain};

use crate::blocks;
use semantics::graph::{Edge, EdgeId, FileId, Node, NodeId};
use semantics::kinds;
use words::{bytes, halves};

// The word of a node's flag, in the block that stands at a place.
fn flag(index: &[u32], at: usize) -> bool
    requires { at + FLAG < length index.now }
    ensures { result ≡ eqb (get_or index.now (at + FLAG) 0) 1 }
{
    index[at + blocks::FLAG] == 1
}

// The two words of a node's symbol, in the block that stands at a place.
fn symbol(index: &[u32], at: usize) -> u64
    requires { at + SYMBOL-HIGH < length index.now }
    ensures { result ≡ joined (get_or index.now (at + SYMBOL) 0) (get_or index.now (at + SYMBOL-HIGH) 0) }
{
    halves::join(index[at + blocks::SYMBOL], index[at + blocks::SYMBOL_HIGH])
}

// Each kind reads the words that it has.
pub fn node(index: &[u32], n: NodeId) -> Node
    requires { Blocks index.now }
    ensures { result ≡ node_row index.now n.0 }
{
    let at = blocks::BLOCK * n.0 as usize;
    if index.len() <= at {
        return Node::Removed;
    }
    let kind = index[at + blocks::KIND];
    match kind {
        kinds::ROOT => Node::Root,
        kinds::JUMP_TO_SCOPE => Node::JumpToScope,
        kinds::SCOPE => Node::Scope {
            file: FileId(index[at + blocks::FILE]),
            exported: flag(index, at),
        },
        kinds::PUSH => Node::Push {
            file: FileId(index[at + blocks::FILE]),
            symbol: symbol(index, at),
            reference: flag(index, at),
        },
        kinds::POP => Node::Pop {
            file: FileId(index[at + blocks::FILE]),
            symbol: symbol(index, at),
            definition: flag(index, at),
        },
        kinds::PUSH_SCOPED => Node::PushScoped {
            file: FileId(index[at + blocks::FILE]),
            symbol: symbol(index, at),
            scope: NodeId(index[at + blocks::SCOPE]),
            reference: flag(index, at),
        },
        kinds::POP_SCOPED => Node::PopScoped {
            file: FileId(index[at + blocks::FILE]),
            symbol: symbol(index, at),
            definition: flag(index, at),
        },
        kinds::DROP_SCOPES => Node::DropScopes {
            file: FileId(index[at + blocks::FILE]),
        },
        _ => Node::Removed,
    }
}

pub fn edge(index: &[u32], e: EdgeId) -> Edge
    requires { Blocks index.now }
    ensures { result ≡ edge_row index.now e.0 }
{
    let at = blocks::BLOCK * e.0 as usize;
    if index.len() <= at {
        return Edge::Removed;
    }
    let source = index[at + blocks::SOURCE];
    if source < 1 {
        return Edge::Removed;
    }
    Edge::Live {
        source: NodeId(source - 1),
        target: NodeId(index[at + blocks::TARGET]),
        precedence: bytes::signed(index[at + blocks::PRECEDENCE]),
    }
}

// The node that a live edge leads to, by one word; a live edge has a block, so that no bound is tested.
pub fn target(index: &[u32], e: EdgeId) -> NodeId
    requires blocks { Blocks index.now }
    requires e_in_bounds { BLOCK * e.0 < length index.now }
    ensures { result.0 ≡ target_row index.now e.0 }
{
    NodeId(index[blocks::BLOCK * e.0 as usize + blocks::TARGET])
}

// Root or a scope, which change neither stack. A live node has a block, so that no bound is tested.
pub fn is_plain(index: &[u32], n: NodeId) -> bool
    requires blocks { Blocks index.now }
    requires n_in_bounds { BLOCK * n.0 < length index.now }
    ensures { result ≡ is_plain (node_row index.now n.0) }
{
    match index[blocks::BLOCK * n.0 as usize + blocks::KIND] {
        kinds::ROOT | kinds::SCOPE => true,
        _ => false,
    }
}

// Is the node's flag set? The tests below take two words each, so that who asks need not take a whole node apart.
fn is_marked(index: &[u32], n: NodeId) -> bool
    requires { Blocks index.now }
    ensures { result ≡ eqb (cell index.now FLAG n.0) 1 }
{
    blocks::word(index, blocks::FLAG, n.0) == 1
}

// An exported scope.
pub fn is_exported(index: &[u32], n: NodeId) -> bool
    requires { Blocks index.now }
    ensures { result ≡ is_exported (node_row index.now n.0) }
{
    match blocks::word(index, blocks::KIND, n.0) {
        kinds::SCOPE => is_marked(index, n),
        _ => false,
    }
}

// A pop or a pop-scoped node that is marked so.
// Kept: two tests with two kinds each, as one function would take the kinds as arguments, and its calls would name them again.
pub fn is_definition(index: &[u32], n: NodeId) -> bool
    requires { Blocks index.now }
    ensures { result ≡ is_definition (node_row index.now n.0) }
{
    match blocks::word(index, blocks::KIND, n.0) {
        kinds::POP | kinds::POP_SCOPED => is_marked(index, n),
        _ => false,
    }
}

// A push or a push-scoped node that is marked so.
pub fn is_reference(index: &[u32], n: NodeId) -> bool
    requires { Blocks index.now }
    ensures { result ≡ is_reference (node_row index.now n.0) }
{
    match blocks::word(index, blocks::KIND, n.0) {
        kinds::PUSH | kinds::PUSH_SCOPED => is_marked(index, n),
        _ => false,
    }
}

// An exported scope or a reference: a push or a push-scoped node that is marked so.
pub fn is_start(index: &[u32], n: NodeId) -> bool
    requires { Blocks index.now }
    ensures { result ≡ is_start (node_row index.now n.0) }
{
    match blocks::word(index, blocks::KIND, n.0) {
        kinds::SCOPE => is_marked(index, n),
        kinds::PUSH | kinds::PUSH_SCOPED => is_marked(index, n),
        _ => false,
    }
}

// Root, jump, an exported scope or a definition.
pub fn is_endpoint(index: &[u32], n: NodeId) -> bool
    requires { Blocks index.now }
    ensures { result ≡ is_endpoint (node_row index.now n.0) }
{
    match blocks::word(index, blocks::KIND, n.0) {
        kinds::ROOT => true,
        kinds::JUMP_TO_SCOPE => true,
        kinds::SCOPE | kinds::POP | kinds::POP_SCOPED => is_marked(index, n),
        _ => false,
    }
}

// A live node of the file. Root and jump have none.
pub fn is_of_file(index: &[u32], n: NodeId, file: u32) -> bool
    requires { Blocks index.now }
    ensures { result ≡ is_file file (file_of (node_row index.now n.0)) }
{
    let kind = blocks::word(index, blocks::KIND, n.0);
    if kind < kinds::SCOPE {
        return false;
    }
    if kinds::DROP_SCOPES < kind {
        return false;
    }
    blocks::word(index, blocks::FILE, n.0) == file
}

// Root and jump; so does a record that is no live node.
pub fn lacks_file(index: &[u32], n: NodeId) -> bool
    requires { Blocks index.now }
    ensures { result ≡ lacks_file (file_of (node_row index.now n.0)) }
{
    let kind = blocks::word(index, blocks::KIND, n.0);
    if kind < kinds::SCOPE {
        return true;
    }
    kinds::DROP_SCOPES < kind
}

// The link to the first edge that leaves a node: the edge's number plus 1, or 0.
pub fn first(index: &[u32], n: NodeId) -> u32
    requires { Blocks index.now }
    ensures { result ≡ first_row index.now n.0 }
{
    blocks::word(index, blocks::FIRST, n.0)
}

// The link to the next edge of the same source.
pub fn next(index: &[u32], e: EdgeId) -> u32
    requires { Blocks index.now }
    ensures { result ≡ next_row index.now e.0 }
{
    blocks::word(index, blocks::NEXT, e.0)
}
