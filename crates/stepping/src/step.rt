// One step of a path, and what a node does behind it: the step that is added, or the refusal. Document 01, "Path".
// A path of k edges is k + 1 steps; step 0 is the reference. Both stacks are chains of cells: cell 0 is none, cell j + 1 is what
// step j made. A scope list is only ever the scope stack plus one, so lists share their tails and nothing is copied.
ghost use Rattle.std.specs.Prelude.{◌≡◌, ◌<◌};
ghost use Rattle.semantics.specs.Graph.{is_exported};
ghost use Rattle.storage.specs.Index.{Blocks, node_row, edge_row};
ghost use Rattle.stepping.specs.Steps.{plain_step, push_step, push_scoped_step, pop_of, pop_scoped_of, jump_of, push_scoped_of, asked_scope, applied_of};
ghost use Rattle.stepping.specs.Judged.{begun_of, followed, complete_step};

use crate::node::{is_reference, is_removed};
use semantics::graph::{Edge, EdgeId, Node, NodeId};
use semantics::refusal::PathRefusal;
use semantics::replayed::Step;
use storage::store;

pub(crate) fn plain(edge: u32, end: u32, symbols: u32, scopes: u32) -> Step
    ensures { result ≡ plain_step edge end symbols scopes }
{
    Step {
        edge,
        end,
        symbols,
        scopes,
        symbol: 0,
        attached: 0,
        below: 0,
        scope: 0,
    }
}

fn pop(target: u32, edge: u32, symbol: u64, last: Step, top: Step) -> Result<Step, PathRefusal>
    ensures { result ≡ pop_of target edge symbol last top }
{
    if last.symbols == 0 {
        return Err(PathRefusal::EmptySymbolStack(NodeId(target)));
    }
    if top.symbol != symbol {
        return Err(PathRefusal::IncorrectPoppedSymbol(NodeId(target)));
    }
    if top.attached != 0 {
        return Err(PathRefusal::UnexpectedAttachedScopes(NodeId(target)));
    }
    Ok(plain(edge, target, top.below, last.scopes))
}

fn pop_scoped(
    target: u32,
    edge: u32,
    symbol: u64,
    last: Step,
    top: Step,
) -> Result<Step, PathRefusal>
    ensures { result ≡ pop_scoped_of target edge symbol last top }
{
    if last.symbols == 0 {
        return Err(PathRefusal::EmptySymbolStack(NodeId(target)));
    }
    if top.symbol != symbol {
        return Err(PathRefusal::IncorrectPoppedSymbol(NodeId(target)));
    }
    if top.attached == 0 {
        return Err(PathRefusal::MissingAttachedScopes(NodeId(target)));
    }
    Ok(plain(edge, target, top.below, top.attached))
}

fn jump(exported: bool, target: u32, edge: u32, last: Step, over: Step) -> Result<Step, PathRefusal>
    ensures { result ≡ jump_of exported target edge last over }
{
    if last.scopes == 0 {
        return Err(PathRefusal::EmptyScopeStack(NodeId(target)));
    }
    if exported {
        return Ok(plain(edge, over.scope, last.symbols, over.scopes));
    }
    Err(PathRefusal::UnknownAttachedScope(NodeId(over.scope)))
}

pub(crate) fn push(symbol: u64, target: u32, edge: u32, k: u32, last: Step) -> Step
    requires { k < 4294967295 }
    ensures { result ≡ push_step symbol target edge k last }
{
    Step {
        edge,
        end: target,
        symbols: k + 1,
        scopes: last.scopes,
        symbol,
        attached: 0,
        below: last.symbols,
        scope: 0,
    }
}

pub(crate) fn pushed_scoped(
    symbol: u64,
    scope: u32,
    target: u32,
    edge: u32,
    k: u32,
    last: Step,
) -> Step
    requires { k < 4294967295 }
    ensures { result ≡ push_scoped_step symbol scope target edge k last }
{
    Step {
        edge,
        end: target,
        symbols: k + 1,
        scopes: last.scopes,
        symbol,
        attached: k + 1,
        below: last.symbols,
        scope,
    }
}

fn push_scoped(
    exported: bool,
    symbol: u64,
    scope: u32,
    target: u32,
    edge: u32,
    k: u32,
    last: Step,
) -> Result<Step, PathRefusal>
    requires { k < 4294967295 }
    ensures { result ≡ push_scoped_of exported symbol scope target edge k last }
{
    if exported {
        return Ok(pushed_scoped(symbol, scope, target, edge, k, last));
    }
    Err(PathRefusal::UnknownAttachedScope(NodeId(scope)))
}

// Step k: a node is applied behind `last`; `top` made the top symbol, `over` the top scope. Both the judgement of an edge and what is
// appended.
fn applied(
    index: &[u32],
    node: Node,
    target: u32,
    edge: u32,
    k: u32,
    last: Step,
    top: Step,
    over: Step,
) -> Result<Step, PathRefusal>
    requires { (k < 4294967295) × Blocks index.now }
    ensures { result ≡ applied_of (is_exported (node_row index.now (asked_scope node over))) node target edge k last top over }
{
    match node {
        Node::Removed => Err(PathRefusal::UnknownNode(NodeId(target))),
        Node::Root => Ok(plain(edge, target, last.symbols, last.scopes)),
        Node::JumpToScope => {
            let exported = store::is_exported(index, NodeId(over.scope));
            jump(exported, target, edge, last, over)
        }
        Node::Scope {
            file: _,
            exported: _,
        } => Ok(plain(edge, target, last.symbols, last.scopes)),
        Node::Push {
            file: _,
            symbol,
            reference: _,
        } => Ok(push(symbol, target, edge, k, last)),
        Node::Pop {
            file: _,
            symbol,
            definition: _,
        } => pop(target, edge, symbol, last, top),
        Node::PushScoped {
            file: _,
            symbol,
            scope,
            reference: _,
        } => {
            let exported = store::is_exported(index, scope);
            push_scoped(exported, symbol, scope.0, target, edge, k, last)
        }
        Node::PopScoped {
            file: _,
            symbol,
            definition: _,
        } => pop_scoped(target, edge, symbol, last, top),
        Node::DropScopes { file: _ } => Ok(plain(edge, target, last.symbols, 0)),
    }
}

// What becomes of an edge behind `last`: 12, 13, or its target applied.
pub(crate) fn follow(
    index: &[u32],
    edge: u32,
    k: u32,
    last: Step,
    top: Step,
    over: Step,
) -> Result<Step, PathRefusal>
    requires { (k < 4294967295) × Blocks index.now }
    ensures { result ≡ followed (node_row index.now) edge k last top over (edge_row index.now edge) }
{
    match store::edge(index, EdgeId(edge)) {
        Edge::Removed => Err(PathRefusal::UnknownEdge(EdgeId(edge))),
        Edge::Live {
            source,
            target,
            precedence: _,
        } => {
            if source.0 != last.end {
                return Err(PathRefusal::IncorrectSource {
                    expected: NodeId(last.end),
                    actual: source,
                });
            }
            applied(
                index,
                store::node(index, target),
                target.0,
                edge,
                k,
                last,
                top,
                over,
            )
        }
    }
}

// Step 0 of a path: 10, 11, or the reference applied to empty stacks.
pub fn begin(index: &[u32], reference: u32) -> Result<Step, PathRefusal>
    requires { Blocks index.now }
    ensures { result ≡ begun_of (node_row index.now) reference }
{
    let node = store::node(index, NodeId(reference));
    if is_removed(node) {
        return Err(PathRefusal::UnknownNode(NodeId(reference)));
    }
    if is_reference(node) {
        let none = plain(0, 0, 0, 0);
        return applied(index, node, reference, 0, 0, none, none, none);
    }
    Err(PathRefusal::NotReference(NodeId(reference)))
}

// Does a path that starts at a reference end here, at a definition with both stacks empty?
pub fn is_complete(index: &[u32], s: Step) -> bool
    requires { Blocks index.now }
    ensures { result ≡ complete_step (node_row index.now) s }
{
    if s.symbols != 0 {
        return false;
    }
    if s.scopes != 0 {
        return false;
    }
    store::is_definition(index, NodeId(s.end))
}
