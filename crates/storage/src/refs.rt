// What the records refer to, tested on the words of a filled index.
// Document 01, "Turned back", row 5: edge ends, edges from jump, ends in two files, attached scopes.
ghost use Rattle.std.specs.Prelude.{◌≡◌, ◌<◌, ℤ, IfSome};
ghost use Rattle.semantics.specs.declared.graph.Edge.TheVariants.{Live};
ghost use Rattle.semantics.specs.Acceptance.{exported_in, edge_fits};
ghost use Rattle.semantics.specs.Graph.{Graph, node_id, view_of};
ghost use Rattle.image.specs.Filling.{Held};
ghost use Rattle.storage.specs.References.{FirstOf, node_test, edge_test};
ghost use Rattle.storage.specs.Index.{Blocks};

use crate::blocks;
use semantics::graph::JUMP;
use semantics::kinds;

// Is node n an exported scope of the file?
fn exported_in(index: &[u32], file: u32, n: u32) -> bool
    requires { Blocks index.now }
    ensures { (g : Graph) → Held g index.now → result ≡ exported_in file ((view_of g).node n) }
{
    if blocks::word(index, blocks::KIND, n) != kinds::SCOPE {
        return false;
    }
    if blocks::word(index, blocks::FLAG, n) != 1 {
        return false;
    }
    blocks::word(index, blocks::FILE, n) == file
}

// Only a push-scoped node refers to another one.
fn node_fits(index: &[u32], n: u32) -> bool
    requires { Blocks index.now }
    ensures { (g : Graph) → Held g index.now → result ≡ node_test g n }
{
    if blocks::word(index, blocks::KIND, n) != kinds::PUSH_SCOPED {
        return true;
    }
    exported_in(
        index,
        blocks::word(index, blocks::FILE, n),
        blocks::word(index, blocks::SCOPE, n),
    )
}

// Not from jump, both ends live, not in two files.
fn ends_fit(index: &[u32], s: u32, t: u32) -> bool
    requires { Blocks index.now }
    ensures { (g : Graph) (p : ℤ) → Held g index.now → result ≡ edge_fits (view_of g) (Live (node_id s) (node_id t) p) }
{
    if s == JUMP {
        return false;
    }
    let source = blocks::word(index, blocks::KIND, s);
    if source == kinds::REMOVED {
        return false;
    }
    let target = blocks::word(index, blocks::KIND, t);
    if target == kinds::REMOVED {
        return false;
    }
    if source < kinds::SCOPE {
        return true;
    }
    if target < kinds::SCOPE {
        return true;
    }
    blocks::word(index, blocks::FILE, s) == blocks::word(index, blocks::FILE, t)
}

// A removed edge refers to nothing.
fn edge_fits(index: &[u32], e: u32) -> bool
    requires { Blocks index.now }
    ensures { (g : Graph) → Held g index.now → result ≡ edge_test g e }
{
    let source = blocks::word(index, blocks::SOURCE, e);
    if source < 1 {
        return true;
    }
    ends_fit(index, source - 1, blocks::word(index, blocks::TARGET, e))
}

// The first node that does not fit.
pub(crate) fn misfit_node(index: &[u32], count: u32) -> Option<u32>
    requires { Blocks index.now }
    ensures upper_bound { IfSome result (λ k. k < count) }
    ensures first { (g : Graph) → Held g index.now → FirstOf (node_test g) count result }
{
    for n in 0..count {
        if !node_fits(index, n) {
            return Some(n);
        }
    }
    None
}

// The first edge that does not fit.
pub(crate) fn misfit_edge(index: &[u32], count: u32) -> Option<u32>
    requires { Blocks index.now }
    ensures upper_bound { IfSome result (λ k. k < count) }
    ensures first { (g : Graph) → Held g index.now → FirstOf (edge_test g) count result }
{
    for e in 0..count {
        if !edge_fits(index, e) {
            return Some(e);
        }
    }
    None
}
