// Hidden files in a filled index, between the check of an image and its links. Document 02, order 8.
ghost use Rattle.std.specs.Prelude.{◌≡◌, ℕ, ◌*◌, ◌<◌, ◌≤◌, true, false, length};
ghost use Rattle.semantics.specs.Acceptance.{accepts};
ghost use Rattle.semantics.specs.Hidden.{sees, seen};
ghost use Rattle.semantics.specs.Graph.{Graph};
ghost use Rattle.image.specs.Filling.{Held};
ghost use Rattle.image.specs.Index.{EDGES, BLOCK, Blocks};
ghost use Rattle.hiding.specs.Hiding.{Counted, Fits, NodeHidden, NodesHidden, EdgeHidden, EdgesHidden};

use image::blocks;
use semantics::answer::Counts;
use semantics::kinds;

// The kinds from this one on have a file.
const FIRST_FILED: u32 = 3;

// File f is visible where byte f is there and is not 0.
pub fn is_visible(visible: &[u8], file: u32) -> bool
    ensures { result ≡ sees visible.now file }
{
    visible.get(file as usize).is_some_and(|byte| 0 < *byte)
}

// A node of a hidden file becomes a removed one.
fn hide_node(index: &mut [u32], visible: &[u8], n: u32)
    requires blocks { Blocks index.old }
    requires n_bound { (n < EDGES) × (BLOCK * n < length index.old) }
    ensures { NodeHidden (sees visible.now) n index.old index.new }
{
    let at = blocks::BLOCK * n as usize;
    if FIRST_FILED <= index[at + blocks::KIND] {
        if !is_visible(visible, index[at + blocks::FILE]) {
            index[at + blocks::KIND] = kinds::REMOVED;
        }
    }
}

// The nodes below count.
fn hide_nodes(index: &mut [u32], visible: &[u8], count: u32)
    requires blocks { Blocks index.old }
    requires count_bound { (count ≤ EDGES) × (BLOCK * count ≤ length index.old) }
    ensures { NodesHidden (sees visible.now) count index.old index.new }
{
    for n in 0..count {
        hide_node(index, visible, n);
    }
}

// An edge one of whose ends is a removed node becomes a removed one.
fn hide_edge(index: &mut [u32], e: u32)
    requires blocks { Blocks index.old }
    requires e_bound { (e < EDGES) × (BLOCK * e < length index.old) }
    ensures { EdgeHidden e index.old index.new }
{
    let at = blocks::BLOCK * e as usize;
    let source = index[at + blocks::SOURCE];
    if 0 < source {
        if blocks::word(index, blocks::KIND, source - 1) < 1 {
            index[at + blocks::SOURCE] = 0;
            return;
        }
        if blocks::word(index, blocks::KIND, index[at + blocks::TARGET]) < 1 {
            index[at + blocks::SOURCE] = 0;
        }
    }
}

// The edges below count.
fn hide_edges(index: &mut [u32], count: u32)
    requires blocks { Blocks index.old }
    requires count_bound { (count ≤ EDGES) × (BLOCK * count ≤ length index.old) }
    ensures { EdgesHidden count index.old index.new }
{
    for e in 0..count {
        hide_edge(index, e);
    }
}

// Both passes: the nodes first, as an edge is hidden by the kinds of its ends.
fn hide_records(index: &mut [u32], visible: &[u8], counts: Counts)
    requires { Fits counts index.old }
    ensures { (g : Graph) → accepts g ≡ true → Counted counts g → Held g index.old → Held (seen (sees visible.now) g) index.new }
{
    hide_nodes(index, visible, counts.nodes);
    hide_edges(index, counts.edges);
}

// Is a file below the count hidden? Where none is, nothing but this loop is done.
pub fn hides_some(visible: &[u8], files: u32) -> bool
    ensures { result ≡ false → (f : ℕ) → f < files → sees visible.now f ≡ true }
{
    (0..files).any(|f| !is_visible(visible, f))
}

// The filled index of an accepted graph becomes that of what the desk sees of it.
pub fn hide(index: &mut [u32], visible: &[u8], counts: Counts)
    requires { Fits counts index.old }
    ensures { (g : Graph) → accepts g ≡ true → Counted counts g → Held g index.old → Held (seen (sees visible.now) g) index.new }
{
    if hides_some(visible, counts.files) {
        hide_records(index, visible, counts);
    }
}
