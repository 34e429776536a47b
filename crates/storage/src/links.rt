// The outgoing edges of each node, linked from the last edge down, so that each list ascends.
// Document 01, "Graph image": `outgoing` of a node means its live edges by ascending number.
ghost use Rattle.std.specs.Prelude.{◌≡◌, ℕ, ◌+◌, ◌*◌, ◌<◌, ◌≤◌, length};
ghost use Rattle.semantics.specs.Graph.{Graph};
ghost use Rattle.storage.specs.Index.{EDGES, BLOCK, Blocks, Loaded};
ghost use Rattle.storage.specs.Links.{Linked};
ghost use Rattle.storage.specs.References.{Sources};

use crate::blocks;

// A live edge goes in front of the edges of its source that are linked already.
fn link_one(index: &mut [u32], e: u32)
    requires blocks { Blocks index.old }
    requires e_bound { (e < EDGES) × (BLOCK * e < length index.old) }
    requires sources { Sources index.old }
    ensures sources_2 { Sources index.new }
    ensures linked { (g : Graph) → e < length g.edges → Linked g index.old (e + 1) → Linked g index.new e }
{
    let at = blocks::BLOCK * e as usize;
    let source = index[at + blocks::SOURCE];
    if 0 < source {
        let from = blocks::BLOCK * (source - 1) as usize;
        index[at + blocks::NEXT] = index[from + blocks::FIRST];
        index[from + blocks::FIRST] = e + 1;
    }
}

pub fn link(index: &mut [u32], count: u32)
    requires blocks { Blocks index.old }
    requires count_bound { (count ≤ EDGES) × (BLOCK * count ≤ length index.old) }
    requires sources { Sources index.old }
    ensures { (g : Graph) → length g.edges ≡ count → Linked g index.old count → Loaded g index.new }
{
    for e in (0..count).rev() {
        link_one(index, e);
    }
}
