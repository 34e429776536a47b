// The path under expansion with the edges of a partial path behind its own, as the words of a slot. Document 01, "Answer": "Waiting paths are
// held likewise".
ghost use Rattle.std.specs.Prelude.{◌≡◌, ◌+◌, ◌≤◌, ◌++◌, length, take, drop};
ghost use Rattle.semantics.specs.Limits.{max_edges, slot_length};
ghost use Rattle.semantics.specs.Words.{encode};

use search_state::path_slot;
use semantics::bounds::SLOT_WORDS;
use words::slots;

// Its first k edges alone: what an earlier trial stored behind them becomes zeros.
fn shorten(item: &mut [u32], k: usize)
    requires { (length item.old ≡ slot_length) × (k ≤ max_edges) }
    ensures { item.new ≡ encode slot_length (take k (drop 1 item.old)) }
{
    item[0] = k as u32;
    slots::zero(&mut item[k + 1..SLOT_WORDS]);
}

// Its first k edges, and these behind them.
pub fn with_edges(item: &mut [u32], k: usize, edges: &[u32])
    requires { (length item.old ≡ slot_length) × (k + length edges.now ≤ max_edges) }
    ensures { item.new ≡ encode slot_length (take k (drop 1 item.old) ++ edges.now) }
{
    shorten(item, k);
    for (i, edge) in edges.iter().enumerate() {
        path_slot::with_edge(item, k + i, *edge);
    }
}
