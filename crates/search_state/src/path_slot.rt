// The path under expansion as the words of a slot: edge count, edges, zeros. Document 01, "Answer": "Waiting paths are held likewise".
// One more edge is stored over the last one tried, so a successor is never copied before it waits or is kept.
ghost use Rattle.std.specs.Prelude.{◌≡◌, ◌+◌, ◌<◌, ◌≤◌, eqb, length};
ghost use Rattle.semantics.specs.Lists.{or, has};
ghost use Rattle.search_state.specs.Items.{with_edge};

// Is the edge among those of a path? Such an edge is a cycle cut. Few edges are, so all are looked at: without a way out of the loop they are
// compared several at a time.
pub fn contains(edges: &[u32], edge: u32) -> bool
    ensures { result ≡ has edge edges.now }
{
    let mut found = false;
    for other in edges {
        found |= edge == *other;
    }
    found
}

// The path of k edges becomes the same with one more.
pub fn with_edge(item: &mut [u32], k: usize, edge: u32)
    requires { (k + 1 < length item.old) × (length item.old ≤ 4294967295) }
    ensures { item.new ≡ with_edge item.old k edge }
{
    item[0] = (k + 1) as u32;
    item[k + 1] = edge;
}
