// The starts of an owner's partial paths, pushed before the first expansion. Document 01, "Partial paths": "Starts: root, then the file's
// references and exported scopes by number"; nobody's start at root alone (document 02, order 5).
ghost use Rattle.std.specs.Prelude.{◌≡◌, length};
ghost use Rattle.semantics.specs.Graph.{Graph};
ghost use Rattle.storage.specs.Index.{Blocks, Loaded, HoldsNodes};
ghost use Rattle.partial_state.specs.Extractions.{at, going_at};
ghost use Rattle.partial_trial.specs.Seeds.{Seeding, Started, NodeSeeded, FileSeeded, Seeded};

use partial_state::extraction::{Extraction, ExtractionFrame};
use partial_state::route;
use semantics::bounds::NOBODY;
use semantics::graph::{NodeId, ROOT};
use semantics::refusal::PartialPathRefusal;
use storage::store;

// The route without edges from a node waits.
fn push_start(
    n: u32,
    item: &mut [u32],
    extraction: Extraction,
    work: &mut [u32],
    frame: ExtractionFrame,
) -> Result<Extraction, PartialPathRefusal>
    requires { Seeding item.old (at frame extraction) work.old }
    ensures { (v : Seeding item.old (at frame extraction) work.old)
        → Started item.old (at frame extraction) work.old v n (going_at frame result) work.new }
{
    route::begin(item, n);
    extraction.push(work, item, frame)
}

// The file's own starts, by ascending number.
fn seed_file(
    index: &[u32],
    file: u32,
    nodes: u32,
    item: &mut [u32],
    extraction: Extraction,
    work: &mut [u32],
    frame: ExtractionFrame,
) -> Result<Extraction, PartialPathRefusal>
    requires { HoldsNodes index.now nodes × Seeding item.old (at frame extraction) work.old }
    ensures { (g : Graph) → Loaded g index.now → nodes ≡ length g.nodes
        → (v : Seeding item.old (at frame extraction) work.old)
        → FileSeeded item.old (at frame extraction) work.old v g file (going_at frame result) work.new }
{
    let mut on = extraction;
    for n in 0..nodes {
        if store::is_of_file(index, NodeId(n), file) && store::is_start(index, NodeId(n)) {
            on = push_start(n, item, on, work, frame)?;
        }
    }
    Ok(on)
}

// All starts.
pub fn seed(
    index: &[u32],
    owner: u32,
    nodes: u32,
    item: &mut [u32],
    extraction: Extraction,
    work: &mut [u32],
    frame: ExtractionFrame,
) -> Result<Extraction, PartialPathRefusal>
    requires { HoldsNodes index.now nodes × Seeding item.old (at frame extraction) work.old }
    ensures { (g : Graph) → Loaded g index.now → nodes ≡ length g.nodes
        → (v : Seeding item.old (at frame extraction) work.old)
        → Seeded item.old (at frame extraction) work.old v g owner (going_at frame result) work.new }
{
    let begun = push_start(ROOT, item, extraction, work, frame)?;
    if owner == NOBODY {
        return Ok(begun);
    }
    seed_file(index, owner, nodes, item, begun, work, frame)
}
