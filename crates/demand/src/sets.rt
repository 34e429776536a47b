// Both recorded calls from one reference, with the same visible files. Demand 3, first sentence, and document 02, order 8: what stands in the used result
// slots of either, where the length limits are the same, whatever orders, count limits and areas each search was given.
ghost use Rattle.std.specs.Prelude.{◌≡◌};
ghost use Rattle.semantics.specs.Told.{told_resolution};
ghost use Rattle.demand.specs.Agreement.{direct_by, stitched_by, Agrees, AgreesAll};

use direct_search::direct;
use semantics::answer::Resolution;
use semantics::graph::NodeId;
use semantics::search::{SearchLimits, SearchOrder};
use stitching::stitched;

// How a search is asked for.
#[derive(Clone, Copy)]
pub struct Asked {
    pub order: SearchOrder,
    pub limits: SearchLimits,
}

#[derive(Clone, Copy)]
pub struct Answers {
    pub direct: Resolution,
    pub stitched: Resolution,
}

// The recorded sets of direct and of stitched search, each in areas of its own.
pub fn record_both(
    image: &[u8],
    visible: &[u8],
    words: &[u32],
    reference: NodeId,
    first: Asked,
    second: Asked,
    waiting: &mut [u32],
    found: &mut [u32],
    stitching: &mut [u32],
    joined: &mut [u32],
) -> Answers
    ensures direct_value { told_resolution result.direct ≡ told_resolution (direct_by image.now visible.now reference.0 first waiting.old found.old).answer }
    ensures waiting_after { waiting.new ≡ (direct_by image.now visible.now reference.0 first waiting.old found.old).work }
    ensures found_after { found.new ≡ (direct_by image.now visible.now reference.0 first waiting.old found.old).result }
    ensures stitched_value { told_resolution result.stitched ≡ told_resolution (stitched_by image.now visible.now words.now reference.0 second stitching.old
        joined.old).answer }
    ensures stitching_after { stitching.new ≡ (stitched_by image.now visible.now words.now reference.0 second stitching.old joined.old).work }
    ensures joined_after { joined.new ≡ (stitched_by image.now visible.now words.now reference.0 second stitching.old joined.old).result }
    ensures agrees { first.limits.length ≡ second.limits.length → Agrees image.now visible.now words.now reference.0 first.limits.length
        result.direct found.new result.stitched joined.new }
    ensures agrees_all { first.limits.length ≡ second.limits.length → AgreesAll image.now visible.now words.now reference.0 first.limits.length
        result.direct found.new result.stitched joined.new }
{
    let direct = direct::search_recorded(
        image,
        visible,
        reference,
        first.order,
        first.limits,
        waiting,
        found,
    );
    let stitched = stitched::search_recorded(
        image,
        visible,
        words,
        reference,
        second.order,
        second.limits,
        stitching,
        joined,
    );
    Answers { direct, stitched }
}
