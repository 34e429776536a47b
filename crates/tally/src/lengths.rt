// How many lists of distinct edges reach a complete path from a reference, for each length. Document 02, order 9.
// The search is direct search, depth-first and with a limit of 0 on complete paths: so it counts them, and asks for no result slot.
ghost use Rattle.std.specs.Prelude.{◌≡◌};
ghost use Rattle.semantics.specs.Limits.{slot_length};
ghost use Rattle.semantics.specs.Words.{zeros};
ghost use Rattle.semantics.specs.Graph.{Graph};
ghost use Rattle.semantics.specs.Entries.{tally_lengths};
ghost use Rattle.semantics.specs.Told.{told_tallying};
ghost use Rattle.storage.specs.Index.{Loaded, Takes, HoldsGraph};
ghost use Rattle.direct_search.specs.Counting.{Tallies, tallied_on};
ghost use Rattle.tally.specs.Tallies.{outcome_on, Does};

use direct_search::direct::search_counted;
use search_state::search::Finished;
use semantics::answer::{Tallying, TurnedBack};
use semantics::bounds::LENGTHS;
use semantics::graph::NodeId;
use semantics::refusal::SearchRefusal;
use semantics::search::{SearchLimits, SearchOrder};
use storage::{blocks, check};
use words::slots;

// The answer, and the numbers for the lengths 0 to 63 beside it.
#[derive(Clone, Copy)]
pub struct TallyOutcome {
    pub answer: Tallying,
    pub numbers: [u64; LENGTHS],
}

// The search on a loaded graph, with every number 0 before it. It keeps no path, and its result area is shorter than a slot.
fn search(
    index: &[u32],
    reference: u32,
    work: &mut [u32],
    numbers: &mut [u64],
) -> Result<Finished, SearchRefusal>
    requires { HoldsGraph index.now × (numbers.old ≡ zeros slot_length) }
    ensures { (g : Graph) → Loaded g index.now → Tallies result numbers.new (tallied_on g work.old reference) }
{
    let mut none = [0u32; 1];
    let limits = SearchLimits {
        length: None,
        expansions: None,
        complete: Some(0),
    };
    search_counted(
        index,
        reference,
        SearchOrder::DepthFirst,
        limits,
        work,
        &mut none,
        numbers,
    )
}

// No number is told beside a refusal.
fn refused(answer: Tallying) -> TallyOutcome
    ensures { (result.answer ≡ answer) × (result.numbers ≡ zeros slot_length) }
{
    TallyOutcome {
        answer,
        numbers: [0; LENGTHS],
    }
}

// The tally on a loaded graph; the work area as every call leaves it.
fn tally_loaded(index: &[u32], reference: u32, work: &mut [u32]) -> TallyOutcome
    requires { HoldsGraph index.now }
    ensures { (g : Graph) → Loaded g index.now → Does (outcome_on g work.old reference) result work.new }
{
    let mut numbers = [0u64; LENGTHS];
    let end = search(index, reference, work, &mut numbers);
    slots::zero(work);
    match end {
        Ok(_) => TallyOutcome {
            answer: Ok(()),
            numbers,
        },
        Err(r) => refused(Err(TurnedBack::Refused(r))),
    }
}

// The image is checked into the lent index, then its graph is searched; a refused image leaves the work area zero.
fn tally_in(
    image: &[u8],
    visible: &[u8],
    index: &mut [u32],
    reference: u32,
    work: &mut [u32],
) -> TallyOutcome
    requires { Takes image.now index.old }
    ensures { Does (tally_lengths image.now visible.now reference work.old) result work.new }
{
    match check::load_seen(image, visible, index) {
        Err(r) => {
            slots::zero(work);
            refused(Err(TurnedBack::Image(r)))
        }
        Ok(_) => tally_loaded(index, reference, work),
    }
}

// A small image gets a small index, as for a direct search.
fn tally_image(image: &[u8], visible: &[u8], reference: u32, work: &mut [u32]) -> TallyOutcome
    ensures { Does (tally_lengths image.now visible.now reference work.old) result work.new }
{
    if check::is_small(image) {
        let mut index = [0u32; blocks::SMALL];
        return tally_in(image, visible, &mut index, reference, work);
    }
    let mut index = [0u32; blocks::INDEX];
    tally_in(image, visible, &mut index, reference, work)
}

// The tally of a reference, on any bytes and numbers.
pub fn tally(image: &[u8], visible: &[u8], reference: NodeId, work: &mut [u32]) -> TallyOutcome
    ensures answer_value { told_tallying result.answer ≡ told_tallying (tally_lengths image.now visible.now reference.0 work.old).answer }
    ensures numbers_value { result.numbers ≡ (tally_lengths image.now visible.now reference.0 work.old).numbers }
    ensures work_after { work.new ≡ (tally_lengths image.now visible.now reference.0 work.old).work }
{
    tally_image(image, visible, reference.0, work)
}
