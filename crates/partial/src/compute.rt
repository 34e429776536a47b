// The partial paths of a file on a loaded graph: they are counted, and filed in the database where a place is given for them.
// Document 01, "Partial paths": `StackPartialPathSet::compute`.
ghost use Rattle.std.specs.Prelude.{◌≡◌, ◌+◌, ◌≤◌, ◌<◌, ◌^◌, length, take, get_or};
ghost use Rattle.semantics.specs.Limits.{slot_length, looked_before};
ghost use Rattle.path_frontier.specs.Frontier.{Framed, Wider};
ghost use Rattle.partial_state.specs.Extractions.{at, going_at, taken_at, Taking};
ghost use Rattle.partial.specs.Rounds.{nothing_counted, is_filed, MadeRoom, Rounding, Rounded, Driving, DrivenTo};
ghost use Rattle.partial.specs.Replacements.{Computing, ComputedTo};

use partial_state::extraction::{Config, Extraction, ExtractionFrame, ExtractionTurn};
use partial_state::filing::Filing;
use partial_state::route;
use partial_trial::{expand, seed};
use path_frontier::frontier::{SHORT_SLOT, longer};
use semantics::bounds::SLOT_WORDS;
use semantics::refusal::PartialPathRefusal;
use semantics::search::PartialPathStats;
use words::slots;

// What a computation tells that ended with the last path filed. Nothing is counted then: the counts would have to be at hand in every round.
fn uncounted() -> PartialPathStats
    ensures { result ≡ nothing_counted }
{
    PartialPathStats {
        expanded: 0,
        found: 0,
        cycles: 0,
        length_limited: false,
        count_limited: false,
        waited: 0,
    }
}

// Are as many paths found as there is room for? What is found behind them would only be counted.
fn is_filed(filing: Filing, found: u64) -> bool
    ensures { result ≡ is_filed filing found }
{
    0 < filing.room && filing.room as u64 <= found
}

// The next route is copied into the front of the item, as many words as a slot has.
fn take_front(
    on: Extraction,
    work: &mut [u32],
    item: &mut [u32],
    frame: ExtractionFrame,
) -> Result<ExtractionTurn, PartialPathRefusal>
    requires { Framed (at frame on).frontier work.old × (frame.slot ≤ length item.old) × (on.expanded + 1 < 2 ^ 64) }
    ensures { Taking (at frame on) work.old (taken_at frame result) (take frame.slot item.new) work.new }
{
    let slot = frame.slot;
    on.take(work, &mut item[0..slot], frame)
}

// A route that fills its slot has no word for one more edge: then the slots get more words, and so does the route in the item. Copies take
// longer then, and few routes are as long as any may be.
fn make_room(
    extraction: Extraction,
    item: &mut [u32],
    work: &mut [u32],
    frame: ExtractionFrame,
) -> ExtractionFrame
    requires { Framed (at frame extraction).frontier work.old × Wider (at frame extraction).frontier work.old slot_length × (length item.old ≡ slot_length)
        × (get_or item.old 0 0 < slot_length) }
    ensures { MadeRoom (at frame extraction) item.old work.old (at result extraction) item.new work.new }
{
    let slot = frame.slot;
    let k = item[0] as usize;
    if k + 1 < slot {
        return frame;
    }
    if slot < SLOT_WORDS {
        slots::zero(&mut item[slot..SLOT_WORDS]);
        return frame.widen(extraction, work, longer(slot, slot + 1));
    }
    frame
}

// The popped route is expanded.
fn round(
    index: &[u32],
    filing: Filing,
    item: &mut [u32],
    extraction: Extraction,
    work: &mut [u32],
    words: &mut [u32],
    frame: ExtractionFrame,
) -> Result<Extraction, PartialPathRefusal>
    requires { Rounding looked_before index.now filing item.old (at frame extraction) work.old words.old }
    ensures { (v : Rounding looked_before index.now filing item.old (at frame extraction) work.old words.old)
        → Rounded looked_before index.now filing item.old (at frame extraction) work.old words.old v (going_at frame result)
        work.new words.new }
{
    let ends = route::ends_of(index, item);
    let k = item[0] as usize;
    expand::expand(index, filing, ends, k, item, extraction, work, words, frame)
}

// The same with the route in the front of the item.
fn round_front(
    index: &[u32],
    filing: Filing,
    item: &mut [u32],
    extraction: Extraction,
    work: &mut [u32],
    words: &mut [u32],
    frame: ExtractionFrame,
) -> Result<Extraction, PartialPathRefusal>
    requires { Rounding looked_before index.now filing (take frame.slot item.old) (at frame extraction) work.old words.old × (frame.slot ≤ length item.old) }
    ensures { (v : Rounding looked_before index.now filing (take frame.slot item.old) (at frame extraction) work.old
        words.old) → Rounded looked_before index.now filing (take frame.slot item.old) (at frame extraction) work.old
        words.old v (going_at frame result) work.new words.new }
{
    let slot = frame.slot;
    round(
        index,
        filing,
        &mut item[0..slot],
        extraction,
        work,
        words,
        frame,
    )
}

// Routes are taken and expanded until none waits, or all are filed, or the path count or a refusal ends the computation. Without room for any path
// the counts are those of the whole. Round the loop goes the length of a slot
// and not the frame, whose copies the processor would wait for.
fn drive(
    index: &[u32],
    filing: Filing,
    item: &mut [u32],
    extraction: Extraction,
    work: &mut [u32],
    words: &mut [u32],
    frame: ExtractionFrame,
) -> Result<PartialPathStats, PartialPathRefusal>
    requires { Driving index.now filing item.old (at frame extraction) work.old words.old }
    ensures { (v : Driving index.now filing item.old (at frame extraction) work.old words.old)
        → DrivenTo index.now filing item.old (at frame extraction) work.old words.old v result words.new }
{
    let mut on = extraction;
    let mut slot = frame.slot;
    loop {
        if is_filed(filing, on.found) {
            return Ok(uncounted());
        }
        let within = frame.with_slot(slot);
        let turn = take_front(on, work, item, within)?;
        match turn {
            ExtractionTurn::Over(last) => return Ok(last.stats(within)),
            ExtractionTurn::Expand(next) => {
                let ready = make_room(next, item, work, within);
                slot = ready.slot;
                on = round_front(index, filing, item, next, work, words, ready)?;
            }
        }
    }
}

// The whole computation for a file of a graph of so many nodes; the work area is left as it may be.
pub(crate) fn compute(
    index: &[u32],
    nodes: u32,
    filing: Filing,
    config: Config,
    work: &mut [u32],
    words: &mut [u32],
) -> Result<PartialPathStats, PartialPathRefusal>
    requires { Computing index.now nodes filing words.old }
    ensures { ComputedTo index.now nodes filing config work.old words.old result words.new }
{
    let mut start = [0u32; SHORT_SLOT];
    let mut item = [0u32; SLOT_WORDS];
    let frame = ExtractionFrame::new(config, work.len() / SLOT_WORDS);
    let extraction = Extraction::new();
    let begun = seed::seed(
        index,
        filing.file,
        nodes,
        &mut start,
        extraction,
        work,
        frame,
    )?;
    drive(index, filing, &mut item, begun, work, words, frame)
}
