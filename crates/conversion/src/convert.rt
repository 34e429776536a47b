// Every live path is written under its number into slots of fewer edges; dead slots, and all words behind, are zero.
// Document 02, order 6; 35, 33 and 39 in that order. A refused call leaves the new area zero. The old area is only read.
ghost use Rattle.std.specs.Prelude.{◌≡◌, true, map, ◌≤◌, ◌<◌, length, get_or};
ghost use Rattle.semantics.specs.PartialPaths.{dead};
ghost use Rattle.semantics.specs.Told.{told_conversion};
ghost use Rattle.semantics.specs.Entries.{convert_database};
ghost use Rattle.semantics.specs.Limits.{base, former, record_words};
ghost use Rattle.semantics.specs.Database.{used_in, known_owners, encode_slot, slots_in, well_formed, record_place};
ghost use Rattle.semantics.specs.Database.Conversion.{fits_in, all_fit};
ghost use Rattle.database.specs.Records.{InWords, put_record};
ghost use Rattle.database.specs.Filing.{with_records};
ghost use Rattle.conversion.specs.Slots.{has_room_for};

use database::{check, layout, replace};
use semantics::answer::{Conversion, ConversionRefusal};
use semantics::bounds::{FORMER_EDGES, MAX_EDGES};
use words::slots;

// Slot i is dead, or its path is within the new bound.
fn fits(old: &[u32], i: usize) -> bool
    requires { (well_formed former known_owners old.now ≡ true) × (i < used_in old.now) }
    ensures { result ≡ fits_in base (get_or (slots_in former old.now) i dead) }
{
    if 0 < layout::owner(old, FORMER_EDGES, i) {
        return layout::count(old, FORMER_EDGES, i) as usize <= MAX_EDGES;
    }
    true
}

// All used slots are so; else 39.
fn all_fit(old: &[u32]) -> bool
    requires { well_formed former known_owners old.now ≡ true }
    ensures { result ≡ all_fit base (slots_in former old.now) }
{
    let used = layout::number(old, layout::USED_AT);
    for i in 0..used {
        if !fits(old, i) {
            return false;
        }
    }
    true
}

// The new area has room for the used slots; else 33.
fn has_room(old: &[u32], new: &[u32]) -> bool
    requires { 3 ≤ length old.now }
    ensures { result ≡ has_room_for base (used_in old.now) (length new.now) }
{
    if new.len() < layout::FIRST_RECORD {
        return false;
    }
    layout::number(old, layout::USED_AT) <= layout::capacity(new, MAX_EDGES)
}

// Slot i of the new area becomes slot i of the old one.
fn convert_slot(old: &[u32], new: &mut [u32], i: usize)
    requires value { (well_formed former known_owners old.now ≡ true) × (i < used_in old.now) }
    requires in_words { InWords base i new.old × (fits_in base (get_or (slots_in former old.now) i dead) ≡ true) }
    ensures { new.new ≡ put_record base i (encode_slot (record_words base) (get_or (slots_in former old.now) i dead)) new.old }
{
    let owner = layout::owner(old, FORMER_EDGES, i);
    if 0 < owner {
        let start = layout::start(old, FORMER_EDGES, i);
        let end = layout::end(old, FORMER_EDGES, i);
        let edges = layout::edges(old, FORMER_EDGES, i);
        replace::put_record(new, MAX_EDGES, i, owner - 1, start, end, edges);
        return;
    }
    replace::zero_record(new, MAX_EDGES, i);
}

// All used slots are written under their numbers.
fn convert_slots(old: &[u32], new: &mut [u32])
    requires value { (well_formed former known_owners old.now ≡ true) × (all_fit base (slots_in former old.now) ≡ true) }
    requires in_bounds { record_place base (used_in old.now) ≤ length new.old }
    ensures { new.new ≡ with_records base (map (encode_slot (record_words base)) (slots_in former old.now)) new.old }
{
    let used = layout::number(old, layout::USED_AT);
    for i in 0..used {
        convert_slot(old, new, i);
    }
}

// The new area becomes the old one's database. 35, then 33 for too few words or slots, then 39 for a live path over the new bound.
pub fn convert(old: &[u32], new: &mut [u32]) -> Conversion
    ensures result_value { told_conversion result ≡ told_conversion (convert_database old.now new.old).answer }
    ensures after { new.new ≡ (convert_database old.now new.old).written }
{
    slots::zero(new);
    if !check::well_formed(old, FORMER_EDGES) {
        return Err(ConversionRefusal::Malformed);
    }
    if !has_room(old, new) {
        return Err(ConversionRefusal::Full);
    }
    if !all_fit(old) {
        return Err(ConversionRefusal::TooLong);
    }
    convert_slots(old, new);
    replace::store_header(
        new,
        old[layout::USED_AT],
        old[layout::NODES_AT],
        old[layout::FILES_AT],
    );
    Ok(())
}
