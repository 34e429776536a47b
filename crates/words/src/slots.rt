// Slots in a word area that the caller lends: cleared, written, read, copied, exchanged and turned round. The slot length is an argument.
// Document 01, "Answer": a slot has "edge count, edges, zeros", "Waiting paths are held likewise".
ghost use Rattle.std.specs.Prelude.{◌≡◌, ◌++◌, map, ◌+◌, ◌≤◌, ◌<◌, length, drop};
ghost use Rattle.semantics.specs.Words.{zeros, encode, slots_of};
ghost use Rattle.words.specs.Slots.{InArea, SlotsIn, IsSlot, Room, slot_at, put_slot, swap_slots, reverse_slots, padded};

// Every word becomes 0.
pub fn zero(area: &mut [u32])
    ensures { area.new ≡ zeros (length area.old) }
{
    area.fill(0);
}

// The words are copied to a place of the same length.
// Kept: a loop by number. Between two lent areas `copy_from_slice` is a call of memmove, and the archive calls nothing but memcpy and memset.
fn copy(words: &[u32], into: &mut [u32])
    requires { length words.now ≡ length into.old }
    ensures { into.new ≡ words.now }
{
    for i in 0..words.len() {
        into[i] = words[i];
    }
}

// The words of a slot become the count, the edges, and zeros behind them.
fn lay_out(edges: &[u32], slot: &mut [u32])
    requires { Room (length slot.old) edges.now }
    ensures { slot.new ≡ encode (length slot.old) edges.now }
{
    let rest = 1 + edges.len();
    slot[0] = edges.len() as u32;
    copy(edges, &mut slot[1..rest]);
    slot[rest..].fill(0);
}

// Slot i becomes zeros.
fn zero_slot(area: &mut [u32], length: usize, i: usize)
    requires { InArea length i area.old }
    ensures { area.new ≡ put_slot length i (zeros length) area.old }
{
    let at = length * i;
    area[at..at + length].fill(0);
}

// Slot i becomes the given words.
pub fn write_slot(area: &mut [u32], length: usize, i: usize, words: &[u32])
    requires { InArea length i area.old × IsSlot length words.now }
    ensures { area.new ≡ put_slot length i words.now area.old }
{
    let at = length * i;
    area[at..at + length].copy_from_slice(words);
}

// Slot i becomes the count, the edges, and zeros behind them. The count is a word, so there are fewer than 2^32 edges.
pub fn write_list(area: &mut [u32], length: usize, i: usize, edges: &[u32])
    requires { InArea length i area.old × Room length edges.now }
    ensures { area.new ≡ put_slot length i (encode length edges.now) area.old }
{
    let at = length * i;
    lay_out(edges, &mut area[at..at + length]);
}

// The words of slot i are copied out.
pub fn read_slot(area: &[u32], length: usize, i: usize, into: &mut [u32])
    requires { InArea length i area.now × IsSlot length into.old }
    ensures { into.new ≡ slot_at length i area.now }
{
    let at = length * i;
    into.copy_from_slice(&area[at..at + length]);
}

// Slot `to` becomes what slot `from` holds. Two slots are the same or lie apart, so no word is overwritten before it is read.
pub fn copy_slot(area: &mut [u32], length: usize, from: usize, to: usize)
    requires { InArea length from area.old × InArea length to area.old }
    ensures { area.new ≡ put_slot length to (slot_at length from area.old) area.old }
{
    let source = length * from;
    area.copy_within(source..source + length, length * to);
}

// Slots i and j change places, word by word, so that no other area is needed.
fn swap_slots(area: &mut [u32], length: usize, i: usize, j: usize)
    requires { InArea length i area.old × InArea length j area.old }
    ensures { area.new ≡ swap_slots length i j area.old }
{
    let left = length * i;
    let right = length * j;
    // Kept: a loop by number. `swap_with_slice` asks for two slices: the area would be split, by which slot comes first, and i = j set apart, which is no plainer.
    for k in 0..length {
        area.swap(left + k, right + k);
    }
}

// The n slots from slot lo on are turned round: the outermost two change places, then those between them.
// As a slot has words, there are no more slots than words, and no slot number overflows.
pub fn reverse_slots(area: &mut [u32], length: usize, lo: usize, n: usize)
    requires { (0 < length) × SlotsIn length (lo + n) area.old }
    ensures { area.new ≡ reverse_slots length lo n area.old }
{
    for k in 0..n / 2 {
        swap_slots(area, length, lo + k, lo + (n - 1 - k));
    }
}

// Slot i of the short ones becomes slot i of the long ones: its words go into the front of the lent slot, and that is written.
fn widen_slot(area: &mut [u32], short: usize, length: usize, i: usize, slot: &mut [u32])
    requires { InArea short i area.old × InArea length i area.old × IsSlot length slot.old × (short ≤ length) }
    ensures slot_after { slot.new ≡ slot_at short i area.old ++ drop short slot.old }
    ensures area_after { area.new ≡ put_slot length i (slot_at short i area.old ++ drop short slot.old) area.old }
{
    read_slot(area, short, i, &mut slot[0..short]);
    write_slot(area, length, i, slot);
}

// The first n slots get more words each, with zeros behind. From the last one down, so that none is overwritten before it is read: a longer
// slot stands no lower than the shorter one of its number. The lent slot is zero.
pub fn widen_slots(area: &mut [u32], short: usize, length: usize, n: usize, slot: &mut [u32])
    requires { SlotsIn length n area.old × IsSlot length slot.old × (short ≤ length) × (slot.old ≡ zeros length) }
    ensures { slots_of length n area.new ≡ map (padded length) (slots_of short n area.old) }
{
    for i in (0..n).rev() {
        widen_slot(area, short, length, i, slot);
    }
}
