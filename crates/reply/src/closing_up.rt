// Slots that stay are moved down, and what is left behind them is cleared.
// Document 01, "Answer": "Unused slots, and words behind the last whole slot, are zero".
ghost use Rattle.std.specs.Prelude.{◌≡◌, ◌≤◌};
ghost use Rattle.semantics.specs.Limits.{slot_length};
ghost use Rattle.words.specs.Slots.{InArea, SlotsIn, slot_at, put_slot};
ghost use Rattle.reply.specs.ResultSlots.{clear_slots};

use semantics::bounds::SLOT_WORDS;
use words::slots;

// Slot `to` becomes what slot i holds. A slot that stands right is not copied.
pub fn move_down(res: &mut [u32], i: usize, to: usize)
    requires { InArea slot_length i res.old × (to ≤ i) }
    ensures { res.new ≡ put_slot slot_length to (slot_at slot_length i res.old) res.old }
{
    if to < i {
        slots::copy_slot(res, SLOT_WORDS, i, to);
    }
}

// The slots from `from` to before `to` become zeros.
pub fn clear(res: &mut [u32], from: usize, to: usize)
    requires { SlotsIn slot_length to res.old × (from ≤ to) }
    ensures { res.new ≡ clear_slots slot_length from to res.old }
{
    let start = SLOT_WORDS * from;
    let end = SLOT_WORDS * to;
    slots::zero(&mut res[start..end]);
}
