// Words put behind those that an area holds already: specs/Written.antt.
ghost use Rattle.std.specs.Prelude.{[], ◌∷◌};
ghost use Rattle.path_words.specs.Written.{Adds};

// Behind the last item of a list.
pub const NONE: u32 = 0;

// A word at a place, and the place behind it. A full area takes no more and the place stays, so that it never overflows.
pub(crate) fn put(area: &mut [u32], at: usize, word: u32) -> usize
    ensures { Adds area.old at area.new result (word ∷ []) }
{
    if at < area.len() {
        area[at] = word;
        return at + 1;
    }
    at
}

// What an item is, and its number.
pub(crate) fn put_item(area: &mut [u32], at: usize, kind: u32, number: u32) -> usize
    ensures { Adds area.old at area.new result (kind ∷ number ∷ []) }
{
    let next = put(area, at, kind);
    put(area, next, number)
}

// What an item is, and its number in two words.
pub(crate) fn put_wide(area: &mut [u32], at: usize, kind: u32, high: u32, low: u32) -> usize
    ensures { Adds area.old at area.new result (kind ∷ high ∷ low ∷ []) }
{
    let next = put_item(area, at, kind, high);
    put(area, next, low)
}
