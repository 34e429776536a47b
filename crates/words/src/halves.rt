// A number of 64 bits in two words of 32. Document 02, order 3: a symbol has so many.
ghost use Rattle.std.specs.Prelude.{◌≡◌, ◌<◌};
ghost use Rattle.semantics.specs.Halves.{word_room, joined, low_word, high_word};

const ROOM: u64 = 0x1_0000_0000;

pub fn join(low: u32, high: u32) -> u64
    ensures { result ≡ joined low high }
{
    high as u64 * ROOM + low as u64
}

pub fn low(number: u64) -> u32
    ensures { result ≡ low_word number }
{
    (number % ROOM) as u32
}

pub fn high(number: u64) -> u32
    ensures { result ≡ high_word number }
{
    (number / ROOM) as u32
}
