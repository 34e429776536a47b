// A list of cases in bytes, read at any place. Numbers are big-endian.
// Kept: a bound on a place in each clause, as each asks for another distance from the greatest place: a type of places would have to carry it too.
ghost use Rattle.std.specs.Prelude.{◌≡◌, ◌+◌, ◌<◌, slice_index};
ghost use Rattle.case_list.specs.Bounds.{most_place};
ghost use Rattle.case_list.specs.Numbers.{short_at, long_at, longest_at};

// The byte at a place; 0 behind the list.
pub fn byte(list: &[u8], at: usize) -> u8
    ensures { result ≡ slice_index list.now at }
{
    list.get(at).copied().unwrap_or(0)
}

// Nothing is written behind the bytes.
pub fn put_byte(bytes: &mut [u8], at: usize, byte: u8) {
    if let Some(place) = bytes.get_mut(at) {
        *place = byte;
    }
}

// A number of 8 bits.
pub fn tiny(list: &[u8], at: usize) -> u32
    ensures range { result < 256 }
    ensures value { result ≡ slice_index list.now at }
{
    u32::from(byte(list, at))
}

// A number of 16 bits.
pub fn short(list: &[u8], at: usize) -> u32
    requires { at < most_place }
    ensures range { result < 65536 }
    ensures value { result ≡ short_at list.now at }
{
    let high = tiny(list, at);
    let low = tiny(list, at + 1);
    high * 256 + low
}

// A number of 32 bits.
pub fn long(list: &[u8], at: usize) -> u32
    requires { at + 2 < most_place }
    ensures { result ≡ long_at list.now at }
{
    let high = short(list, at);
    let low = short(list, at + 2);
    high * 65536 + low
}

// A number of 64 bits.
pub fn longest(list: &[u8], at: usize) -> u64
    requires { at + 6 < most_place }
    ensures { result ≡ longest_at list.now at }
{
    let high = u64::from(long(list, at));
    let low = u64::from(long(list, at + 4));
    high * 4_294_967_296 + low
}
