// Numbers written into a slice of bytes, big-endian.
// Document 02, order 3: an image is written into bytes that the caller lends.
ghost use Rattle.std.specs.Prelude.{◌≡◌, ◌+◌, ◌<◌, ◌≤◌, length};
ghost use Rattle.semantics.specs.Bytes.Placed.{put};
ghost use Rattle.semantics.specs.Bytes.Written.{be};

// How many numbers a byte can hold, and two bytes.
const BYTE: u32 = 256;

const SHORT: u32 = 65_536;

// The lowest eight bits of the number.
pub fn put_byte(area: &mut [u8], at: usize, number: u32)
    requires { at < length area.old }
    ensures { area.new ≡ put at (be 1 number) area.old }
{
    area[at] = (number % BYTE) as u8;
}

// The lowest sixteen bits.
pub fn put_short(area: &mut [u8], at: usize, number: u32)
    requires { at + 2 ≤ length area.old }
    ensures { area.new ≡ put at (be 2 number) area.old }
{
    put_byte(area, at, number / BYTE);
    put_byte(area, at + 1, number);
}

pub fn put_long(area: &mut [u8], at: usize, number: u32)
    requires { at + 4 ≤ length area.old }
    ensures { area.new ≡ put at (be 4 number) area.old }
{
    put_short(area, at, number / SHORT);
    put_short(area, at + 2, number);
}
