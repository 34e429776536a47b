// Numbers in a slice of bytes, big-endian, and signed numbers in two's complement.
// Document 01, "Graph image": counts and numbers of 16 bits, symbols and precedences of 32 bits.
ghost use Rattle.std.specs.Prelude.{◌≡◌, ◌+◌, ◌<◌, ◌^◌, length};
ghost use Rattle.semantics.specs.Bytes.{byte_at, short, long, signed};
ghost use Rattle.semantics.specs.Bytes.Written.{unsigned};

pub fn byte(s: &[u8], at: usize) -> u32
    requires { at < length s.now }
    ensures value { result ≡ byte_at s.now at }
    ensures upper_bound { result < 256 }
{
    u32::from(s[at])
}

// The same at any place: past the end there stands a 0.
pub fn byte_or_zero(s: &[u8], at: usize) -> u32
    ensures value { result ≡ byte_at s.now at }
    ensures upper_bound { result < 256 }
{
    match s.get(at) {
        Some(x) => u32::from(*x),
        None => 0,
    }
}

pub fn short(s: &[u8], at: usize) -> u32
    requires { at + 1 < length s.now }
    ensures value { result ≡ short s.now at }
    ensures upper_bound { result < 2 ^ 16 }
{
    u32::from(u16::from_be_bytes([s[at], s[at + 1]]))
}

pub fn long(s: &[u8], at: usize) -> u32
    requires { at + 3 < length s.now }
    ensures value { result ≡ long s.now at }
    ensures upper_bound { result < 2 ^ 32 }
{
    u32::from_be_bytes([s[at], s[at + 1], s[at + 2], s[at + 3]])
}

// The number that 32 bits stand for.
pub fn signed(x: u32) -> i32
    ensures { result ≡ signed x }
{
    x.cast_signed()
}

// The 32 bits of a signed number, the other way round.
pub fn unsigned(x: i32) -> u32
    ensures { result ≡ unsigned x }
{
    x.cast_unsigned()
}
