// The versions of an image, which differ in the bytes of a symbol and in the bytes of the whole. Document 02, order 3.
ghost use Rattle.std.specs.Prelude.{◌≡◌};
ghost use Rattle.semantics.specs.Image.{most_bytes};
ghost use Rattle.image.specs.Versions.{number_of, width_of};

// The numbers of the versions.
pub(crate) const NARROW: u32 = 1;

pub(crate) const WIDE: u32 = 2;

// The bytes of a symbol.
const NARROW_SYMBOL: u32 = 4;

const WIDE_SYMBOL: u32 = 8;

// How many bytes an image may have.
const MOST_NARROW_BYTES: usize = 63_499;

pub const MOST_BYTES: usize = 65_536;

#[derive(Clone, Copy, PartialEq, Eq, Debug)]
pub enum Version {
    Narrow,
    Wide,
}

impl Version {
    // As the first byte of an image says it.
    pub fn number(self) -> u32
        ensures { result ≡ number_of self }
    {
        match self {
            Version::Narrow => NARROW,
            Version::Wide => WIDE,
        }
    }

    pub fn symbol_bytes(self) -> u32
        ensures { result ≡ width_of self }
    {
        match self {
            Version::Narrow => NARROW_SYMBOL,
            Version::Wide => WIDE_SYMBOL,
        }
    }

    pub(crate) fn most_bytes(self) -> usize
        ensures { result ≡ most_bytes (number_of self) }
    {
        match self {
            Version::Narrow => MOST_NARROW_BYTES,
            Version::Wide => MOST_BYTES,
        }
    }
}
