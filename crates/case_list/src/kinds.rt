// The kinds of calls, in the order in which they are counted and told. In the first section of the lists every case is the check of an image; in the
// others a case has the tag of its kind, or is an image or words that the calls behind it are lent.
ghost use Rattle.std.specs.Prelude.{◌≡◌, ◌≤◌, Some};
ghost use Rattle.case_list.specs.Kinds.{number_of, kind_in, IsNumbered};
ghost use Rattle.case_list.specs.Lines.{kind_name};

use std::fmt;

#[derive(Clone, Copy, PartialEq, Eq)]
pub enum Kind {
    Images,
    Replays,
    Complete,
    Shadows,
    Direct,
    DirectRecorded,
    Linear,
    LinearRecorded,
    Fresh,
    Replaced,
    Lookups,
    Stitched,
    StitchedRecorded,
}

// How many kinds there are.
pub const KINDS: usize = 13;

// The kind that has a number. Each number behind the last stands for the last kind.
impl From<usize> for Kind {
    ghost from_gives = { IsNumbered };

    fn from(number: usize) -> Kind {
        match number {
            0 => Kind::Images,
            1 => Kind::Replays,
            2 => Kind::Complete,
            3 => Kind::Shadows,
            4 => Kind::Direct,
            5 => Kind::DirectRecorded,
            6 => Kind::Linear,
            7 => Kind::LinearRecorded,
            8 => Kind::Fresh,
            9 => Kind::Replaced,
            10 => Kind::Lookups,
            11 => Kind::Stitched,
            _ => Kind::StitchedRecorded,
        }
    }
}

impl fmt::Display for Kind {
    ghost output = { λ kind. Some (kind_name (number_of kind)) };

    fn fmt<W: fmt::Write>(&self, f: &mut fmt::Formatter<W>) -> fmt::Result {
        f.write_str(match self {
            Kind::Images => "images",
            Kind::Replays => "replays",
            Kind::Complete => "complete",
            Kind::Shadows => "shadows",
            Kind::Direct => "direct",
            Kind::DirectRecorded => "direct recorded",
            Kind::Linear => "linear",
            Kind::LinearRecorded => "linear recorded",
            Kind::Fresh => "fresh",
            Kind::Replaced => "replaced",
            Kind::Lookups => "lookups",
            Kind::Stitched => "stitched",
            Kind::StitchedRecorded => "stitched recorded",
        })
    }
}

// The number of a kind: its place in the order in which the variants stand, which is that of the sums.
fn number(kind: Kind) -> usize
    ensures { result ≡ number_of kind }
{
    kind as usize
}

// The kind of a case in one of the sections; none if it is no call.
pub fn kind_of(section: usize, tag: u8) -> Option<Kind>
    ensures { result ≡ kind_in section tag }
{
    if section == 0 {
        return Some(Kind::Images);
    }
    match tag {
        b'Y' => Some(Kind::Replays),
        b'C' => Some(Kind::Complete),
        b'H' => Some(Kind::Shadows),
        b'D' => Some(Kind::Direct),
        b'd' => Some(Kind::DirectRecorded),
        b'L' => Some(Kind::Linear),
        b'l' => Some(Kind::LinearRecorded),
        b'F' => Some(Kind::Fresh),
        b'R' => Some(Kind::Replaced),
        b'U' => Some(Kind::Lookups),
        b'S' => Some(Kind::Stitched),
        b's' => Some(Kind::StitchedRecorded),
        _ => None,
    }
}

// Its number. That of no call is how many kinds there are.
pub fn kind_number(section: usize, tag: u8) -> usize
    ensures { result ≤ 13 }
{
    match kind_of(section, tag) {
        Some(kind) => number(kind),
        None => KINDS,
    }
}
