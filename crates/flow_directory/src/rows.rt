// The rows of a directory: do all of them ascend, and which one has the key? One pass for both. Document 02, order 11.
ghost use Rattle.std.specs.Prelude.{◌≡◌, ◌<◌, ◌^◌, Some, length, ltb};
ghost use Rattle.semantics.specs.Limits.{isin_bytes};
ghost use Rattle.semantics.specs.Lists.{pick};
ghost use Rattle.semantics.specs.Entries.{key_of};
ghost use Rattle.semantics.specs.Directory.{key_at, reference_at, rises_at, is_at, is_directory, looked_up};
ghost use Rattle.flow_directory.specs.Keys.{RowIn, Halved, number_of, looked_of};

use semantics::bounds::{KEY_BYTES, ROW_BYTES};
use words::{bytes, halves};

// A key of 16 bytes in two halves, the high one first.
#[derive(Clone, Copy, Debug, PartialEq, Eq)]
pub struct Key {
    pub high: u64,
    pub low: u64,
}

// The key that is looked for, as the caller gives it.
#[derive(Clone, Copy)]
pub struct Sought<'a> {
    pub isin: &'a [u8],
    pub tranche: u32,
    pub leg: u32,
}

// Why there is no reference: no row has the key, or the rows are none of a directory.
#[derive(Clone, Copy, Debug, PartialEq, Eq)]
pub enum LookUpRefusal {
    Missing,
    Disordered,
}

// The key of row i.
fn key_at(rows: &[u8], i: usize) -> Key
    requires { RowIn i rows.now }
    ensures { Halved result (key_at rows.now i) }
{
    let at = ROW_BYTES * i;
    Key {
        high: halves::join(bytes::long(rows, at + 4), bytes::long(rows, at)),
        low: halves::join(bytes::long(rows, at + 12), bytes::long(rows, at + 8)),
    }
}

// Kept: tried as a derived order, a look-up among 2,000 rows took 140,856 instructions, 88,874 so.
fn is_below(left: Key, right: Key) -> bool
    requires { (left.low < 2 ^ 64) × (right.low < 2 ^ 64) }
    ensures { result ≡ ltb (number_of left) (number_of right) }
{
    if left.high < right.high {
        return true;
    }
    if right.high < left.high {
        return false;
    }
    left.low < right.low
}

// Is the key of row i above that of the row before?
fn rises(rows: &[u8], i: usize) -> bool
    requires { RowIn i rows.now }
    ensures { result ≡ rises_at rows.now i }
{
    if 0 < i {
        return is_below(key_at(rows, i - 1), key_at(rows, i));
    }
    true
}

// Is this the key of row i?
fn is_at(rows: &[u8], sought: Sought, i: usize) -> bool
    requires { RowIn i rows.now × (length sought.isin.now ≡ isin_bytes) }
    ensures { result ≡ is_at rows.now (key_of sought.entry.isin.now sought.entry.tranche sought.entry.leg) i }
{
    let at = ROW_BYTES * i;
    let high = halves::join(bytes::long(rows, at + 4), bytes::long(rows, at));
    let low = bytes::long(rows, at + 8);
    let sought_high = halves::join(bytes::long(sought.isin, 4), bytes::long(sought.isin, 0));
    let sought_low = bytes::long(sought.isin, 8);
    if high != sought_high {
        return false;
    }
    if low != sought_low {
        return false;
    }
    if bytes::short(rows, at + 12) != sought.tranche {
        return false;
    }
    bytes::short(rows, at + 14) == sought.leg
}

// The reference of row i if it has the key, else what was found before.
fn noted(rows: &[u8], sought: Sought, i: usize, found: Option<u32>) -> Option<u32>
    requires { RowIn i rows.now × (length sought.isin.now ≡ isin_bytes) }
    ensures { result ≡ pick (is_at rows.now (key_of sought.entry.isin.now sought.entry.tranche sought.entry.leg) i) (Some (reference_at rows.now i)) found }
{
    if is_at(rows, sought, i) {
        return Some(bytes::short(rows, ROW_BYTES * i + KEY_BYTES));
    }
    found
}

// All rows are looked at, also those behind the one that has the key.
pub fn look_up(rows: &[u8], sought: Sought) -> Result<u32, LookUpRefusal>
    requires { length sought.isin.now ≡ isin_bytes }
    ensures { result ≡ looked_of (is_directory rows.now) (looked_up rows.now (key_of sought.entry.isin.now sought.entry.tranche sought.entry.leg)) }
{
    if 0 < rows.len() % ROW_BYTES {
        return Err(LookUpRefusal::Disordered);
    }
    let mut found = None;
    for i in 0..rows.len() / ROW_BYTES {
        if !rises(rows, i) {
            return Err(LookUpRefusal::Disordered);
        }
        found = noted(rows, sought, i, found);
    }
    found.ok_or(LookUpRefusal::Missing)
}
