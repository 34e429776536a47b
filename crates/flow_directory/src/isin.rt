// Is it an ISIN? Two capitals, nine capitals or digits and a right check digit. ISO 6166; document 02, order 11.
ghost use Rattle.std.specs.Prelude.{◌≡◌, ◌+◌, ◌≤◌, ◌<◌, ◌-◌, length};
ghost use Rattle.semantics.specs.Limits.{isin_bytes};
ghost use Rattle.semantics.specs.Isin.{is_digit, is_capital, may_stand, in_form, letter, doubled, digits, luhn, is_isin, onward};
ghost use Rattle.semantics.specs.Isin.Laws.{with_character};
ghost use Rattle.flow_directory.specs.Sums.{sum_of, Grown};

use semantics::bounds::ISIN_BYTES;

const ZERO: u8 = b'0';

const FIRST_LETTER: u8 = b'A';

// A stands for 10.
const LETTERS: u8 = FIRST_LETTER - 10;

// The country's two letters; the check digit's place.
const COUNTRY: usize = 2;

const CHECK_DIGIT: usize = 11;

// Luhn's sum of the digits to the right, and whether the next one is doubled.
#[derive(Clone, Copy, Debug, PartialEq, Eq)]
pub struct Sum {
    pub total: u32,
    pub doubled: bool,
}

fn is_digit(c: u8) -> bool
    ensures { result ≡ is_digit c }
{
    c.is_ascii_digit()
}

fn is_capital(c: u8) -> bool
    ensures { result ≡ is_capital c }
{
    c.is_ascii_uppercase()
}

// May the character stand at this place?
fn may_stand(i: usize, c: u8) -> bool
    ensures { result ≡ may_stand i c }
{
    if i < COUNTRY {
        return is_capital(c);
    }
    if i < CHECK_DIGIT {
        return is_capital(c) || is_digit(c);
    }
    is_digit(c)
}

// Do all characters stand where they may?
fn is_in_form(isin: &[u8]) -> bool
    ensures { result ≡ in_form 0 isin.now }
{
    for (i, c) in isin.iter().enumerate() {
        if !may_stand(i, *c) {
            return false;
        }
    }
    true
}

// What a letter stands for; 0 for a character below them.
fn letter(c: u8) -> u8
    ensures { result ≡ letter c }
{
    c.saturating_sub(LETTERS)
}

// Twice a digit, its digits summed.
fn doubled(digit: u32) -> u32
    requires { digit ≤ 25 }
    ensures { (result ≡ doubled digit) × (result ≤ 50) }
{
    if 4 < digit {
        return 2 * digit - 9;
    }
    2 * digit
}

// The sum with the next digit to the left.
fn with_digit(sum: Sum, digit: u32) -> Sum
    requires { (sum.total ≤ 5000) × (digit ≤ 25) }
    ensures { (sum_of result ≡ onward (sum_of sum) digit) × Grown 50 sum result }
{
    if sum.doubled {
        return Sum {
            total: sum.total + doubled(digit),
            doubled: false,
        };
    }
    Sum {
        total: sum.total + digit,
        doubled: true,
    }
}

// The sum with the next character: a digit as it is, a letter as two.
fn with_character(sum: Sum, c: u8) -> Sum
    requires { sum.total ≤ 4000 }
    ensures { (sum_of result ≡ with_character (sum_of sum) c) × Grown 100 sum result }
{
    if is_digit(c) {
        return with_digit(sum, u32::from(c - ZERO));
    }
    let value = u32::from(letter(c));
    with_digit(with_digit(sum, value % 10), value / 10)
}

// Luhn's sum, from the right.
fn checksum(isin: &[u8]) -> u32
    requires { length isin.now ≡ isin_bytes }
    ensures { result ≡ (luhn (digits isin.now)).0 }
{
    let mut sum = Sum {
        total: 0,
        doubled: false,
    };
    for c in isin.iter().rev() {
        sum = with_character(sum, *c);
    }
    sum.total
}

// Is it an ISIN, of any bytes?
pub fn is_isin(isin: &[u8]) -> bool
    ensures { result ≡ is_isin isin.now }
{
    if isin.len() != ISIN_BYTES {
        return false;
    }
    if is_in_form(isin) {
        return checksum(isin) % 10 == 0;
    }
    false
}
