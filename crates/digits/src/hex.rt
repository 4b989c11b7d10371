// Hex digits, in lower or upper case: one, a pair, and bytes.
ghost use Rattle.std.specs.Prelude.{◌≡◌, ◌<◌};
ghost use Rattle.digits.specs.Hex.{letter_a, digit_in, digit_of, is_value, pair_of, hex_digit_in, hex_in};
ghost use Rattle.digits.specs.LookUp.{digit_row, entry_of, none_below};
ghost use Rattle.digits.specs.Room.{laid, put};

// The case of the letters among the digits.
#[derive(Clone, Copy, PartialEq, Eq)]
pub enum Case {
    Lower,
    Upper,
}

// Which of two characters is no digit: the first where neither is one.
#[derive(Clone, Copy, PartialEq, Eq)]
pub enum BadDigit {
    First,
    Second,
}

// A row without a digit.
const NO_DIGITS: u64 = 0xffffffffffffffff;

// A row of the list that characters are looked up in: the values of the characters 8 * row to 8 * row + 7, a byte each, the first in the low byte; 16 more for a letter
// in upper case, ff for one that is no digit. Each row has an arm of its own: so the compiler keeps the list in constant memory, and looking a character up is one load.
fn digit_row(row: u8) -> u64
    ensures { result ≡ digit_row row }
{
    match row {
        0 => NO_DIGITS,
        1 => NO_DIGITS,
        2 => NO_DIGITS,
        3 => NO_DIGITS,
        4 => NO_DIGITS,
        5 => NO_DIGITS,
        6 => 0x0706050403020100,
        7 => 0xffffffffffff0908,
        8 => 0xff1f1e1d1c1b1aff,
        9 => NO_DIGITS,
        10 => NO_DIGITS,
        11 => NO_DIGITS,
        12 => 0xff0f0e0d0c0b0aff,
        13 => NO_DIGITS,
        14 => NO_DIGITS,
        15 => NO_DIGITS,
        16 => NO_DIGITS,
        17 => NO_DIGITS,
        18 => NO_DIGITS,
        19 => NO_DIGITS,
        20 => NO_DIGITS,
        21 => NO_DIGITS,
        22 => NO_DIGITS,
        23 => NO_DIGITS,
        24 => NO_DIGITS,
        25 => NO_DIGITS,
        26 => NO_DIGITS,
        27 => NO_DIGITS,
        28 => NO_DIGITS,
        29 => NO_DIGITS,
        30 => NO_DIGITS,
        _ => row_behind(row),
    }
}

// The last row, and any behind it: no digits.
fn row_behind(row: u8) -> u64
    requires { none_below 31 row }
    ensures { result ≡ digit_row row }
{
    NO_DIGITS
}

// A character's entry in the list, shifted out of its row: by `to_le_bytes`, tried in plain Rust, the row is stored first, and reading digits takes 1.2 times as long.
fn entry_of(character: u8) -> u8
    ensures { result ≡ entry_of character }
{
    let row = digit_row(character / 8);
    ((row >> (8 * (character % 8))) % 256) as u8
}

// The value of a digit, its letter in lower case.
pub fn read_digit(character: u8) -> Option<u8>
    ensures { result ≡ digit_of character }
{
    digit_in(Case::Lower, character)
}

// Whether a character is a digit, its letter in the case asked for.
pub fn is_digit(case: Case, character: u8) -> bool
    ensures { result ≡ is_value (digit_in case character) }
{
    digit_in(case, character).is_some()
}

// The value of a digit, its letter in the case asked for.
#[tactic(auto, using(crate::proofs::LookUp::looked_up))]
fn digit_in(case: Case, character: u8) -> Option<u8>
    ensures { result ≡ digit_in case character }
{
    let entry = entry_of(character);
    match (case, entry) {
        (Case::Lower, 0..16) | (Case::Upper, 0..10 | 16..32) => Some(entry % 16),
        _ => None,
    }
}

// The byte of two digits, the high one first; or which of them is at fault.
pub fn read_pair(case: Case, high: u8, low: u8) -> Result<u8, BadDigit>
    ensures { result ≡ pair_of (digit_in case high) (digit_in case low) }
{
    let first = digit_in(case, high).ok_or(BadDigit::First)?;
    let second = digit_in(case, low).ok_or(BadDigit::Second)?;
    Ok(16 * first + second)
}

// The letter of ten.
fn letter_a(case: Case) -> u8
    ensures { result ≡ letter_a case }
{
    match case {
        Case::Lower => b'a',
        Case::Upper => b'A',
    }
}

// The digit of a value below 16.
#[tactic(auto, unfolding(crate::specs::Hex::hex_digit_in))]
fn spelled(case: Case, value: u8) -> u8
    requires { value < 16 }
    ensures { result ≡ hex_digit_in case value }
{
    if value < 10 {
        b'0' + value
    } else {
        letter_a(case) - 10 + value
    }
}

// Puts bytes at the beginning of a place, two digits each, and gives how many digits; a place too short for them stays as it is, and the number is 0.
// No Option, as at `put_text`.
#[tactic(auto, using(crate::proofs::Room::put_short, crate::proofs::Spelling::length_hex))]
pub fn put_bytes(case: Case, bytes: &[u8], out: &mut [u8]) -> usize
    ensures { laid result out.new ≡ put (hex_in case bytes.now) out.old }
{
    if out.len() / 2 < bytes.len() {
        return 0;
    }
    for (i, b) in bytes.iter().enumerate() {
        out[2 * i] = spelled(case, b / 16);
        out[2 * i + 1] = spelled(case, b % 16);
    }
    2 * bytes.len()
}
