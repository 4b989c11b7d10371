// A decimal, read as a number of 64 bits.
ghost use Rattle.std.specs.Prelude.{◌≡◌, Some};
ghost use Rattle.bench.specs.Decimal.{with_digit, decimal_of};

// A number with one character more: none where it is no digit, or where the number would have more than 64 bits. lines has the like between bounds, as a step of its walk.
fn with_digit(number: u64, character: u8) -> Option<u64>
    ensures { result ≡ with_digit (Some number) character }
{
    if !character.is_ascii_digit() {
        return None;
    }
    number
        .checked_mul(10)?
        .checked_add(u64::from(character - b'0'))
}

// The number that a text spells, digit by digit; an empty text spells none.
pub(crate) fn read(text: &[u8]) -> Option<u64>
    ensures { result ≡ decimal_of text.now }
{
    if text.is_empty() {
        return None;
    }
    let mut number = 0;
    for character in text {
        number = with_digit(number, *character)?;
    }
    Some(number)
}
