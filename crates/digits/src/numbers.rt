// Decimal numerals, with no needless leading zero: how long one is, and writing it.
ghost use Rattle.std.specs.Prelude.{◌≡◌};
ghost use Rattle.digits.specs.Numbers.{places, numeral};
ghost use Rattle.digits.specs.Room.{laid, put};

// How many digits the numeral of a number has.
#[tactic(auto, using(crate::proofs::Numerals::places_is), unfolding(crate::specs::Numbers::places))]
pub fn number_length(n: u64) -> usize
    ensures { result ≡ places n }
{
    match n {
        0 => 1,
        _ => n.ilog10() as usize + 1,
    }
}

// Puts the numeral of a number at the beginning of a place, and gives its length; a place too short for it stays as it is, and the length is 0.
// No Option, as at `put_text`.
#[tactic(auto, using(crate::proofs::Room::put_short, crate::proofs::Room::put_is, crate::proofs::Numerals::length_numeral), unfolding(crate::specs::Numbers::numeral))]
pub fn put_number(n: u64, out: &mut [u8]) -> usize
    ensures { laid result out.new ≡ put (numeral n) out.old }
{
    let count = number_length(n);
    if out.len() < count {
        return 0;
    }
    let mut rest = n;
    for i in (0..count).rev() {
        out[i] = b'0' + (rest % 10) as u8;
        rest /= 10;
    }
    count
}
