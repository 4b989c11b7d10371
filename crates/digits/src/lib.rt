// Bytes in hex digits, numbers in decimals: digits read from text, both put into lent room. Every function takes anything, and names what it cannot read.
#![tactic(auto)]

mod hex;
mod numbers;

ghost use Rattle.std.specs.Prelude.{◌≡◌};
ghost use Rattle.digits.specs.Room.{line_of, laid, put};

pub use hex::{BadDigit, Case, is_digit, put_bytes, read_digit, read_pair};
pub use numbers::{number_length, put_number};

// Puts a text at the beginning of a place, and gives its length; a place too short for it stays as it is, and the length is 0.
// No Option here and in the three that put: each caller has made room, and adds the lengths of what it puts; an Option would be opened at each sum.
#[tactic(auto, using(crate::proofs::Room::put_short, crate::proofs::Room::put_is))]
pub fn put_text(text: &[u8], out: &mut [u8]) -> usize
    ensures { laid result out.new ≡ put text.now out.old }
{
    if out.len() < text.len() {
        return 0;
    }
    out[..text.len()].copy_from_slice(text);
    text.len()
}

// Puts a line, a name, a value and a line feed, at the beginning of a place, and gives its length; a place too short for it stays as it is, and the length is 0.
// No Option, as at `put_text`.
#[tactic(auto, using(crate::proofs::Room::put_short, crate::proofs::Room::length_line))]
pub fn put_line(name: &[u8], value: &[u8], out: &mut [u8]) -> usize
    ensures { laid result out.new ≡ put (line_of name.now value.now) out.old }
{
    let size = name.len() + value.len();
    if out.len() <= size {
        return 0;
    }
    out[..name.len()].copy_from_slice(name);
    out[name.len()..size].copy_from_slice(value);
    out[size] = b'\n';
    size + 1
}
