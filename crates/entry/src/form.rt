// An entry line by line: what each line is called, and what it holds.
ghost use Rattle.std.specs.Prelude.{◌≡◌, ◌++◌, ◌≤◌, length};
ghost use Rattle.ascon.specs.Sets.{row_of};
ghost use Rattle.digits.specs.Ascii.{ascii};
ghost use Rattle.digits.specs.Numbers.{numeral};
ghost use Rattle.digits.specs.Room.{laid, put};
ghost use Rattle.lines.specs.Right.{named};
ghost use Rattle.entry.specs.Form.{number_of, name, value_kind, kind_at};

use digits::Case;
use lines::{Kind, Name, Value};

// What stands in the lines of an entry; the last line is empty. The definitions (`name`, `value_kind`, `bytes_at`) speak of it by the line's number, 1 to 7.
#[derive(Clone, Copy)]
pub(crate) enum Part {
    Count,
    Key,
    Nonce,
    Pt,
    Ad,
    Ct,
    End,
}

// The same in the order of the lines.
pub(crate) const PARTS: [Part; 7] = [
    Part::Count,
    Part::Key,
    Part::Nonce,
    Part::Pt,
    Part::Ad,
    Part::Ct,
    Part::End,
];

// Puts the first line of an entry, without its line feed, at the beginning of a place that has room for it, and gives its length.
fn put_count(number: u64, out: &mut [u8]) -> usize
    requires { 32 ≤ length out.old }
    ensures { laid result out.new ≡ put (ascii "Count = " ++ numeral number) out.old }
{
    let count = digits::put_text(b"Count = ", out);
    count + digits::put_number(number, &mut out[count..])
}

// The name of the first line: the entry's number is a part of it.
fn count_name(number: u64) -> Name
    ensures { result ≡ named (ascii "Count = " ++ numeral number) }
{
    // No heap: the text stands in an array, `size` bytes of it.
    let mut text = [0; 32];
    let size = put_count(number, &mut text);
    lines::named(&text[..size])
}

impl Part {
    // What stands in a line.
    pub(crate) fn at(line: usize) -> Part
        requires first { 1 ≤ line }
        requires last { line ≤ 7 }
        ensures { number_of result ≡ line }
    {
        PARTS[line - 1]
    }

    // The name of a line, with which it begins.
    #[tactic(auto, unfolding(crate::specs::Form::name))]
    pub(crate) fn name(self, number: u64) -> Name
        ensures { result ≡ named (name number (number_of self)) }
    {
        match self {
            Part::Count => count_name(number),
            Part::Key => lines::named(b"Key = "),
            Part::Nonce => lines::named(b"Nonce = "),
            Part::Pt => lines::named(b"PT = "),
            Part::Ad => lines::named(b"AD = "),
            Part::Ct => lines::named(b"CT = "),
            Part::End => lines::named(b""),
        }
    }

    // What may stand behind the name of a line, in this set.
    #[tactic(auto, using(sets::proofs::Rows::row_sizes), unfolding(crate::specs::Form::value_kind))]
    fn value(self, set: u64) -> Value
        ensures { result ≡ value_kind (row_of set).key (number_of self) }
    {
        // A cast, since a length always fits.
        let key = sets::key_length(set) as u16;
        match self {
            Part::Count | Part::End => Value::Fixed(0),
            Part::Key | Part::Nonce => Value::Bytes(key, key, Case::Upper),
            Part::Pt | Part::Ad => Value::Bytes(0, 256, Case::Upper),
            Part::Ct => Value::Bytes(key, key + 256, Case::Upper),
        }
    }

    // The kind of a line, in an entry of this set and number; as `Part::kind` of record, of its own parts.
    #[tactic(auto, unfolding(crate::specs::Form::kind_at))]
    pub(crate) fn kind(self, set: u64, number: u64) -> Kind
        ensures { result ≡ kind_at set number (number_of self) }
    {
        Kind {
            name: self.name(number),
            value: self.value(set),
        }
    }
}
