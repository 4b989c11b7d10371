// Writing an entry: line by line, each straight after the one before.
ghost use Rattle.std.specs.Prelude.{◌≡◌, cond, [], ◌∷◌, ◌-◌, ◌≤◌, eqb, length, get_or};
ghost use Rattle.digits.specs.declared.hex.Case.TheVariants.{Upper};
ghost use Rattle.digits.specs.Hex.{hex_in};
ghost use Rattle.digits.specs.Room.{laid, put};
ghost use Rattle.record.specs.declared.form.Form.TheVariants.{One};
ghost use Rattle.record.specs.Form.{field_of, held, broken};
ghost use Rattle.record.specs.Calls.{writing_of, write_leaves};
ghost use Rattle.entry.specs.Form.{number_of, bytes_at, line_text, entry_text};
ghost use Rattle.entry.specs.Calls.{write_entry};

use crate::form::{PARTS, Part};
use digits::Case;
use record::{Field, Form, Record, Unwritten};

// The field of a record that stands behind the name of a line; the empty one where none does.
fn first_field(part: Part, entry: &Record) -> Field
    ensures { result ≡ get_or (field_of [] ∷ entry.now.key ∷ entry.now.nonce ∷ entry.now.text ∷ entry.now.ad ∷ entry.now.cipher ∷ []) (number_of part - 1) (field_of []) }
{
    match part {
        Part::Key => entry.key,
        Part::Nonce => entry.nonce,
        Part::Pt => entry.text,
        Part::Ad => entry.ad,
        Part::Ct => entry.cipher,
        Part::Count | Part::End => record::read_field(Case::Upper, b""),
    }
}

// The field behind that: the tag behind the ciphertext.
fn second_field(part: Part, entry: &Record) -> Field
    ensures { result ≡ cond (eqb (number_of part) 6) entry.now.tag (field_of []) }
{
    match part {
        Part::Ct => entry.tag,
        _ => record::read_field(Case::Upper, b""),
    }
}

// Puts the digits of a field at the beginning of a place, and gives how many.
fn put_field(field: Field, out: &mut [u8]) -> usize
    requires { field.size ≤ 256 }
    ensures { laid result out.new ≡ put (hex_in Upper (held field)) out.old }
{
    digits::put_bytes(Case::Upper, &field.bytes[..field.size], out)
}

// A record in form, with the number of its entry.
#[derive(Clone, Copy)]
struct Entry {
    number: u64,
    content: Record,
    ghost in_form: { broken One content ≡ 0 },
}

impl Entry {
    // Puts the digits of a line at the beginning of a place that has room for them, and gives how many.
    fn put_value(&self, part: Part, out: &mut [u8]) -> usize
        requires { 544 ≤ length out.old }
        ensures { laid result out.new ≡ put (hex_in Upper (bytes_at (number_of part) self.now.content)) out.old }
    {
        let first = put_field(first_field(part, &self.content), out);
        first + put_field(second_field(part, &self.content), &mut out[first..])
    }

    // Puts a line at the beginning of a place, and gives its length; a place too short for it stays as it is, and the length is 0.
    fn put_line(&self, part: Part, out: &mut [u8]) -> usize
        ensures { laid result out.new ≡ put (line_text self.now.number (number_of part) self.now.content) out.old }
    {
        let name = part.name(self.number);
        // No heap: the digits stand in an array, `count` of them.
        let mut value = [0; 544];
        let count = self.put_value(part, &mut value);
        digits::put_line(&name.bytes[..name.size], &value[..count], out)
    }

    // Puts all lines at the beginning of a place that has room for them, and gives their length. `record::write` has the like loop over its parts; one for both, with a trait
    // for what puts a line, would be no plainer.
    fn put_lines(&self, out: &mut [u8]) -> usize
        requires { length (entry_text self.now.number self.now.content) ≤ length out.old }
        ensures { laid result out.new ≡ put (entry_text self.now.number self.now.content) out.old }
    {
        let mut at = 0;
        for part in PARTS {
            at += self.put_line(part, &mut out[at..]);
        }
        at
    }
}

// Writes the entry of a record at the beginning of a place; a record out of form, with a chip, or a place too short is refused.
#[tactic(auto, using(record::proofs::Written::none_found, record::proofs::Written::found_line), unfolding(crate::specs::Calls::write_entry))]
pub fn write(number: u64, entry: Record, out: &mut [u8]) -> Result<usize, Unwritten>
    ensures { write_leaves (writing_of result) out.new ≡ write_entry number entry out.old }
{
    if let Some(line) = record::first_broken(Form::One, entry) {
        return Err(Unwritten::Broken { line });
    }
    if entry.chip != 0 {
        return Err(Unwritten::ChipLost);
    }
    let whole = Entry {
        number,
        content: entry,
    };
    // No heap: the entry stands in an array, `size` bytes of it.
    let mut text = [0; 1696];
    let size = whole.put_lines(&mut text);
    if out.len() < size {
        return Err(Unwritten::NoRoom);
    }
    Ok(digits::put_text(&text[..size], out))
}
