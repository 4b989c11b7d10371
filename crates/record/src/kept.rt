// A part that keeps its rule, and its line.
ghost use Rattle.std.specs.Prelude.{◌≡◌, true, length};
ghost use Rattle.digits.specs.Room.{laid, put};
ghost use Rattle.record.specs.Form.{number_of, keeps};
ghost use Rattle.record.specs.Text.{value_text, line_text};

use crate::form::Record;
use crate::part::Part;
use lines::Value;

// A part of a record that keeps its rule.
#[derive(Clone, Copy)]
pub(crate) struct Kept<'a> {
    pub(crate) part: Part,
    pub(crate) entry: &'a Record,
    ghost keeps: { keeps (number_of part) entry.now ≡ true },
}

impl Kept<'_> {
    // How many digits stand behind its name.
    fn value_length(&self) -> usize
        ensures { result ≡ length (value_text (number_of self.now.part) self.now.entry.now) }
    {
        match self.part.value(self.entry.set) {
            Value::Fixed(_) => 0,
            Value::Number(_, _) => digits::number_length(self.entry.number_at(self.part)),
            Value::Bytes(_, _, _) => 2 * self.entry.field_at(self.part).held().len(),
        }
    }

    // Puts those digits at the beginning of a place, and gives how many.
    fn put_value(&self, out: &mut [u8]) -> usize
        ensures { laid result out.new ≡ put (value_text (number_of self.now.part) self.now.entry.now) out.old }
    {
        match self.part.value(self.entry.set) {
            Value::Fixed(_) => 0,
            Value::Number(_, _) => digits::put_number(self.entry.number_at(self.part), out),
            Value::Bytes(_, _, case) => digits::put_bytes(
                case,
                self.entry.field_at(self.part).held(),
                out,
            ),
        }
    }

    // How many bytes its line has.
    pub(crate) fn line_length(&self) -> usize
        ensures { result ≡ length (line_text (number_of self.now.part) self.now.entry.now) }
    {
        self.part.name().size + self.value_length() + 1
    }

    // Puts its line at the beginning of a place, and gives its length; a place too short for it stays as it is, and the length is 0.
    pub(crate) fn put_line(&self, out: &mut [u8]) -> usize
        ensures { laid result out.new ≡ put (line_text (number_of self.now.part) self.now.entry.now) out.old }
    {
        let name = self.part.name();
        // No heap: the digits stand in an array, `count` of them.
        let mut value = [0; 512];
        let count = self.put_value(&mut value);
        digits::put_line(&name.bytes[..name.size], &value[..count], out)
    }
}
