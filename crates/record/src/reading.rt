// Reading a record: line by line, by the table of its form.
ghost use Rattle.std.specs.Prelude.{◌≡◌};
ghost use Rattle.lines.proofs.Inside.{read_inside};
ghost use Rattle.record.specs.Form.{number_of, part_at, lines_in, blank};
ghost use Rattle.record.specs.Text.{kind_of};
ghost use Rattle.record.specs.Calls.{with_value, read_at, given, reading_of, read_call, form_of, inside_mark, read_any};

use crate::field;
use crate::form::{Form, Record};
use crate::part::Part;
use lines::{Line, Read, Stopped, Table, Unread, Value};

// Takes what a line says into a part of a record, which stays in its place: nothing, the number, or the bytes of the digits.
#[tactic(auto, unfolding(crate::specs::Calls::with_value))]
fn take_value(part: Part, entry: &mut Record, number: u64, digits: &[u8])
    ensures { entry.new ≡ with_value (number_of part) entry.old number digits.now }
{
    match part.value(entry.set) {
        Value::Fixed(_) => {}
        Value::Number(_, _) => entry.take_number(part, number),
        Value::Bytes(_, _, case) => entry.take_field(part, field::read_field(case, digits)),
    }
}

// The table of a form.
#[derive(Clone, Copy)]
struct FormTable {
    form: Form,
}

impl Table for FormTable {
    type Content = Record;

    ghost count = { λ table. lines_in table.form };

    ghost first = { λ table. blank };

    ghost read_at = { λ table. read_at table.form };

    ghost given = { λ table. given table.form };

    ghost inside = { λ table line entry text. read_inside (kind_of (part_at table.form line) entry.set) text };

    fn count(&self) -> usize {
        self.form.lines()
    }

    fn first(&self) -> Record {
        Record::blank()
    }

    fn read_line(&self, line: usize, entry: &Record, text: &[u8]) -> Result<Line, Stopped> {
        lines::read(self.form.part_at(line).kind(entry.set), text)
    }

    #[tactic(auto, unfolding(crate::specs::Calls::given))]
    fn take_line(&self, line: usize, entry: &mut Record, says: u64, text: &[u8]) {
        let part = self.form.part_at(line);
        let kind = part.kind(entry.set);
        take_value(part, entry, says, lines::value_in(kind, text));
    }
}

// Reads the record of a form that a text begins with.
#[tactic(auto, unfolding(crate::specs::Calls::read_call))]
pub fn read(form: Form, text: &[u8]) -> Result<Read<Record>, Unread>
    ensures { reading_of result ≡ read_call form text.now }
{
    lines::read_table(&FormTable { form }, text)
}

// The form that a text's first line is of.
#[tactic(auto, unfolding(crate::specs::Calls::form_of))]
fn form_of(text: &[u8]) -> Form
    ensures { result ≡ form_of text.now }
{
    if text.starts_with(b"form=") {
        Form::Two
    } else {
        Form::One
    }
}

// Whether a text ends inside `form=`.
#[tactic(auto, unfolding(crate::specs::Calls::inside_mark))]
fn is_inside_mark(text: &[u8]) -> bool
    ensures { result ≡ inside_mark text.now }
{
    text.len() < 5 && b"form=".starts_with(text)
}

// Reads the record of either form that a text begins with.
#[tactic(auto, unfolding(crate::specs::Calls::read_any))]
pub fn read_any(text: &[u8]) -> Result<Read<Record>, Unread>
    ensures { reading_of result ≡ read_any text.now }
{
    if is_inside_mark(text) {
        return Err(Unread {
            line: 1,
            column: 1,
            early: true,
        });
    }
    read(form_of(text), text)
}
