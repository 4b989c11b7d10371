// A record part by part: what each part holds, and its rule; and which parts the lines of a form are.
ghost use Rattle.std.specs.Prelude.{◌≡◌, ◌&&◌, ◌≤◌, leb, length};
ghost use Rattle.record.specs.Form.{number_of, part_at, lines_in, number_at, field_at, with_number, with_field, blank, allows, keeps, broken, loses_chip};
ghost use Rattle.record.specs.Calls.{line_found};

use crate::field::Field;
use crate::part::Part;
use lines::Value;

// The two forms of a record's text: eight lines, or ten, of which two are for the form itself and for the chip.
#[derive(Clone, Copy)]
pub enum Form {
    One,
    Two,
}

// A bench record. One in form has a known set, key, nonce and tag of its length, at most 256 bytes in the others, and rounds of at most seven digits; in form 2 also a
// chip of 16 bits. Form 1 has no line for the chip, and spells only records with chip 0.
#[derive(Clone, Copy)]
pub struct Record {
    pub set: u64,
    pub chip: u64,
    pub key: Field,
    pub nonce: Field,
    pub ad: Field,
    pub text: Field,
    pub cipher: Field,
    pub tag: Field,
    pub rounds: u64,
}

// The parts that stand in the lines of form 1.
const ONE: [Part; 8] = [
    Part::Set,
    Part::Key,
    Part::Nonce,
    Part::Ad,
    Part::Text,
    Part::Cipher,
    Part::Tag,
    Part::Rounds,
];

// The parts that stand in the lines of form 2.
const TWO: [Part; 10] = [
    Part::Form,
    Part::Set,
    Part::Chip,
    Part::Key,
    Part::Nonce,
    Part::Ad,
    Part::Text,
    Part::Cipher,
    Part::Tag,
    Part::Rounds,
];

impl Form {
    // How many lines a form has.
    pub(crate) fn lines(self) -> usize
        ensures { result ≡ lines_in self }
    {
        match self {
            Form::One => ONE.len(),
            Form::Two => TWO.len(),
        }
    }

    // The part of a record that stands in a line of a form.
    pub(crate) fn part_at(self, line: usize) -> Part
        requires first { 1 ≤ line }
        requires last { line ≤ lines_in self }
        ensures { number_of result ≡ part_at self line }
    {
        match self {
            Form::One => ONE[line - 1],
            Form::Two => TWO[line - 1],
        }
    }

    // Whether a form has no line for the chip, and the chip is another than 0.
    pub(crate) fn loses_chip(self, entry: &Record) -> bool
        ensures { result ≡ loses_chip self entry.now }
    {
        match self {
            Form::One => entry.chip != 0,
            Form::Two => false,
        }
    }
}

impl Record {
    // The record of zeros.
    #[tactic(auto, unfolding(crate::specs::Form::blank))]
    pub(crate) fn blank() -> Record
        ensures { result ≡ blank }
    {
        let none = Field::empty();
        Record {
            set: 0,
            chip: 0,
            key: none,
            nonce: none,
            ad: none,
            text: none,
            cipher: none,
            tag: none,
            rounds: 0,
        }
    }

    // The number of a part that holds one: the set, the chip or the rounds. Of any other part the definition, which is of every part, gives the rounds.
    pub(crate) fn number_at(&self, part: Part) -> u64
        ensures { result ≡ number_at (number_of part) self.now }
    {
        match part {
            Part::Set => self.set,
            Part::Chip => self.chip,
            Part::Rounds => self.rounds,
            Part::Form
            | Part::Key
            | Part::Nonce
            | Part::Ad
            | Part::Text
            | Part::Cipher
            | Part::Tag => self.rounds,
        }
    }

    // The bytes of a part that holds some. Of any other part the definition, which is of every part, gives the key.
    pub(crate) fn field_at(&self, part: Part) -> &Field
        ensures { result.now ≡ field_at (number_of part) self.now }
    {
        match part {
            Part::Key => &self.key,
            Part::Nonce => &self.nonce,
            Part::Ad => &self.ad,
            Part::Text => &self.text,
            Part::Cipher => &self.cipher,
            Part::Tag => &self.tag,
            Part::Form | Part::Set | Part::Chip | Part::Rounds => &self.key,
        }
    }

    // Takes another number into a part that holds one.
    #[tactic(auto, unfolding(crate::specs::Form::with_number))]
    pub(crate) fn take_number(&mut self, part: Part, n: u64)
        ensures { self.new ≡ with_number (number_of part) n self.old }
    {
        match part {
            Part::Set => self.set = n,
            Part::Chip => self.chip = n,
            Part::Rounds => self.rounds = n,
            _ => {}
        }
    }

    // Takes other bytes into a part that holds some.
    #[tactic(auto, unfolding(crate::specs::Form::with_field))]
    pub(crate) fn take_field(&mut self, part: Part, field: Field)
        ensures { self.new ≡ with_field (number_of part) field self.old }
    {
        match part {
            Part::Key => self.key = field,
            Part::Nonce => self.nonce = field,
            Part::Ad => self.ad = field,
            Part::Text => self.text = field,
            Part::Cipher => self.cipher = field,
            Part::Tag => self.tag = field,
            _ => {}
        }
    }

    // Whether a part holds what it may.
    #[tactic(auto, unfolding(crate::specs::Form::keeps))]
    pub(crate) fn keeps_rule(&self, part: Part) -> bool
        ensures { result ≡ keeps (number_of part) self.now }
    {
        is_allowed(
            part.value(self.set),
            self.number_at(part),
            self.field_at(part),
        )
    }
}

// Whether a number or a field is what may be held.
fn is_allowed(value: Value, n: u64, field: &Field) -> bool
    ensures { result ≡ allows value n field.now }
{
    match value {
        Value::Fixed(_) => true,
        Value::Number(least, most) => (least..=most).contains(&n),
        Value::Bytes(least, most, _) => {
            field.is_in_form() && (usize::from(least)..=usize::from(most)).contains(&field.size)
        }
    }
}

// The first line of a record in a form that breaks its rule, if one does.
pub fn first_broken(form: Form, entry: Record) -> Option<usize>
    ensures { result ≡ line_found (broken form entry) }
{
    for line in 1..=form.lines() {
        if !entry.keeps_rule(form.part_at(line)) {
            return Some(line);
        }
    }
    None
}
