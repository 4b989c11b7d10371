// An entry of the log line by line: what each line is called, and what it holds.
ghost use Rattle.std.specs.Prelude.{◌≡◌, ◌++◌, ◌≤◌};
ghost use Rattle.digits.specs.Ascii.{ascii};
ghost use Rattle.lines.specs.Right.{named};
ghost use Rattle.chip_log.specs.Form.{number_of, word_of, call_kind, start_data, data_kind, name, value_kind, kind_at};
ghost use Rattle.chip_log.specs.Calls.{call_of, read_call, read_line};

use digits::Case;
use lines::{Kind, Line, Name, Stopped, Value};
use record::Field;

// A call on a stream: a start in set 1 or 2, a piece of the associated data, a piece of the text, the finish; each with the number that its first line tells.
#[derive(Clone, Copy)]
pub enum Call {
    Start1 = 1,
    Start2 = 2,
    Ad = 3,
    Text = 4,
    Finish = 5,
}

// An entry: the call and what it was handed; the answer, the output and the rounds that the chip gave. Its answer is no `Answer`, since a log may have any number of at
// most seven digits there (`InForm`).
#[derive(Clone, Copy)]
pub struct Entry {
    pub call: Call,
    pub input: Field,
    pub answer: u64,
    pub out: Field,
    pub rounds: u64,
}

// What may stand on the second line of a start in a set: its key and its nonce.
#[tactic(auto, using(sets::proofs::Rows::row_sizes))]
fn start_data(set: u64) -> Value
    ensures { result ≡ start_data set }
{
    // A cast, since a length always fits.
    let size = 2 * (sets::key_length(set) as u16);
    Value::Bytes(size, size, Case::Lower)
}

// What stands in the lines of an entry. The definitions (`name`, `value_kind`) speak of it by the line's number, 1 to 5.
#[derive(Clone, Copy)]
pub(crate) enum Part {
    Call,
    Data,
    Answer,
    Out,
    Rounds,
}

// The same in the order of the lines; as in entry, over its own parts.
const PARTS: [Part; 5] = [
    Part::Call,
    Part::Data,
    Part::Answer,
    Part::Out,
    Part::Rounds,
];

impl Part {
    // What stands in a line.
    pub(crate) fn at(line: usize) -> Part
        requires first { 1 ≤ line }
        requires last { line ≤ 5 }
        ensures { number_of result ≡ line }
    {
        PARTS[line - 1]
    }

    // The name of a line behind the first, with which it begins. Of the first, which has that of its call, the definition gives the last's.
    fn name(self) -> Name
        ensures { result ≡ named (name (number_of self)) }
    {
        match self {
            Part::Data => lines::named(b"data="),
            Part::Answer => lines::named(b"answer="),
            Part::Out => lines::named(b"out="),
            Part::Rounds | Part::Call => lines::named(b"rounds="),
        }
    }
}

impl Call {
    // The first line of its entries, without its line feed: a fixed word.
    fn first_name(self) -> Name
        ensures { result ≡ named (ascii "call=" ++ word_of self) }
    {
        match self {
            Call::Start1 => lines::named(b"call=start1"),
            Call::Start2 => lines::named(b"call=start2"),
            Call::Ad => lines::named(b"call=ad"),
            Call::Text => lines::named(b"call=text"),
            Call::Finish => lines::named(b"call=finish"),
        }
    }

    // The kind of that line.
    #[tactic(auto, unfolding(crate::specs::Form::call_kind))]
    fn first_kind(self) -> Kind
        ensures { result ≡ call_kind self }
    {
        Kind {
            name: self.first_name(),
            value: Value::Fixed(self as u64),
        }
    }

    // What may stand on its second line: key and nonce of the set; at most 256 bytes; nothing.
    fn data_kind(self) -> Value
        ensures { result ≡ data_kind self }
    {
        match self {
            Call::Start1 => start_data(1),
            Call::Start2 => start_data(2),
            Call::Ad | Call::Text => Value::Bytes(0, 256, Case::Lower),
            Call::Finish => Value::Bytes(0, 0, Case::Lower),
        }
    }

    // What may stand behind the name of a line behind the first. Of the first the definition gives the last's.
    fn value_of(self, part: Part) -> Value
        ensures { result ≡ value_kind self (number_of part) }
    {
        match part {
            Part::Data => self.data_kind(),
            Part::Out => Value::Bytes(0, 256, Case::Lower),
            Part::Answer | Part::Rounds | Part::Call => Value::Number(0, 9999999),
        }
    }

    // The kind of a line behind the first; as `Part::kind` of record, of its own parts.
    #[tactic(auto, unfolding(crate::specs::Form::kind_at))]
    pub(crate) fn kind_of(self, part: Part) -> Kind
        ensures { result ≡ kind_at self (number_of part) }
    {
        Kind {
            name: part.name(),
            value: self.value_of(part),
        }
    }
}

// The call that a number tells; any other number tells a start in set 1, as `call_of` (specs/Calls.antt) has it, so this is no `TryFrom`.
impl From<u64> for Call {
    ghost from_gives = { λ number call. call ≡ call_of number };

    fn from(number: u64) -> Call {
        match number {
            2 => Call::Start2,
            3 => Call::Ad,
            4 => Call::Text,
            5 => Call::Finish,
            _ => Call::Start1,
        }
    }
}

// Reads the first line that a text begins with: that of any call.
fn read_call(text: &[u8]) -> Result<Line, Stopped>
    ensures { result ≡ read_call text.now }
{
    let mut found = lines::read(Call::Start1.first_kind(), text);
    for call in [Call::Start2, Call::Ad, Call::Text, Call::Finish] {
        found = lines::either(found, lines::read(call.first_kind(), text));
    }
    found
}

// Reads a line of an entry, where the first line, if there was one, told this call.
#[tactic(auto, unfolding(crate::specs::Calls::read_line))]
pub(crate) fn read_line(call: Call, part: Part, text: &[u8]) -> Result<Line, Stopped>
    ensures { result ≡ read_line call (number_of part) text.now }
{
    match part {
        Part::Call => read_call(text),
        _ => lines::read(call.kind_of(part), text),
    }
}
