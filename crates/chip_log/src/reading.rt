// Reading an entry of the log: line by line, by its table.
ghost use Rattle.std.specs.Prelude.{◌≡◌};
ghost use Rattle.chip_log.specs.Form.{blank};
ghost use Rattle.chip_log.specs.Calls.{field_in, read_at, given, reading_of, read_entry};
ghost use Rattle.chip_log.specs.Inside.{line_inside};

use crate::form;
use crate::form::{Call, Entry, Part};
use digits::Case;
use lines::{Kind, Line, Read, Stopped, Table, Unread};
use record::Field;

// The field of the digits between the name and the line feed of a line.
#[tactic(auto, unfolding(crate::specs::Calls::field_in))]
fn field_in(kind: Kind, line: &[u8]) -> Field
    ensures { result ≡ field_in kind line.now }
{
    record::read_field(Case::Lower, lines::value_in(kind, line))
}

impl Entry {
    // The entry of a start with nothing in it.
    #[tactic(auto, unfolding(crate::specs::Form::blank))]
    fn blank() -> Entry
        ensures { result ≡ blank }
    {
        let none = record::read_field(Case::Lower, b"");
        Entry {
            call: Call::Start1,
            input: none,
            answer: 0,
            out: none,
            rounds: 0,
        }
    }
}

// The table of an entry's lines.
#[derive(Clone, Copy)]
struct EntryTable;

impl Table for EntryTable {
    type Content = Entry;

    ghost count = { λ table. 5 };

    ghost first = { λ table. blank };

    ghost read_at = { λ table. read_at };

    ghost given = { λ table. given };

    ghost inside = { λ table line entry text. line_inside entry.call line text };

    fn count(&self) -> usize {
        5
    }

    fn first(&self) -> Entry {
        Entry::blank()
    }

    fn read_line(&self, line: usize, entry: &Entry, text: &[u8]) -> Result<Line, Stopped> {
        form::read_line(entry.call, Part::at(line), text)
    }

    #[tactic(auto, unfolding(crate::specs::Calls::given))]
    fn take_line(&self, line: usize, entry: &mut Entry, says: u64, text: &[u8]) {
        match Part::at(line) {
            Part::Call => entry.call = Call::from(says),
            Part::Data => entry.input = field_in(entry.call.kind_of(Part::Data), text),
            Part::Answer => entry.answer = says,
            Part::Out => entry.out = field_in(entry.call.kind_of(Part::Out), text),
            Part::Rounds => entry.rounds = says,
        }
    }
}

// Reads the entry that a text begins with.
#[tactic(auto, unfolding(crate::specs::Calls::read_entry))]
pub fn read(text: &[u8]) -> Result<Read<Entry>, Unread>
    ensures { reading_of result ≡ read_entry text.now }
{
    lines::read_table(&EntryTable, text)
}
