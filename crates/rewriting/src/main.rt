// Writes again the records that stand one after another in the first 65,536 bytes of standard input, of either form, in both forms: as they were read, in rooms around
// their length, and with parts changed. The file `stdout` holds the second program's answers to the records in the file `stdin`.
#![tactic(auto)]

ghost use Rattle.std.specs.Prelude.{◌≡◌, ◌≤◌, length};
ghost use Rattle.io.specs.Counts.{IsPrefixLen};
ghost use Rattle.record.specs.Calls.{writing_of};

use answers::Answer;
use record::{Field, Form, Record, Unwritten};

// The number of standard input.
const STDIN_FILENO: i32 = 0;

// The number of standard output.
const STDOUT_FILENO: i32 = 1;

// How many places a record is written in: more than any record takes.
const PLACES: usize = 1710;

// A record, and the form that it is written in.
#[derive(Clone, Copy)]
struct Spelling {
    form: Form,
    entry: Record,
}

// How a part of a record is changed.
#[derive(Clone, Copy)]
enum Change {
    // A number, or a length, that no record allows.
    Over,
    // One more; the largest becomes 0.
    More,
    // One less; 0 becomes the largest.
    Less,
    // The largest number, or a 1 in the last place of the bytes.
    Last,
}

// `say`, `say_line` and STDOUT_FILENO stand in cuttings, limits or walks too. A crate for these few lines, which programs alone use, would be no plainer: its functions
// would want contracts and edits, and printing can have none.

// Writes a name and a number. Kept on `io`, since the program rests on `read` and `write` alone (docs/ANSWERS.md): std's `print!` would trust more of the C library.
fn say(name: &[u8], n: u64) {
    io::write_all(STDOUT_FILENO, name);
    io::print_decimal(STDOUT_FILENO, n);
}

// Writes a name and a count.
fn say_count(name: &[u8], n: usize) {
    say(name, n as u64);
}

// Writes a name and a number in a line of their own.
fn say_line(name: &[u8], n: u64) {
    say(name, n);
    io::write_all(STDOUT_FILENO, b"\n");
}

// Places with a byte in each that no record has, and another than its neighbours.
fn marked() -> [u8; PLACES]
    ensures { 1710 ≡ length result }
{
    std::array::from_fn(|i| (128 + i % 127) as u8)
}

// Writes whether the places behind what was written are as they were.
fn say_rest(kept: bool) {
    if kept {
        io::write_all(STDOUT_FILENO, b" rest=kept\n");
    } else {
        io::write_all(STDOUT_FILENO, b" rest=changed\n");
    }
}

// What a writing answers: the answer, the line and column that go with it, and how many bytes were written.
#[derive(Clone, Copy)]
struct Answered {
    answer: Answer,
    line: usize,
    column: usize,
    written: usize,
}

// What a writing answers, by its result.
#[tactic(auto, unfolding(record::specs::Calls::refused_with))]
fn told(writing: Result<usize, Unwritten>) -> Answered
    ensures { writing_of writing ≡ record { answer = result.answer; line = result.line; column = result.column; written = result.written } }
{
    let (answer, line, written) = match writing {
        Ok(written) => (Answer::Done, 0, written),
        Err(Unwritten::Broken { line }) => (Answer::BrokenRecord, line, 0),
        Err(Unwritten::ChipLost) => (Answer::ChipLost, 0, 0),
        Err(Unwritten::NoRoom) => (Answer::NoRoom, 0, 0),
    };
    Answered {
        answer,
        line,
        column: 0,
        written,
    }
}

// Says what came of a writing: the answer, whether the places behind what was written are as they were, and what was written.
fn say_writing(writing: Result<usize, Unwritten>, before: &[u8], places: &[u8])
    requires written_in_bounds { (writing_of writing).written ≤ length before.now }
    requires prefix_len { IsPrefixLen (writing_of writing).written places.now }
{
    let told = told(writing);
    let written = told.written;
    say(b" answer=", answers::number(told.answer));
    say_count(b" line=", told.line);
    say_count(b" column=", told.column);
    say_count(b" written=", written);
    say_rest(before[written..] == places[written..]);
    io::write_all(STDOUT_FILENO, &places[..written]);
}

// A number changed.
fn change_number(n: u64, over: u64, change: Change) -> u64 {
    match change {
        Change::Over => over,
        Change::More => n.wrapping_add(1),
        Change::Less => n.wrapping_sub(1),
        Change::Last => u64::MAX,
    }
}

// A field changed.
fn change_field(mut field: Field, change: Change) -> Field {
    match change {
        Change::Over => field.size = 257,
        Change::More => field.size = field.size.wrapping_add(1),
        Change::Less => field.size = field.size.wrapping_sub(1),
        Change::Last => field.bytes[255] = 1,
    }
    field
}

// A record with a part changed, by its line in form 2, 2 to 10. No enum: it would only be counted through and printed as that number.
fn change_part(mut entry: Record, part: usize, change: Change) -> Record {
    match part {
        2 => entry.set = change_number(entry.set, sets::ROWS as u64 + 1, change),
        3 => entry.chip = change_number(entry.chip, 65536, change),
        4 => entry.key = change_field(entry.key, change),
        5 => entry.nonce = change_field(entry.nonce, change),
        6 => entry.ad = change_field(entry.ad, change),
        7 => entry.text = change_field(entry.text, change),
        8 => entry.cipher = change_field(entry.cipher, change),
        9 => entry.tag = change_field(entry.tag, change),
        _ => entry.rounds = change_number(entry.rounds, 10000000, change),
    }
    entry
}

impl Spelling {
    // Writes the record, in the first places, so many.
    fn write_in(self, places: &mut [u8], room: usize) -> Result<usize, Unwritten>
        requires { room ≤ length places.old }
        ensures { IsPrefixLen (writing_of result).written places.new }
    {
        record::write(self.form, self.entry, &mut places[..room])
    }

    // Writes the record in so many marked places, and says what came of it.
    fn attempt(self, room: usize) -> Result<usize, Unwritten>
        requires { room ≤ 1710 }
        ensures { (writing_of result).written ≤ 1710 }
    {
        let before = marked();
        let mut places = before;
        let writing = self.write_in(&mut places, room);
        say_count(b": room=", room);
        say_writing(writing, &before, &places);
        writing
    }

    // Writes the record as it was read, in so many places.
    fn try_room(self, room: usize) -> Result<usize, Unwritten>
        requires { room ≤ 1710 }
        ensures { (writing_of result).written ≤ 1710 }
    {
        io::write_all(STDOUT_FILENO, b"as read");
        self.attempt(room)
    }

    // Writes the record as it was read in rooms around its length: all places, as many as it takes and one fewer, none.
    fn try_rooms(self) {
        match self.try_room(PLACES) {
            Ok(size) => {
                let _ = self.try_room(size);
                let _ = self.try_room(size.saturating_sub(1));
            }
            Err(_) => {
                let _ = self.try_room(0);
            }
        }
        let _ = self.try_room(0);
    }

    // Writes the record with a part changed, each of the nine in turn.
    fn try_parts(self, name: &[u8], change: Change) {
        for part in 2..=10 {
            say_count(name, part);
            let entry = change_part(self.entry, part, change);
            let _ = Spelling { entry, ..self }.attempt(PLACES);
        }
    }

    // Writes the record with its last parts over their limits, the last alone first and all nine in the end, in no room.
    fn try_several(mut self) {
        for part in (2..=10).rev() {
            self.entry = change_part(self.entry, part, Change::Over);
            say_count(b"over from part ", part);
            let _ = self.attempt(0);
        }
    }

    // Writes the record in every way: in rooms around its length, and with parts changed.
    fn rewrite(self) {
        self.try_rooms();
        self.try_parts(b"over in part ", Change::Over);
        self.try_parts(b"more in part ", Change::More);
        self.try_parts(b"less in part ", Change::Less);
        self.try_parts(b"last in part ", Change::Last);
        self.try_several();
    }
}

// Writes again every record of a text, up to the first that can not be read.
fn rewrite_all(text: &[u8])
    requires { length text.now ≤ 65536 }
{
    let mut rest = text;
    let mut number: u64 = 1;
    // No `for`: how far a turn goes only the record that it reads can tell.
    while !rest.is_empty() {
        say_line(b"record=", number);
        let reading = match record::read_any(rest) {
            Ok(reading) => reading,
            Err(unread) => {
                say_count(b"unread: line=", unread.line);
                say_line(b" column=", unread.column as u64);
                return;
            }
        };
        let entry = reading.content;
        say_line(b"form=", 1);
        Spelling {
            form: Form::One,
            entry,
        }
        .rewrite();
        say_line(b"form=", 2);
        Spelling {
            form: Form::Two,
            entry,
        }
        .rewrite();
        rest = &rest[reading.taken..];
        number = number.wrapping_add(1);
    }
}

fn main() {
    let mut text = io::large_buffer();
    let end = io::read_full(STDIN_FILENO, &mut text);
    rewrite_all(&text[..end]);
}
