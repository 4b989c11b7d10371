// Reading an entry: line by line, by its table.
ghost use Rattle.std.specs.Prelude.{◌≡◌, ◌-◌, ◌*◌, ◌≤◌};
ghost use Rattle.ascon.specs.Sets.{row_of};
ghost use Rattle.entry.specs.declared.reading.Unread.TheVariants.{Broken};
ghost use Rattle.lines.proofs.Inside.{read_inside};
ghost use Rattle.entry.specs.Form.{number_of, kind_at};
ghost use Rattle.entry.specs.Calls.{with_line, begun, rounded, read_at, given, reading_of, read_entry};

use crate::form::Part;
use digits::Case;
use lines::{Line, Read, Stopped, Table};
use record::Record;

// Why no entry is read: the set is unknown; or the text is wrong, at a line and column.
#[derive(Clone, Copy)]
pub enum Unread {
    UnknownSet,
    Broken(record::Unread),
}

// Where a text is wrong is why no entry is read.
impl From<record::Unread> for Unread {
    ghost from_gives = { λ wrong unread. unread ≡ Broken wrong };

    fn from(wrong: record::Unread) -> Unread {
        Unread::Broken(wrong)
    }
}

// A record of a set, with nothing else. `Record::blank` is record's own: a public one would want a row of `every_call`.
#[tactic(auto, unfolding(crate::specs::Calls::begun))]
fn begin(set: u64) -> Record
    ensures { result ≡ begun set }
{
    let none = record::read_field(Case::Upper, b"");
    Record {
        set,
        chip: 0,
        key: none,
        nonce: none,
        ad: none,
        text: none,
        cipher: none,
        tag: none,
        rounds: 0,
    }
}

// How many of the digits of CT are the ciphertext's: all but the tag's, two for each byte of a key.
#[tactic(auto, using(sets::proofs::Rows::row_sizes))]
fn cipher_digits(set: u64, count: usize) -> usize
    ensures { result ≡ count - 2 * (row_of set).key }
{
    count.saturating_sub(2 * sets::key_length(set))
}

// Takes the bytes of a line's digits into a record, which stays in its place.
#[tactic(auto, unfolding(crate::specs::Calls::with_line))]
fn take_digits(part: Part, entry: &mut Record, digits: &[u8])
    ensures { entry.new ≡ with_line (number_of part) entry.old digits.now }
{
    match part {
        Part::Key => entry.key = record::read_field(Case::Upper, digits),
        Part::Nonce => entry.nonce = record::read_field(Case::Upper, digits),
        Part::Pt => entry.text = record::read_field(Case::Upper, digits),
        Part::Ad => entry.ad = record::read_field(Case::Upper, digits),
        Part::Ct => {
            let (cipher, tag) = digits.split_at(cipher_digits(entry.set, digits.len()));
            entry.cipher = record::read_field(Case::Upper, cipher);
            entry.tag = record::read_field(Case::Upper, tag);
        }
        Part::Count | Part::End => {}
    }
}

// A record with the rounds of the formula.
#[tactic(auto, unfolding(crate::specs::Calls::rounded))]
fn with_rounds(entry: Record) -> Record
    requires size_bound { entry.ad.size ≤ 256 }
    requires size_bound_2 { entry.text.size ≤ 256 }
    ensures { result ≡ rounded entry }
{
    Record {
        rounds: sets::message_rounds(entry.set, entry.ad.size as u32, entry.text.size as u32),
        ..entry
    }
}

// The table of the entry of a set and a number.
#[derive(Clone, Copy)]
struct EntryTable {
    set: u64,
    number: u64,
}

impl Table for EntryTable {
    type Content = Record;

    ghost count = { λ table. 7 };

    ghost first = { λ table. begun table.set };

    ghost read_at = { λ table. read_at table.set table.number };

    ghost given = { λ table. given table.set table.number };

    ghost inside = { λ table line entry text. read_inside (kind_at table.set table.number line) text };

    fn count(&self) -> usize {
        7
    }

    fn first(&self) -> Record {
        begin(self.set)
    }

    fn read_line(&self, line: usize, _entry: &Record, text: &[u8]) -> Result<Line, Stopped> {
        lines::read(Part::at(line).kind(self.set, self.number), text)
    }

    #[tactic(auto, unfolding(crate::specs::Calls::given, crate::specs::Calls::with_line))]
    fn take_line(&self, line: usize, entry: &mut Record, _says: u64, text: &[u8]) {
        match Part::at(line) {
            Part::Count | Part::End => {}
            part => {
                let kind = part.kind(self.set, self.number);
                take_digits(part, entry, lines::value_in(kind, text));
            }
        }
    }
}

// Reads the entry of a set and a number that a text begins with.
#[tactic(auto, unfolding(crate::specs::Calls::read_entry))]
pub fn read(set: u64, number: u64, text: &[u8]) -> Result<Read<Record>, Unread>
    ensures { reading_of result ≡ read_entry set number text.now }
{
    if !sets::is_set(set) {
        return Err(Unread::UnknownSet);
    }
    let read = lines::read_table(&EntryTable { set, number }, text)?;
    Ok(Read {
        content: with_rounds(read.content),
        ..read
    })
}
