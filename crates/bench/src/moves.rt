// Moving all records on standard input from one kind of text to another, and saying how that ended.
ghost use Rattle.std.specs.Prelude.{◌≡◌, ◌++◌, ◌≤◌, Ok, Err, length};
ghost use Rattle.moving.specs.Moves.{moving_all_of, Numbered};
ghost use Rattle.bench.specs.declared.moves.NotCarried.TheVariants.{Unread, Unmoved};
ghost use Rattle.bench.specs.Moves.{Places, written_in, record_words, place_words, moved_words, carried_of, NumberedIn};
ghost use Rattle.bench.specs.Whole.{Carries};

use crate::system::System;
use crate::whole::Unread;
use crate::words::Words;
use crate::{system, whole};
use answers::Answer;
use moving::{MovedAll, Route, UnmovedAll};

// The bytes of the place for the input: those that may come, and one more, so that the end is seen.
const HELD: usize = 1048577;

// The bytes of the place for the new text: twice as many, which is always enough.
const ROOM: usize = 2097154;

// A place of so many bytes.
#[tactic(auto, using(crate::proofs::Rooms::places_repeated))]
fn place<const N: usize>() -> [u8; N]
    ensures { Places N result }
{
    [0; N]
}

// Why the records on standard input were not moved: not all of the input was read, or a record is refused.
#[derive(Clone, Copy)]
pub enum NotCarried {
    Unread(Unread),
    Unmoved(UnmovedAll),
}

impl From<Unread> for NotCarried {
    ghost from_gives = { λ why refused. refused ≡ Unread why };

    fn from(why: Unread) -> NotCarried {
        NotCarried::Unread(why)
    }
}

impl From<UnmovedAll> for NotCarried {
    ghost from_gives = { λ why refused. refused ≡ Unmoved why };

    fn from(why: UnmovedAll) -> NotCarried {
        NotCarried::Unmoved(why)
    }
}

// What is said of records that were moved.
#[tactic(auto, unfolding(crate::specs::Moves::moved_words))]
fn moved_words(moved: MovedAll) -> Words<256>
    ensures { result ≡ moved_words (moving_all_of (Ok moved)) }
{
    let mut words = Words::new();
    words.numbered(b"bench: done: records=", moved.records);
    words.text(b"\n");
    words
}

// Puts the number of the record that is refused, if it is for a single one, and the line and column at which that is wrong, if it is, behind words.
#[tactic(auto, unfolding(moving::specs::Moves::refused_all, crate::specs::Moves::record_words, crate::specs::Moves::place_words))]
fn put_place(words: &mut Words<256>, refused: UnmovedAll)
    requires numbered { Numbered (Err refused) }
    requires room { length words.old ≤ 64 }
    ensures words { let r = moving_all_of (Err refused) in words.new ≡ words.old ++ (record_words r ++ place_words r) }
    ensures room { length words.new ≤ 200 }
{
    match refused {
        UnmovedAll::Broken {
            record,
            line,
            column,
        } => {
            words.numbered(b" record=", record);
            words.numbered(b" line=", line as u64);
            words.numbered(b" column=", column as u64);
        }
        UnmovedAll::ChipLost { record } => words.numbered(b" record=", record),
        UnmovedAll::UnknownSet | UnmovedAll::NoRoom => {}
    }
}

// What is said where none is moved.
fn refused_words(refused: UnmovedAll) -> Words<256>
    requires { Numbered (Err refused) }
    ensures { result ≡ moved_words (moving_all_of (Err refused)) }
{
    let mut words = Words::new();
    words.numbered(
        b"bench: refused: answer=",
        answers::number(Answer::from(refused)),
    );
    put_place(&mut words, refused);
    words.text(b"\n");
    words
}

// Reads all of standard input into a place, and moves its records on a route into the output.
fn move_input(
    system: &mut System,
    route: Route,
    place: &mut [u8],
    out: &mut [u8],
) -> Result<MovedAll, NotCarried>
    ensures carries { Carries route place.old (carried_of result) out.old out.new }
    ensures result_in_bounds { written_in (carried_of result) ≤ length out.new }
    ensures numbered { NumberedIn result }
{
    let size = whole::read_all(system, place)?;
    let moved = moving::move_all(route, &place[..size], out)?;
    Ok(moved)
}

// Moves all records on standard input on a route, and says how that ended.
pub(crate) fn carry(system: &mut System, route: Route) {
    let mut text = place::<HELD>();
    let mut out = place::<ROOM>();
    match move_input(system, route, &mut text, &mut out) {
        Ok(moved) => {
            let words = moved_words(moved);
            whole::hand_out(system, &out[..moved.written], words.bytes());
        }
        Err(NotCarried::Unmoved(refused)) => {
            let words = refused_words(refused);
            whole::hand_out(system, b"", words.bytes());
        }
        Err(NotCarried::Unread(Unread::TooLong)) => {
            system::complain(b"bench: the input has more than 1048576 bytes\n");
        }
        Err(NotCarried::Unread(Unread::Failed)) => system.fail(b"bench: reading failed"),
        Err(NotCarried::Unread(Unread::Endless)) => system::complain(b"bench: too many turns\n"),
    }
}
