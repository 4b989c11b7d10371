// A stretch of a log, entry by entry.
ghost use Rattle.std.specs.Prelude.{◌≡◌, drop};
ghost use Rattle.chip_log.specs.Calls.{refused_at};
ghost use Rattle.chip_log.specs.Laws.{InForm};
ghost use Rattle.replay.specs.Feeding.{as_given};
ghost use Rattle.replay.specs.Replays.{is_agreed, compared, ComparedAs, step_on, SteppedAs, unread_of, at_end, step_of, stretch_of};

use crate::feeding::Given;
use crate::{cursor, feeding};
use chip_log::Entry;
use record::Unread;
use stream::Stream;

// What is told of an entry, or of a log. Its six cases stay one enum: `IsWrong` and `FirstWrong` (specs/Laws.antt) go by them.
#[derive(Clone, Copy, PartialEq, Eq)]
pub enum Verdict {
    // The chip gave what our stream gives.
    Agrees,
    // It gave another answer.
    Answer,
    // The answer is ours, and the output is another.
    Out,
    // Answer and output are ours, and the rounds are others.
    Rounds,
    // The entry can't be read: its first broken line, and the column at which that is wrong.
    Unread { line: usize, column: usize },
    // Nothing is told yet: more of the log is wanted.
    Open,
}

impl Verdict {
    // Whether it is agreement.
    pub(crate) fn is_agreed(self) -> bool
        ensures { result ≡ is_agreed self }
    {
        self == Verdict::Agrees
    }
}

// How far a stretch of a log was replayed: how many entries agreed, how many bytes they have, the stream's state behind them, and the verdict on what follows them.
// Each of the four is told whatever the verdict is, as the theorems `Replays.waits` and `.inside` have them.
#[derive(Clone, Copy)]
pub struct Stretch {
    pub entries: usize,
    pub taken: usize,
    pub stream: Stream,
    pub verdict: Verdict,
}

// An entry that agrees: how many bytes it has, and the stream's state behind it.
#[derive(Clone, Copy)]
pub struct Agreed {
    pub taken: usize,
    pub next: Stream,
}

// Whether an entry agrees with what our stream gives, or else the verdict.
#[tactic(auto, unfolding(crate::specs::Replays::compared))]
fn compare(given: Given, entry: Entry) -> Result<(), Verdict>
    ensures { ComparedAs result (compared (as_given given) entry) }
{
    if entry.answer != answers::number(given.answer) {
        Err(Verdict::Answer)
    } else if judge::fields_differ(given.out, entry.out) {
        Err(Verdict::Out)
    } else if entry.rounds != given.rounds {
        Err(Verdict::Rounds)
    } else {
        Ok(())
    }
}

// Feeds an entry in form to a stream, and compares what it gives.
#[tactic(auto, using(crate::proofs::Gives::input_inside))]
fn step_on(stream: Stream, entry: Entry, taken: usize) -> Result<Agreed, Verdict>
    requires { InForm entry }
    ensures { SteppedAs result (step_on stream entry taken) }
{
    let input = entry.input;
    let given = feeding::feed(stream, entry.call, &input.bytes[..input.size]);
    compare(given, entry)?;
    Ok(Agreed {
        taken,
        next: given.next,
    })
}

// The verdict on a text that is no entry: it is unread, or open where it ended too early and more of the log may come.
#[tactic(auto, unfolding(chip_log::specs::Calls::refused_at))]
fn unread(wrong: Unread, ended: bool) -> Verdict
    ensures { result ≡ unread_of ended (refused_at wrong.line wrong.column wrong.early) }
{
    if !ended && wrong.early {
        Verdict::Open
    } else {
        Verdict::Unread {
            line: wrong.line,
            column: wrong.column,
        }
    }
}

// The entry at the beginning of a log, from a stream's state: how far one that agrees goes, or else the verdict.
#[tactic(auto, unfolding(crate::specs::Replays::step_by, chip_log::specs::Calls::read_as, chip_log::specs::Calls::refused_at))]
fn step_at(log: &[u8], ended: bool, stream: Stream) -> Result<Agreed, Verdict>
    ensures { SteppedAs result (step_of ended stream log.now) }
{
    match chip_log::read(log) {
        Ok(read) => step_on(stream, read.content, read.taken),
        Err(wrong) => Err(unread(wrong, ended)),
    }
}

// What is told where no byte is left: the log agrees, if it has ended.
fn at_end(ended: bool) -> Verdict
    ensures { result ≡ at_end ended }
{
    if ended {
        Verdict::Agrees
    } else {
        Verdict::Open
    }
}

// Replays a log from a place on, from a stream's state, entry after entry.
pub(crate) fn stretch_at(bytes: &[u8], place: usize, ended: bool, stream: Stream) -> Stretch
    ensures { result ≡ stretch_of ended stream (drop place bytes.now) }
{
    let log = cursor::left(bytes, place);
    let mut stretch = Stretch {
        entries: 0,
        taken: 0,
        stream,
        verdict: at_end(ended),
    };
    // No `for`: how far a turn goes only the entry that it reads can tell.
    while stretch.taken < log.len() {
        match step_at(cursor::left(log, stretch.taken), ended, stretch.stream) {
            Ok(agreed) => {
                stretch.entries += 1;
                stretch.taken += agreed.taken;
                stretch.stream = agreed.next;
            }
            Err(verdict) => return Stretch { verdict, ..stretch },
        }
    }
    stretch
}
