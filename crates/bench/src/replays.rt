// Replaying the log on standard input, window by window, and saying how that ended.
ghost use Rattle.std.specs.Prelude.{◌≡◌, true, ◌++◌, ◌+◌, ◌≤◌, ◌<◌, length};
ghost use Rattle.replay.specs.Replays.{told};
ghost use Rattle.turns.specs.Tallies.{largest};
ghost use Rattle.bench.specs.Progress.{moved_by};
ghost use Rattle.bench.specs.Replays.{begun, goes_on, is_running, Ready, HeardBytes, HeardAs, HeardOne, ReplayedAll, verdict_words, report_words, end_line, last_words};

use crate::progress::Unmoved;
use crate::system::System;
use crate::words::Words;
use crate::{system, tally, whole};
use replay::{Stretch, Verdict};
use std::marker::Model;
use stream::Stream;

// What keeps a replay from its verdict: a read failed; there are more entries than a number of 64 bits can count.
#[derive(Clone, Copy)]
pub enum Fault {
    Reading,
    TooMany,
}

// How far a replay is: the bytes at the front of the buffer that were not replayed yet, how many entries agreed, the stream's state behind them, the verdict, and what
// keeps it from one, if anything does.
#[derive(Clone, Copy)]
pub struct Replaying {
    pub left: usize,
    pub entries: u64,
    pub stream: Stream,
    pub verdict: Verdict,
    pub fault: Option<Fault>,
}

// Replays what is left and so many bytes behind it, where no byte is the end of the log, and moves what is left then to the front of the buffer.
fn replay_bytes(buffer: &mut [u8], state: Replaying, count: usize) -> Replaying
    requires ready { Ready state }
    requires running { is_running state ≡ true }
    requires count_in_bounds { state.left + count ≤ length buffer.old }
    ensures { HeardBytes state buffer.old count result buffer.new }
{
    let filled = state.left + count;
    let stretch = replay::replay_window(&buffer[..filled], count == 0, state.stream);
    if u64::MAX - state.entries <= stretch.entries as u64 {
        return Replaying {
            fault: Some(Fault::TooMany),
            ..state
        };
    }
    crate::move_to_front(buffer, stretch.taken, filled);
    Replaying {
        left: filled - stretch.taken,
        entries: state.entries + stretch.entries as u64,
        stream: stretch.stream,
        verdict: stretch.verdict,
        fault: None,
    }
}

// What the answer to a read behind what is left makes of the replay: bytes are replayed, and none is the end of the log; a signal changes nothing; a failure is no end.
pub(crate) fn after_read(
    buffer: &mut [u8],
    state: Replaying,
    heard: Result<usize, Unmoved>,
) -> Replaying
    requires ready { Ready state }
    requires running { is_running state ≡ true }
    requires heard_in_bounds { state.left + moved_by heard ≤ length buffer.old }
    ensures { HeardAs state buffer.old heard result buffer.new }
{
    match heard {
        Ok(count) => replay_bytes(buffer, state, count),
        Err(Unmoved::Again) => state,
        Err(Unmoved::Failed) => Replaying {
            fault: Some(Fault::Reading),
            ..state
        },
    }
}

// The log's bytes in a buffer, and how far their replay is. Its clauses see the replay so far.
#[derive(Drop)]
struct LogReplay {
    buffer: [u8; 65536],
    state: Replaying,
}

impl Model for LogReplay {
    ghost use Rattle.bench.specs.Replays.{Going, shown, ReadyIn};

    ghost Value = { Going };

    ghost view = { λ r. shown r.state r.buffer };

    ghost invariant = { λ r. ReadyIn r.buffer r.state };
}

impl LogReplay {
    // Nothing is read.
    fn new() -> LogReplay
        ensures { result ≡ begun }
    {
        LogReplay {
            buffer: io::large_buffer(),
            state: Replaying {
                left: 0,
                entries: 0,
                stream: Stream::ended(),
                verdict: Verdict::Open,
                fault: None,
            },
        }
    }

    // Whether it goes on: nothing keeps it from its verdict, and that is still open.
    fn goes_on(&self) -> bool
        ensures { result ≡ goes_on self.now }
    {
        self.state.fault.is_none() && self.state.verdict == Verdict::Open
    }

    // One read behind what is left, and the replay of what it brought.
    fn replay_more(&mut self, system: &mut System)
        requires { goes_on self.old ≡ true }
        ensures { HeardOne self.old self.new }
    {
        let heard = system.read(&mut self.buffer[self.state.left..]);
        self.state = after_read(&mut self.buffer, self.state, heard);
    }
}

// Replays the log on standard input, read by read, until a verdict is told, in as many turns as no run uses up.
fn replay_all(system: &mut System) -> LogReplay
    ensures { ReplayedAll result }
{
    let mut replay = LogReplay::new();
    for _ in 0..u64::MAX {
        if !replay.goes_on() {
            return replay;
        }
        replay.replay_more(system);
    }
    replay
}

// The number of the entry that decides, where so many agreed before; where all agree, how many there are. `replay::replay` ends likewise; `ruled_out` speaks of this one
// (`numbers` of `RuledOut`).
pub(crate) fn entry_of(agreed: u64, verdict: Verdict) -> u64
    requires { agreed < largest }
    ensures { result ≡ (told agreed verdict).entry }
{
    match verdict {
        Verdict::Agrees => agreed,
        _ => agreed + 1,
    }
}

// Puts a verdict and its field behind words.
fn put_verdict(words: &mut Words<256>, verdict: Verdict)
    requires { length words.old ≤ 32 }
    ensures { words.new ≡ words.old ++ verdict_words verdict }
{
    match verdict {
        Verdict::Agrees => words.text(b"\nverdict=agrees\nfield=none\n"),
        Verdict::Answer => words.text(b"\nverdict=differs\nfield=answer\n"),
        Verdict::Out => words.text(b"\nverdict=differs\nfield=out\n"),
        Verdict::Rounds => words.text(b"\nverdict=differs\nfield=rounds\n"),
        Verdict::Unread { line, column: _ } => {
            words.numbered(b"\nverdict=unread\nfield=", line as u64);
            words.text(b"\n");
        }
        Verdict::Open => words.text(b"\n"),
    }
}

// The three lines of a report.
#[tactic(auto, unfolding(crate::specs::Replays::report_words))]
fn report_words(entry: u64, verdict: Verdict) -> Words<256>
    ensures { result ≡ report_words entry verdict }
{
    let mut words = Words::new();
    words.numbered(b"entry=", entry);
    put_verdict(&mut words, verdict);
    words
}

// Puts the last line behind words.
#[tactic(auto, unfolding(crate::specs::Replays::end_line))]
fn put_end(words: &mut Words<256>, entry: u64)
    requires { length words.old ≤ 128 }
    ensures { words.new ≡ words.old ++ end_line entry }
{
    words.numbered(b"bench: done: entries=", entry);
    words.text(b"\n");
}

// The last words of a replay.
fn last_words(entry: u64, verdict: Verdict) -> Words<256>
    ensures { result ≡ last_words entry verdict }
{
    let mut words = match verdict {
        Verdict::Unread { line, column } => {
            tally::fault_line(b"bench: entry ", entry, line, column)
        }
        _ => Words::new(),
    };
    put_end(&mut words, entry);
    words
}

// Replays the log on standard input, and says how that ended.
pub(crate) fn replay(system: &mut System) {
    let state = replay_all(system).state;
    match (state.fault, state.verdict) {
        (Some(Fault::Reading), _) => system.fail(b"bench: reading failed"),
        (Some(Fault::TooMany), _) => system::complain(b"bench: too many entries\n"),
        (None, Verdict::Open) => system::complain(b"bench: too many turns\n"),
        (None, verdict) => {
            let entry = entry_of(state.entries, verdict);
            let report = report_words(entry, verdict);
            let words = last_words(entry, verdict);
            whole::hand_out(system, report.bytes(), words.bytes());
        }
    }
}
