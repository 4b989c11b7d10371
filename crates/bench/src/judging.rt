// Judging the records that stand one after another on standard input, and saying how that ended.
ghost use Rattle.std.specs.Prelude.{◌≡◌, ◌-◌, ◌≤◌, ◌<◌, length};
ghost use Rattle.turns.specs.Run.{begun, judged, closed};
ghost use Rattle.turns.specs.Laws.{OneAnswer, Turned, Ran};
ghost use Rattle.bench.specs.Progress.{More, Less};

use crate::progress::Progress;
use crate::system::System;
use crate::{progress, system, tally};
use std::marker::Model;
use turns::{Ending, Stage, Tally};

// The input's bytes, the text that is to be written, and how far the program is with both. Its clauses see where the program then stands.
#[derive(Drop)]
pub(crate) struct Judging {
    buffer: [u8; 65536],
    text: [u8; 256],
    p: Progress,
}

impl Model for Judging {
    ghost use Rattle.turns.specs.Run.{Standing};
    ghost use Rattle.bench.specs.Progress.{Sound, view as standing};

    ghost Value = { Standing };

    ghost view = { λ j. standing j.p j.buffer j.text };

    ghost invariant = { λ j. Sound j.p j.buffer j.text };
}

// Reads more of the input behind the window, which moves to the front of the buffer. No method: its clauses see the places, which those of `Judging` do not.
pub(crate) fn read_more(system: &mut System, buffer: &mut [u8], p: Progress) -> Progress
    requires start_le_filled { p.start ≤ p.filled }
    requires filled_in_bounds { p.filled ≤ length buffer.old }
    requires start_in_bounds { p.filled - p.start < length buffer.old }
    ensures { More p buffer.old result buffer.new }
{
    let size = p.filled - p.start;
    crate::move_to_front(&mut *buffer, p.start, p.filled);
    let heard = system.read(&mut buffer[size..]);
    let front = Progress {
        start: 0,
        filled: size,
        ..p
    };
    progress::after_read(front, heard)
}

// Writes what is left of the text, to standard output or to standard error. No method, as `read_more`.
fn write_more(system: &mut System, text: &[u8], p: Progress) -> Progress
    requires from_le_size { p.from ≤ p.size }
    requires size_in_bounds { p.size ≤ length text.now }
    ensures { Less p result }
{
    let to = progress::sink_of(p.stage);
    let heard = system.write(to, &text[p.from..p.size]);
    progress::after_write(p, heard)
}

impl Judging {
    // Nothing is read, and nothing is judged.
    fn new() -> Judging
        ensures { result ≡ begun }
    {
        Judging {
            buffer: io::large_buffer(),
            text: [0; 256],
            p: Progress {
                start: 0,
                filled: 0,
                ended: false,
                tally: Tally {
                    equal: 0,
                    differ: 0,
                    unread: 0,
                    line: 0,
                    column: 0,
                },
                from: 0,
                size: 0,
                stage: Stage::Read,
            },
        }
    }

    // The one call to the operating system that is next, where there is one.
    fn call(&mut self, system: &mut System)
        ensures { OneAnswer self.old self.new }
    {
        match self.p.stage {
            Stage::Read => self.p = read_more(system, &mut self.buffer, self.p),
            Stage::Write | Stage::Say => self.p = write_more(system, &self.text, self.p),
            _ => {}
        }
    }

    // Where judging is next, judges what stands in the window and puts the report into the text; a record that can't be read was the last.
    fn look(&mut self)
        ensures { self.new ≡ judged self.old }
    {
        let Stage::Judge = self.p.stage else {
            return;
        };
        if self.p.tally.unread != 0 {
            self.p.stage = Stage::Close;
            return;
        }
        let number = tally::records(self.p.tally) + 1;
        if number == u64::MAX {
            self.p.stage = Stage::Over(Ending::TooMany);
            return;
        }
        // A copy is written to: no proof is made for a field that is lent to be written beside one that is lent to be read.
        let mut text = self.text;
        let window = &self.buffer[self.p.start..self.p.filled];
        let step = judge::judge_window(window, self.p.ended, number, &mut text);
        self.text = text;
        self.p = progress::after_step(self.p, step);
    }

    // Puts the last words into the text, where that is next.
    fn close(&mut self)
        ensures { self.new ≡ closed self.old }
    {
        if let Stage::Close = self.p.stage {
            let words = tally::last_words(self.p.tally);
            let size = digits::put_text(words.bytes(), &mut self.text);
            self.p = Progress {
                from: 0,
                size,
                stage: Stage::Say,
                ..self.p
            };
        }
    }

    // One turn: a call to the operating system, and what follows from its answer.
    #[tactic(auto, unfolding(turns::specs::Run::turned))]
    fn turn(&mut self, system: &mut System)
        ensures { Turned self.old self.new }
    {
        self.call(system);
        self.look();
        self.close();
    }
}

// Turn after turn until nothing is left to do. A proved loop has to end, and nothing says that the input does: so it has as many turns as no run uses up.
fn run(system: &mut System) -> Judging
    ensures { Ran result }
{
    let mut judging = Judging::new();
    for _ in 0..u64::MAX {
        if let Stage::Over(_) = judging.p.stage {
            return judging;
        }
        judging.turn(system);
    }
    judging
}

// Judges the records on standard input, and says on standard error why the run came to no proper end, where it came to none.
pub(crate) fn judge(system: &mut System) {
    match run(system).p.stage {
        Stage::Over(Ending::Said) => {}
        Stage::Over(Ending::ReadFailed) => system.fail(b"bench: reading failed"),
        Stage::Over(Ending::WriteFailed | Ending::SayFailed) => {
            system.fail(b"bench: writing failed")
        }
        Stage::Over(Ending::TooMany) => system::complain(b"bench: too many records\n"),
        _ => system::complain(b"bench: too many turns\n"),
    }
}
