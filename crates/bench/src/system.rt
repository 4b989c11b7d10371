// What the program asks of the operating system: the calls on its three streams, its words, and why a call failed.
ghost use Rattle.std.specs.Prelude.{◌≤◌, length};
ghost use Rattle.bench.specs.Progress.{moved_by};

use crate::progress;
use crate::progress::Unmoved;
use crate::words::Words;
use std::env::{Env, FillError};
use std::fmt;
use std::io::{Error, Read, Stderr, Stdin, Stdout, Write};

// The number of standard error, by which `io::write_all` takes it.
const STDERR_FILENO: i32 = 2;

// Where a text is written: to standard output, or to standard error.
#[derive(Clone, Copy)]
pub enum Sink {
    Output,
    Messages,
}

// The three streams, and the number of the last error that a call on one of them gave, which is 0 before the first.
// No Option: std's `from_raw_os_error` takes a number, and has words for 0 too.
#[derive(Drop)]
pub(crate) struct System {
    input: Stdin,
    output: Stdout,
    messages: Stderr,
    error: i32,
}

impl System {
    pub(crate) fn new(input: Stdin, output: Stdout, messages: Stderr) -> System {
        System {
            input,
            output,
            messages,
            error: 0,
        }
    }

    // What standard input answers one read into a place that has room, so that a read of no byte means the end of the input.
    pub(crate) fn read(&mut self, room: &mut [u8]) -> Result<usize, Unmoved>
        requires { 1 ≤ length room.old }
        ensures { moved_by result ≤ length room.new }
    {
        let answer = self.input.read(room);
        progress::hear(answer.map_err(|error| self.keep(error)))
    }

    // What a stream answers one write of bytes.
    pub(crate) fn write(&mut self, to: Sink, bytes: &[u8]) -> Result<usize, Unmoved>
        ensures { moved_by result ≤ length bytes.now }
    {
        let answer = match to {
            Sink::Output => self.output.write(bytes),
            Sink::Messages => self.messages.write(bytes),
        };
        progress::hear(answer.map_err(|error| self.keep(error)))
    }

    // Keeps the number of an error, and gives it.
    fn keep(&mut self, error: Error) -> i32 {
        self.error = error.raw_os_error().unwrap_or(0);
        self.error
    }

    // Writes a line to standard error: what failed, a colon, and the words for the last error.
    pub(crate) fn fail(&self, what: &[u8]) {
        let mut words = Words::<128>::new();
        let _ = fmt::Write::write(&mut words, Error::from_raw_os_error(self.error));
        complain(what);
        complain(b": ");
        complain(reason(words.bytes()));
        complain(b"\n");
    }
}

// Writes words to standard error, as many as it takes.
pub(crate) fn complain(words: &[u8]) {
    let _ = io::write_all(STDERR_FILENO, words);
}

// The words for an error, without its number, which stands in brackets behind them.
fn reason(words: &[u8]) -> &[u8] {
    match words.iter().rposition(|byte| *byte == b'(') {
        Some(0) | None => words,
        Some(at) => &words[..at - 1],
    }
}

// How many words the program has, its own name among them, of which more than four count as four.
pub(crate) fn count_words(env: &impl Env) -> usize {
    let mut place = [0; 1];
    for i in 0..4 {
        if let Err(FillError::NotPresent) = env.arg(i, &mut place) {
            return i;
        }
    }
    4
}

// One of the words, put into a place. One that is missing, or too long for the place, is empty, and not None: an empty word names no task (`task_of`).
pub(crate) fn read_word<'a>(env: &impl Env, i: usize, place: &'a mut [u8]) -> &'a [u8]
    ensures { length result.now ≤ length place.old }
{
    let size = env.arg(i, place).unwrap_or(0);
    &place[..size]
}
