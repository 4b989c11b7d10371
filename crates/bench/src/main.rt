// The bench. Without a word: judges the records that stand one after another on standard input, writes three lines on each to standard output, and at its proper end says on
// standard error where the unread record broke, if there is one, and how many it judged, and how. What fails is said there in its place; a record that a failed read
// cut off gets no report. With the word `forward`, `back` or `export`, or with `import` and a set: moves all records from one kind of text to another, and writes all of
// them to standard output, or nothing. With the word `replay`: replays the log of a chip's calls, and writes its verdict in three lines.
#![tactic(auto)]

mod decimal;
mod judging;
mod moves;
mod progress;
mod replays;
mod system;
mod tally;
mod whole;
mod words;

ghost use Rattle.std.specs.Prelude.{◌≡◌, ◌-◌, ◌≤◌, length, take, drop};
ghost use Rattle.bench.specs.Tasks.{word_task, set_task, task_of};

use moving::Route;
use system::System;

// Moves the window to the front of the buffer.
fn move_to_front(buffer: &mut [u8], start: usize, filled: usize)
    requires start_le_filled { start ≤ filled }
    requires filled_in_bounds { filled ≤ length buffer.old }
    ensures { take (filled - start) buffer.new ≡ take (filled - start) (drop start buffer.old) }
{
    buffer.copy_within(start..filled, 0);
}

// What the program is asked to do.
#[derive(Clone, Copy)]
pub enum Task {
    Judge,
    Move(Route),
    Replay,
}

// The task that one word names, if it names one.
#[tactic(auto, using(crate::proofs::Same::same_as))]
fn word_task(word: &[u8]) -> Option<Task>
    ensures { result ≡ word_task word.now }
{
    // No match: in the arm of a byte string a proof knows the word's length alone.
    if word == b"forward".as_slice() {
        Some(Task::Move(Route::Forward))
    } else if word == b"back".as_slice() {
        Some(Task::Move(Route::Back))
    } else if word == b"export".as_slice() {
        Some(Task::Move(Route::Export))
    } else if word == b"replay".as_slice() {
        Some(Task::Replay)
    } else {
        None
    }
}

// The task that a word and a set behind it name, if they name one.
#[tactic(auto, using(crate::proofs::Same::same_as))]
fn set_task(word: &[u8], set: &[u8]) -> Option<Task>
    ensures { result ≡ set_task word.now set.now }
{
    if word == b"import".as_slice() {
        Some(Task::Move(Route::Import(decimal::read(set)?)))
    } else {
        None
    }
}

// The task that so many words name, of which the first is the program's own, and these are the second and the third.
fn task_of(words: usize, word: &[u8], set: &[u8]) -> Option<Task>
    ensures { result ≡ task_of words word.now set.now }
{
    match words {
        0 | 1 => Some(Task::Judge),
        2 => word_task(word),
        3 => set_task(word, set),
        _ => None,
    }
}

// Does what the program's words ask. A word that is too long for its place comes as an empty one, which names no task and spells no number.
fn main(rt: HostRuntime) {
    let mut system = System::new(rt.stdin(), rt.stdout(), rt.stderr());
    let mut word = [0; 16];
    let mut set = [0; 32];
    match task_of(
        system::count_words(&rt),
        system::read_word(&rt, 1, &mut word),
        system::read_word(&rt, 2, &mut set),
    ) {
        Some(Task::Judge) => judging::judge(&mut system),
        Some(Task::Move(route)) => moves::carry(&mut system, route),
        Some(Task::Replay) => replays::replay(&mut system),
        None => system::complain(b"bench: unknown task\n"),
    }
}
