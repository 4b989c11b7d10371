// A line at the beginning of a text.
ghost use Rattle.std.specs.Prelude.{◌≡◌, ◌<◌};
ghost use Rattle.lines.specs.Steps.{begin, stop, found_at, read_of, either_of};

use crate::kinds::Kind;
use crate::step;
use crate::step::State;

// A right line that a text begins with: how many characters it has, and its number.
#[derive(Clone, Copy)]
pub struct Line {
    pub size: usize,
    pub number: u64,
}

// A text begins with no right line: the column where it stopped being one.
#[derive(Clone, Copy)]
pub struct Stopped {
    pub column: usize,
}

// Before the first character.
pub fn begun() -> State
    ensures { result ≡ begin }
{
    State {
        place: 0,
        digits: 0,
        number: 0,
        ended: false,
    }
}

// What a walk found that passed so many characters.
fn found(passed: usize, state: State) -> Result<Line, Stopped>
    requires { passed < usize.MAX }
    ensures { result ≡ found_at (stop passed state) }
{
    if state.ended {
        Ok(Line {
            size: passed,
            number: state.number,
        })
    } else {
        Err(Stopped { column: passed + 1 })
    }
}

// Reads the line that a text begins with.
pub fn read(kind: Kind, text: &[u8]) -> Result<Line, Stopped>
    ensures { result ≡ read_of kind text.now }
{
    let mut state = begun();
    let mut passed = 0;
    // The rules ask that this walk is left by its label.
    'digits: for (at, character) in text.iter().enumerate() {
        match step::advance(kind, state, *character) {
            Some(next) => state = next,
            None => break 'digits,
        }
        passed = at + 1;
    }
    found(passed, state)
}

// The line that either of two readings found, or the later of their columns: a line that may be of one kind or the other.
pub fn either(one: Result<Line, Stopped>, other: Result<Line, Stopped>) -> Result<Line, Stopped>
    ensures { result ≡ either_of one other }
{
    match (one, other) {
        (Err(c), Err(d)) => Err(Stopped {
            column: c.column.max(d.column),
        }),
        (Ok(line), _) | (Err(_), Ok(line)) => Ok(line),
    }
}
