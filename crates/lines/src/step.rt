// One character of a line, from what was passed before it.
ghost use Rattle.std.specs.Prelude.{◌≡◌, not, ◌||◌, ◌<◌, eqb};
ghost use Rattle.lines.specs.Steps.{may_end, said_by, name_step, feed_step, value_step, step_of};

use crate::kinds::{Kind, Name, Value};
use digits::Case;

// Where a walk stands in a line: how many characters of the name were passed; how many digits of bytes, or, of a number, 1 if any was; the number that they say; and
// whether the line feed was passed.
// No Option for `ended`, and `digits` is a count or a flag: the definitions `standing` and `counted` (specs/Steps.antt) and `Wrong.advance_behind` have a state so.
#[derive(Clone, Copy)]
pub struct State {
    pub place: usize,
    pub digits: usize,
    pub number: u64,
    pub ended: bool,
}

// Whether a value may end after so many digits.
fn may_end(value: Value, digits: usize) -> bool
    ensures { result ≡ may_end value digits }
{
    match value {
        Value::Fixed(_) => true,
        Value::Number(_, _) => 1 <= digits,
        Value::Bytes(least, _, _) => digits % 2 == 0 && usize::from(least) <= digits / 2,
    }
}

// ---- steps: functions of a state and a character. As methods of `State` they would be no plainer, since each is called once.

// Whether the digits passed are a zero, behind which no digit comes.
fn only_zero(state: State) -> bool
    ensures { result ≡ not (eqb state.digits 0 || not (eqb state.number 0)) }
{
    state.digits != 0 && state.number == 0
}

// A character in a number.
#[tactic(auto, unfolding(crate::specs::Steps::value_step))]
fn number_step(least: u64, most: u64, state: State, character: u8) -> Option<State>
    ensures { result ≡ value_step (Value.Number least most) state character }
{
    if !character.is_ascii_digit() || only_zero(state) {
        return None;
    }
    let digit = u64::from(character - b'0');
    let number = state.number.checked_mul(10)?.checked_add(digit)?;
    if number < least || most < number {
        return None;
    }
    Some(State {
        digits: 1,
        number,
        ended: false,
        ..state
    })
}

// A character in the digits of bytes.
#[tactic(auto, unfolding(crate::specs::Steps::value_step))]
fn bytes_step(least: u16, most: u16, case: Case, state: State, character: u8) -> Option<State>
    ensures { result ≡ value_step (Value.Bytes least most case) state character }
{
    if !digits::is_digit(case, character) || usize::from(most) <= state.digits / 2 {
        return None;
    }
    Some(State {
        digits: state.digits + 1,
        ended: false,
        ..state
    })
}

// A character behind the name that is no line feed.
#[tactic(auto, unfolding(crate::specs::Steps::value_step))]
fn value_step(value: Value, state: State, character: u8) -> Option<State>
    ensures { result ≡ value_step value state character }
{
    match value {
        Value::Fixed(_) => None,
        Value::Number(least, most) => number_step(least, most, state, character),
        Value::Bytes(least, most, case) => bytes_step(least, most, case, state, character),
    }
}

// What a line says at its end.
fn said(value: Value, number: u64) -> u64
    ensures { result ≡ said_by value number }
{
    match value {
        Value::Fixed(own) => own,
        Value::Number(_, _) | Value::Bytes(_, _, _) => number,
    }
}

// A line feed behind the name.
#[tactic(auto, unfolding(crate::specs::Steps::feed_step))]
fn feed_step(value: Value, state: State) -> Option<State>
    ensures { result ≡ feed_step value state }
{
    let passed = State {
        number: said(value, state.number),
        ended: true,
        ..state
    };
    may_end(value, state.digits).then_some(passed)
}

// A character of the name.
#[tactic(auto, using(std::proofs::lemmas::Option::gets), unfolding(crate::specs::Steps::name_step))]
fn name_step(name: Name, state: State, character: u8) -> Option<State>
    requires { state.place < name.size }
    ensures { result ≡ name_step name state character }
{
    let own = name.bytes.get(state.place).copied().unwrap_or(0);
    let passed = State {
        place: state.place + 1,
        ended: false,
        ..state
    };
    (own == character).then_some(passed)
}

// What a character does: the line can go on from it, or no right line does.
#[tactic(auto, unfolding(crate::specs::Steps::step_of))]
pub fn advance(kind: Kind, state: State, character: u8) -> Option<State>
    ensures { result ≡ step_of kind state character }
{
    if state.ended {
        None
    } else if state.place < kind.name.size {
        name_step(kind.name, state, character)
    } else if character == b'\n' {
        feed_step(kind.value, state)
    } else {
        value_step(kind.value, state, character)
    }
}
