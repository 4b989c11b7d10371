// The spelling of a stream's state in an area of 112 bytes: the words, the key, and the numbers, each word and number in eight bytes, high byte first.
ghost use Rattle.std.specs.Prelude.{◌≡◌, [], ◌∷◌, ◌+◌, ◌*◌, ◌≤◌, length, take, drop, cond, leb};
ghost use Rattle.std.specs.declared.option.Option.TheVariants.{Some, None};
ghost use Rattle.permutation.specs.Strings.{string_of_words};
ghost use Rattle.gateway.specs.Laying.{laid};
ghost use Rattle.gateway.specs.Spelling.{state_length, numbers_of, spelling, number_at, direction_of, phase_of, is_spelling, state_in};

use std::array;
use stream::{Direction, Phase, Stream};

// The bytes of an area.
pub(crate) const LENGTH: usize = 112;

// ---- parts of an area

// The bytes of a part that begins at a place.
fn part<const N: usize>(area: &[u8; LENGTH], at: usize) -> [u8; N]
    requires { at + N ≤ state_length }
    ensures { result ≡ take N (drop at area.now) }
{
    let mut bytes = [0; N];
    bytes.copy_from_slice(&area[at..at + N]);
    bytes
}

// The number of the eight bytes at a place.
fn number_at(area: &[u8; LENGTH], at: usize) -> u64
    requires { at + 8 ≤ state_length }
    ensures { result ≡ number_at area.now at }
{
    u64::from_be_bytes(part(area, at))
}

// Puts bytes from a place on.
fn put(area: &mut [u8; LENGTH], at: usize, bytes: &[u8])
    requires { at + length bytes.now ≤ state_length }
    ensures { area.new ≡ laid area.old at bytes.now }
{
    area[at..at + bytes.len()].copy_from_slice(bytes);
}

// Puts numbers, eight bytes each, from a place on.
fn put_numbers(area: &mut [u8; LENGTH], at: usize, numbers: &[u64])
    requires { at + 8 * length numbers.now ≤ state_length }
    ensures { area.new ≡ laid area.old at (string_of_words numbers.now) }
{
    for (i, number) in numbers.iter().enumerate() {
        put(area, at + 8 * i, &number.to_be_bytes());
    }
}

// ---- directions and phases. No `TryFrom` and no one function for both: it would stand in `stream`, which knows no area, and these numbers are the spelling's

// The direction of a number, which is up to 2.
fn direction_of(number: u64) -> Option<Direction>
    ensures { result ≡ cond (leb number 2) (Some (direction_of number)) None }
{
    match number {
        0 => Some(Direction::Sealing),
        1 => Some(Direction::Checking),
        2 => Some(Direction::Opening),
        _ => None,
    }
}

// The phase of a number, which is up to 2.
fn phase_of(number: u64) -> Option<Phase>
    ensures { result ≡ cond (leb number 2) (Some (phase_of number)) None }
{
    match number {
        0 => Some(Phase::Ad),
        1 => Some(Phase::Text),
        2 => Some(Phase::Ended),
        _ => None,
    }
}

// ---- states

// The words at the front of an area.
fn words_in(area: &[u8; LENGTH]) -> [u64; 5]
    ensures { result ≡ number_at area.now 0 ∷ number_at area.now 8 ∷ number_at area.now 16 ∷ number_at area.now 24 ∷ number_at area.now 32 ∷ [] }
{
    array::from_fn(|i| number_at(area, 8 * i))
}

// The state that an area spells, if it spells one.
pub(crate) fn state_in(area: &[u8; LENGTH]) -> Option<Stream>
    ensures { result ≡ cond (is_spelling area.now) (Some (state_in area.now)) None }
{
    let direction = direction_of(number_at(area, 64))?;
    let phase = phase_of(number_at(area, 72))?;
    Some(Stream {
        words: words_in(area),
        set: number_at(area, 56),
        direction,
        phase,
        key: part(area, 40),
        ad: number_at(area, 80) as usize,
        text: number_at(area, 88) as usize,
        place: number_at(area, 96) as usize,
        limit: number_at(area, 104),
    })
}

// The numbers behind the key, in their order.
fn numbers_of(state: Stream) -> [u64; 7]
    ensures { result ≡ numbers_of state }
{
    [
        state.set,
        stream::rank(state.direction),
        state.phase as u64,
        state.ad as u64,
        state.text as u64,
        state.place as u64,
        state.limit,
    ]
}

// The spelling of a state.
pub(crate) fn spelling(state: Stream) -> [u8; LENGTH]
    ensures { result ≡ spelling state }
{
    let mut area = [0; LENGTH];
    put_numbers(&mut area, 0, &state.words);
    put(&mut area, 40, &state.key);
    put_numbers(&mut area, 56, &numbers_of(state));
    area
}
