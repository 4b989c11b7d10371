// Streams through the C boundary. The caller keeps the state in an area of bytes, which a call reads and leaves; every call takes any bytes there, and any length.
// What an opening hands out is unverified until its finish says done.
ghost use Rattle.std.specs.Prelude.{true, false, ◌≡◌, [], ◌≤◌};
ghost use Rattle.answers.specs.declared.Answer.TheVariants.{BrokenState};
ghost use Rattle.stream.specs.declared.Direction.TheVariants.{Sealing, Checking, Opening};
ghost use Rattle.gateway.specs.Word.{one_word};
ghost use Rattle.gateway.specs.Spelling.{is_spelling, state_in};
ghost use Rattle.gateway.specs.Calls.{left, left_lent, unspelled, left_by, left_beside, start_on, ad_on, text_on, finish_on, end_on};

use crate::{area, word};
use answers::Answer;
use stream::{Direction, Outcome, Stream};

// Leaves the spelling of an outcome's next state in the area, and gives the word of its answer and rounds. `Outcome` is a plain struct, whose fields any
// caller sets, so the bound on the rounds is a clause here and no invariant there.
fn leave(state: &mut [u8; area::LENGTH], outcome: Outcome) -> u64
    requires { outcome.rounds ≤ 8912928 }
    ensures { left result state.new ≡ left_by outcome }
{
    *state = area::spelling(outcome.next);
    word::word(outcome.answer, outcome.rounds)
}

// The word of an area that spells no state: 8, and no rounds.
fn unspelled() -> u64
    ensures { result ≡ one_word BrokenState 0 }
{
    word::word(Answer::BrokenState, 0)
}

// Starts a stream of a direction, whose state comes back in the area.
fn start(
    direction: Direction,
    set: u64,
    limit: u64,
    key: &[u8],
    nonce: &[u8],
    state: &mut [u8],
) -> u64
    ensures { left result state.new ≡ start_on (record { direction = direction; set = set; limit = limit; key = key.now; nonce = nonce.now }) state.old }
{
    match state.as_mut_array() {
        Some(area) => leave(area, Stream::start(direction, set, limit, key, nonce)),
        None => unspelled(),
    }
}

// Starts a sealing. The three starts are alike, and set, limit, key and nonce stand apart: so C calls them.
pub fn kvistmaur_start_sealing(
    set: u64,
    limit: u64,
    key: &[u8],
    nonce: &[u8],
    state: &mut [u8],
) -> u64
    ensures { left result state.new ≡ start_on (record { direction = Sealing; set = set; limit = limit; key = key.now; nonce = nonce.now }) state.old }
{
    start(Direction::Sealing, set, limit, key, nonce, state)
}

// Starts a checking.
pub fn kvistmaur_start_checking(
    set: u64,
    limit: u64,
    key: &[u8],
    nonce: &[u8],
    state: &mut [u8],
) -> u64
    ensures { left result state.new ≡ start_on (record { direction = Checking; set = set; limit = limit; key = key.now; nonce = nonce.now }) state.old }
{
    start(Direction::Checking, set, limit, key, nonce, state)
}

// Starts an opening.
pub fn kvistmaur_start_opening(
    set: u64,
    limit: u64,
    key: &[u8],
    nonce: &[u8],
    state: &mut [u8],
) -> u64
    ensures { left result state.new ≡ start_on (record { direction = Opening; set = set; limit = limit; key = key.now; nonce = nonce.now }) state.old }
{
    start(Direction::Opening, set, limit, key, nonce, state)
}

// A call on the state that an area spells, with a place that is lent to it: its next state is left in the area. Where that spells none, all stays, and the answer is 8.
fn with_state<F: FnOnce(Stream, &mut [u8]) -> Outcome>(
    state: &mut [u8],
    lent: &mut [u8],
    call: F,
) -> u64
    requires callable { F.IsAlwaysCallable call }
    requires rounds_bound { (s : _) (x : _) (o : _) (y : _) → F.post call s x o y → o.rounds ≤ 8912928 }
    ensures spelled { is_spelling state.old ≡ true → (x : _) × (o : _) × (y : _) × F.post call (state_in state.old) x o y × (x.now ≡ lent.old) × (left_lent result state.new lent.new ≡ left_beside (left_by o) y.now) }
    ensures not_spelled { is_spelling state.old ≡ false → left_lent result state.new lent.new ≡ left_beside (unspelled state.old) lent.old }
{
    let Some(area) = state.as_mut_array() else {
        return unspelled();
    };
    let Some(before) = area::state_in(area) else {
        return unspelled();
    };
    leave(area, call(before, lent))
}

// Takes a piece of the associated data, in every direction.
pub fn kvistmaur_stream_data(state: &mut [u8], ad: &[u8]) -> u64
    ensures { left result state.new ≡ ad_on state.old ad.now }
{
    with_state(state, &mut [], |before, _| before.ad(ad))
}

// Seals a piece of the text into `out`.
pub fn kvistmaur_stream_seal(state: &mut [u8], text: &[u8], out: &mut [u8]) -> u64
    ensures { left_lent result state.new out.new ≡ text_on Sealing state.old text.now out.old }
{
    with_state(state, out, |before, out| before.seal(text, out))
}

// Takes a piece of the ciphertext, to be checked.
pub fn kvistmaur_stream_check(state: &mut [u8], cipher: &[u8]) -> u64
    ensures { left_lent result state.new [] ≡ text_on Checking state.old cipher.now [] }
{
    with_state(state, &mut [], |before, _| before.check(cipher))
}

// Opens a piece of the ciphertext into `out`. What stands there is unverified until `kvistmaur_finish_opening` says done, and a 9 does not take it back.
pub fn kvistmaur_stream_open(state: &mut [u8], cipher: &[u8], out: &mut [u8]) -> u64
    ensures { left_lent result state.new out.new ≡ text_on Opening state.old cipher.now out.old }
{
    with_state(state, out, |before, out| before.open(cipher, out))
}

// Ends a sealing: the tag.
pub fn kvistmaur_finish_sealing(state: &mut [u8], tag: &mut [u8]) -> u64
    ensures { left_lent result state.new tag.new ≡ finish_on Sealing state.old tag.old }
{
    with_state(state, tag, |before, tag| before.finish_sealing(tag))
}

// Ends a checking: whether the tag is the right one.
pub fn kvistmaur_finish_checking(state: &mut [u8], tag: &[u8]) -> u64
    ensures { left_lent result state.new tag.now ≡ finish_on Checking state.old tag.now }
{
    with_state(state, &mut [], |before, _| before.finish_checking(tag))
}

// Ends an opening: whether the tag is the right one; where it is, what was handed out is the plaintext.
pub fn kvistmaur_finish_opening(state: &mut [u8], tag: &[u8]) -> u64
    ensures { left_lent result state.new tag.now ≡ finish_on Opening state.old tag.now }
{
    with_state(state, &mut [], |before, _| before.finish_opening(tag))
}

// Ends a stream without a tag: the area holds the ended state, and no key.
pub fn kvistmaur_stream_end(state: &mut [u8]) -> u64
    ensures { left result state.new ≡ end_on state.old }
{
    match state.as_mut_array() {
        Some(area) => {
            *area = area::spelling(Stream::ended());
            word::word(Answer::Done, 0)
        }
        None => unspelled(),
    }
}
