// A call of the log, fed to our own stream.
ghost use Rattle.std.specs.Prelude.{◌≡◌, cond, ◌≤◌, length};
ghost use Rattle.answers.specs.Numbers.{is_done};
ghost use Rattle.replay.specs.Feeding.{in_places, silent, started, sealed_piece, finished, fed};

use answers::Answer;
use chip_log::Call;
use record::Field;
use stream::{Direction, Outcome, Stream};

// What a call on our stream gives: the answer, the output, the rounds, and the next state; no Result, as `stream::Outcome` is none.
#[derive(Clone, Copy)]
pub struct Given {
    pub answer: Answer,
    pub out: Field,
    pub rounds: u64,
    pub next: Stream,
}

impl Given {
    // What a call gives whose output, where it is done, is the first `size` of 256 places; there is no heap.
    fn with_out(outcome: Outcome, bytes: [u8; 256], size: usize) -> Given
        ensures { result ≡ record { answer = outcome.answer; out = record { bytes = bytes; size = cond (is_done outcome.answer) size 0 }; rounds = outcome.rounds; next = outcome.next } }
    {
        let size = if answers::is_done(outcome.answer) {
            size
        } else {
            0
        };
        Given {
            answer: outcome.answer,
            out: Field { bytes, size },
            rounds: outcome.rounds,
            next: outcome.next,
        }
    }

    // What a call gives that has no output.
    #[tactic(auto, unfolding(record::specs::Form::field_of))]
    fn without_out(outcome: Outcome) -> Given
        ensures { result ≡ in_places (silent outcome) }
    {
        Given::with_out(outcome, [0; 256], 0)
    }
}

// A start in a set with the largest limit: key, then nonce.
fn start(set: u64, input: &[u8]) -> Given
    ensures { result ≡ in_places (started set input.now) }
{
    let (key, nonce) = input.split_at(sets::key_length(set).min(input.len()));
    Given::without_out(Stream::start(Direction::Sealing, set, sets::TEXT_LIMIT as u64, key, nonce))
}

// A piece of the text, with as much room as it has bytes.
fn seal(stream: Stream, input: &[u8]) -> Given
    requires { length input.now ≤ 256 }
    ensures { result ≡ in_places (sealed_piece stream input.now) }
{
    let mut out = [0; 256];
    let size = input.len();
    let outcome = stream.seal(input, &mut out[..size]);
    Given::with_out(outcome, out, size)
}

// The finish, with room for the tag.
fn finish(stream: Stream) -> Given
    ensures { result ≡ in_places (finished stream) }
{
    let mut tag = [0; 256];
    let size = sets::key_length(stream.set);
    let outcome = stream.finish_sealing(&mut tag[..size]);
    Given::with_out(outcome, tag, size)
}

// Feeds a call and what it is handed to a stream.
pub(crate) fn feed(stream: Stream, call: Call, input: &[u8]) -> Given
    requires { length input.now ≤ 256 }
    ensures { result ≡ in_places (fed stream call input.now) }
{
    match call {
        Call::Start1 => start(1, input),
        Call::Start2 => start(2, input),
        Call::Ad => Given::without_out(stream.ad(input)),
        Call::Text => seal(stream, input),
        Call::Finish => finish(stream),
    }
}
