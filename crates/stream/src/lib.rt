// Sealing, checking and opening streams. A state goes into each call and comes back from it; every call takes any state, any lengths and any order, and answers
// with its listed number. What an opening hands out is unverified until its finish says done.
#![tactic(auto, using(sets::proofs::Rows::row_sizes))]

ghost use Rattle.std.specs.Prelude.{true, false, ◌≡◌, [], ◌+◌, ◌-◌, ◌*◌, ◌≤◌, ◌<◌, take, drop};
ghost use Rattle.ascon.specs.Sets.{row_of, text_limit};
ghost use Rattle.stream.specs.declared.Direction.TheVariants.{Sealing, Checking, Opening};
ghost use Rattle.sets.specs.Start.{tested};
ghost use Rattle.stream.specs.State.{rank_of, way_of, gives_text, gives_tag, fits, all_zero, ended, is_sound_open, is_sound};
ghost use Rattle.stream.specs.Calls.{filled_rounds, limited_start_test, piece_test, text_test, finish_test, refused, text_words, closing_rounds, start_call, ad_call, took_text, own_tag, called, text_call, finish_call};

use answers::Answer;
use sponge::Way;

// What a stream does with its text.
#[derive(Clone, Copy, PartialEq, Eq)]
pub enum Direction {
    Sealing,
    Checking,
    Opening,
}

// What a stream takes next.
#[derive(Clone, Copy, PartialEq, Eq)]
pub enum Phase {
    Ad,
    Text,
    Ended,
}

// A stream's state. The key has the set's length, with zeros behind it; ad and text are the bytes taken so far; the place is that of the next byte in its
// block; the limit is that of the text.
#[derive(Clone, Copy, PartialEq, Eq)]
pub struct Stream {
    pub words: [u64; 5],
    pub set: u64,
    pub direction: Direction,
    pub phase: Phase,
    pub key: [u8; 16],
    pub ad: usize,
    pub text: usize,
    pub place: usize,
    pub limit: u64,
}

// What a call answers: the answer, the rounds run in the call, and the next state. No Result, since a refusal, too, gives rounds and a next state.
#[derive(Clone, Copy)]
pub struct Outcome {
    pub answer: Answer,
    pub rounds: u64,
    pub next: Stream,
}

// The rank of a direction, a number as row `stream_rank` of `every_call` has it: 0, 1 or 2.
pub fn rank(direction: Direction) -> u64
    ensures { result ≡ rank_of direction }
{
    direction as u64
}

// Whether a piece of text has an output in a direction.
fn gives_text(direction: Direction) -> bool
    ensures { result ≡ gives_text direction }
{
    direction != Direction::Checking
}

// Whether a direction's text is sealed or opened; either way, the state's front becomes the ciphertext.
// An arm for each direction: the edit `front_plaintext` turns one.
fn way(direction: Direction) -> Way
    ensures { result ≡ way_of direction }
{
    match direction {
        Direction::Sealing => Way::Seal,
        Direction::Checking => Way::Open,
        Direction::Opening => Way::Open,
    }
}

// Whether each byte is zero.
fn all_zero(bytes: &[u8]) -> bool
    ensures { result ≡ all_zero bytes.now }
{
    bytes.iter().all(|byte| *byte == 0)
}

// The rounds of the blocks that n bytes fill after `count` of them.
#[tactic(auto, using(sets::proofs::Rows::row_sizes), unfolding(crate::specs::Calls::filled_rounds))]
fn filled_rounds(set: u64, count: usize, n: usize) -> u64
    requires { count + n ≤ text_limit }
    ensures { result ≡ filled_rounds (row_of set) count n }
{
    let block = sets::block_length(set);
    let blocks = (count + n) / block - count / block;
    sets::rounds_between(set) * (blocks as u64)
}

// The tests of a start: set, key length and nonce length, then its limit.
#[tactic(auto, using(crate::proofs::Tests::limited_start_test_is))]
fn limited_start_test(set: u64, key: usize, nonce: usize, limit: u64) -> Result<(), Answer>
    ensures { result ≡ tested (limited_start_test set key nonce limit) }
{
    let answer = sets::start_test(set, key, nonce);
    if !answers::is_done(answer) {
        return Err(answer);
    }
    if (sets::TEXT_LIMIT as u64) < limit {
        return Err(Answer::PastLimit);
    }
    Ok(())
}

// A refusal, which leaves the state as it was.
fn refusal(answer: Answer, next: Stream) -> Outcome
    ensures { result ≡ refused answer next }
{
    Outcome {
        answer,
        rounds: 0,
        next,
    }
}

impl Stream {
    // The one ended state.
    pub fn ended() -> Stream
        ensures { result ≡ ended }
    {
        Stream {
            words: [0; 5],
            set: 1,
            direction: Direction::Sealing,
            phase: Phase::Ended,
            key: [0; 16],
            ad: 0,
            text: 0,
            place: 0,
            limit: 0,
        }
    }

    // Whether an open state, whose phase has taken `count` bytes, keeps the rules of set, key, counts, limits and place.
    #[tactic(auto, using(sets::proofs::Rows::row_sizes), unfolding(crate::specs::State::is_sound_open))]
    fn sound_open(self, count: usize) -> bool
        ensures { result ≡ is_sound_open self count }
    {
        sets::is_set(self.set)
            && all_zero(&self.key[sets::key_length(self.set)..])
            && self.ad <= sets::AD_LIMIT
            && self.text as u64 <= self.limit
            && self.limit <= sets::TEXT_LIMIT as u64
            && self.place == count % sets::block_length(self.set)
    }

    // Whether the state breaks no rule.
    #[tactic(auto, unfolding(crate::specs::State::is_sound, crate::specs::State::is_sound_ended))]
    fn sound(self) -> bool
        ensures { result ≡ is_sound self }
    {
        match self.phase {
            Phase::Ad => self.text == 0 && self.sound_open(self.ad),
            Phase::Text => self.sound_open(self.text),
            Phase::Ended => self == Stream::ended(),
        }
    }

    // The tests of a piece of n bytes after `count` of them: state, phase and direction, limit.
    #[tactic(auto, unfolding(crate::specs::Calls::piece_test))]
    fn piece_test(self, fit: bool, count: usize, n: usize, limit: usize) -> Result<(), Answer>
        ensures { result ≡ tested (piece_test self fit count n limit) }
    {
        if !self.sound() {
            return Err(Answer::BrokenState);
        }
        if !fit {
            return Err(Answer::OutOfPhase);
        }
        if limit < n || limit - n < count {
            return Err(Answer::PastLimit);
        }
        Ok(())
    }

    // Whether a call on the text, for a direction, is in its phase and on a stream of that direction.
    fn fits(self, wanted: Direction) -> bool
        ensures { result ≡ fits wanted self }
    {
        self.phase != Phase::Ended && self.direction == wanted
    }

    // The tests of a piece of n bytes of text for a direction: those of a piece, by the stream's limit, and the room where it has an output.
    #[tactic(auto, using(crate::proofs::Tests::text_roomy))]
    fn text_test(self, wanted: Direction, n: usize, room: usize) -> Result<(), Answer>
        ensures { result ≡ tested (text_test wanted self n room) }
    {
        self.piece_test(self.fits(wanted), self.text, n, self.limit as usize)?;
        if gives_text(wanted) && room < n {
            return Err(Answer::NoRoom);
        }
        Ok(())
    }

    // The tests of a finish in a direction with a tag of n bytes: state, phase and direction, tag length.
    #[tactic(auto, unfolding(crate::specs::Calls::finish_test))]
    fn finish_test(self, wanted: Direction, n: usize) -> Result<(), Answer>
        ensures { result ≡ tested (finish_test wanted self n) }
    {
        if !self.sound() {
            return Err(Answer::BrokenState);
        }
        if !self.fits(wanted) {
            return Err(Answer::OutOfPhase);
        }
        if n != sets::key_length(self.set) {
            return Err(Answer::TagLength);
        }
        Ok(())
    }

    // The words at the text: the associated data is closed where it is still open.
    #[tactic(auto, unfolding(crate::specs::Calls::text_words))]
    fn text_words(self) -> [u64; 5]
        ensures { result ≡ text_words self }
    {
        if self.phase == Phase::Ad {
            sponge::close_ad(self.set, self.words, self.ad)
        } else {
            self.words
        }
    }

    // The rounds of closing the associated data, where it is still open and not empty.
    #[tactic(auto, unfolding(crate::specs::Calls::closing_rounds))]
    fn closing_rounds(self) -> u64
        ensures { result ≡ closing_rounds self }
    {
        if self.phase == Phase::Ad && self.ad > 0 {
            sets::rounds_between(self.set)
        } else {
            0
        }
    }

    // A start with a limit of its text: set, key, nonce and limit are tested, and the data phase is open.
    pub fn start(direction: Direction, set: u64, limit: u64, key: &[u8], nonce: &[u8]) -> Outcome
        ensures { result ≡ start_call (record { direction = direction; set = set; limit = limit; key = key.now; nonce = nonce.now }) }
    {
        if let Err(answer) = limited_start_test(set, key.len(), nonce.len(), limit) {
            return refusal(answer, Stream::ended());
        }
        let key16 = tags::sixteen(key);
        let words = sponge::start(set, key16, tags::sixteen(nonce));
        let next = Stream {
            words,
            set,
            direction,
            phase: Phase::Ad,
            key: key16,
            ad: 0,
            text: 0,
            place: 0,
            limit,
        };
        Outcome {
            answer: Answer::Done,
            rounds: 12,
            next,
        }
    }

    // A piece of the associated data, in every direction.
    pub fn ad(self, piece: &[u8]) -> Outcome
        ensures { result ≡ ad_call self piece.now }
    {
        let fit = self.phase == Phase::Ad;
        if let Err(answer) = self.piece_test(fit, self.ad, piece.len(), sets::AD_LIMIT) {
            return refusal(answer, self);
        }
        let ad = self.ad + piece.len();
        let next = Stream {
            words: sponge::absorb(self.set, Way::Seal, self.words, self.ad, piece),
            ad,
            place: ad % sets::block_length(self.set),
            ..self
        };
        Outcome {
            answer: Answer::Done,
            rounds: filled_rounds(self.set, self.ad, piece.len()),
            next,
        }
    }

    // What a text call answers when n bytes were taken and left these words.
    fn took_text(self, words: [u64; 5], n: usize) -> Outcome
        requires { self.text + n ≤ text_limit }
        ensures { result ≡ took_text self words n }
    {
        let text = self.text + n;
        let next = Stream {
            words,
            phase: Phase::Text,
            text,
            place: text % sets::block_length(self.set),
            ..self
        };
        Outcome {
            answer: Answer::Done,
            rounds: self.closing_rounds() + filled_rounds(self.set, self.text, n),
            next,
        }
    }

    // A piece of the text in a direction that has an output, which goes to `out`.
    fn crypt(self, wanted: Direction, piece: &[u8], out: &mut [u8]) -> Outcome
        requires { gives_text wanted ≡ true }
        ensures { called result out.new ≡ text_call wanted self piece.now out.old }
    {
        if let Err(answer) = self.text_test(wanted, piece.len(), out.len()) {
            return refusal(answer, self);
        }
        let words = sponge::crypt(
            self.set,
            way(wanted),
            self.text_words(),
            self.text,
            piece,
            out,
        );
        self.took_text(words, piece.len())
    }

    // A piece of the text, sealed into `out`.
    pub fn seal(self, piece: &[u8], out: &mut [u8]) -> Outcome
        ensures { called result out.new ≡ text_call Sealing self piece.now out.old }
    {
        self.crypt(Direction::Sealing, piece, out)
    }

    // A piece of the ciphertext, to be checked.
    pub fn check(self, piece: &[u8]) -> Outcome
        ensures { result ≡ (text_call Checking self piece.now []).outcome }
    {
        if let Err(answer) = self.text_test(Direction::Checking, piece.len(), 0) {
            return refusal(answer, self);
        }
        let words = sponge::absorb(self.set, Way::Open, self.text_words(), self.text, piece);
        self.took_text(words, piece.len())
    }

    // A piece of the ciphertext, opened into `out`. What stands there is unverified until `finish_opening` says done, and a 9 does not take it back.
    pub fn open(self, piece: &[u8], out: &mut [u8]) -> Outcome
        ensures { called result out.new ≡ text_call Opening self piece.now out.old }
    {
        self.crypt(Direction::Opening, piece, out)
    }

    // The tag of the text so far, with zeros behind it.
    fn tag16(self) -> [u8; 16]
        ensures { take (row_of self.set).key result ≡ own_tag self }
    {
        sponge::finish(self.set, self.text_words(), self.text, self.key)
    }

    // The end of a sealing: the tag.
    pub fn finish_sealing(self, tag: &mut [u8]) -> Outcome
        ensures { called result tag.new ≡ finish_call Sealing self tag.old }
    {
        if let Err(answer) = self.finish_test(Direction::Sealing, tag.len()) {
            return refusal(answer, self);
        }
        tags::give_tag(self.tag16(), tag);
        Outcome {
            answer: Answer::Done,
            rounds: self.closing_rounds() + 12,
            next: Stream::ended(),
        }
    }

    // The end in a direction that is given a tag: whether it is the right one.
    fn compare(self, wanted: Direction, tag: &[u8]) -> Outcome
        requires { gives_tag wanted ≡ false }
        ensures { result ≡ (finish_call wanted self tag.now).outcome }
    {
        if let Err(answer) = self.finish_test(wanted, tag.len()) {
            return refusal(answer, self);
        }
        let ours = self.tag16();
        let same = tags::same_tag(&ours[..sets::key_length(self.set)], tag);
        Outcome {
            answer: if same {
                Answer::Done
            } else {
                Answer::TagDiffers
            },
            rounds: self.closing_rounds() + 12,
            next: Stream::ended(),
        }
    }

    // The end of a checking: whether the tag is the right one.
    pub fn finish_checking(self, tag: &[u8]) -> Outcome
        ensures { result ≡ (finish_call Checking self tag.now).outcome }
    {
        self.compare(Direction::Checking, tag)
    }

    // The end of an opening: whether the tag is the right one; where it is, what was handed out is the plaintext.
    pub fn finish_opening(self, tag: &[u8]) -> Outcome
        ensures { result ≡ (finish_call Opening self tag.now).outcome }
    {
        self.compare(Direction::Opening, tag)
    }
}
