// Whole messages: sealing and opening in one call, on the sponge that streams are built on. Every call takes any set number and any lengths, and answers with
// its listed number.
#![tactic(auto)]

ghost use Rattle.std.specs.Prelude.{◌≡◌, ◌++◌, ◌-◌, ◌≤◌, length, drop};
ghost use Rattle.ascon.specs.Sets.{row_of, ad_limit, text_limit};
ghost use Rattle.permutation.specs.Strings.{Bytes, zeros};
ghost use Rattle.sets.specs.Start.{tested};
ghost use Rattle.ascon.specs.Mode.{finalise};
ghost use Rattle.ascon.specs.Rounds.{message_rounds};
ghost use Rattle.sponge.specs.Sponge.{processed};
ghost use Rattle.message.specs.Message.{message_test, seal_leaves, seal_call, open_leaves, open_call};

use answers::Answer;
use sponge::Way;

// What a call answers: the answer, and the rounds run in the call. No Result, since 9, a refusal too, comes with the rounds that were run.
#[derive(Clone, Copy)]
pub struct Outcome {
    pub answer: Answer,
    pub rounds: u64,
}

// A message in one direction: the set, key, nonce, data, and the text that comes.
#[derive(Clone, Copy)]
struct Message<'a> {
    set: u64,
    key: &'a [u8],
    nonce: &'a [u8],
    ad: &'a [u8],
    text: &'a [u8],
}

impl<'a> Message<'a> {
    // The tests of a message: those of a start, the tag's length, the limits, the room.
    #[tactic(auto, using(crate::proofs::Tests::start_first))]
    fn test(&self, tag: usize, out: usize) -> Result<(), Answer>
        ensures { result ≡ tested (message_test self.now.set (length self.now.key.now) (length self.now.nonce.now) tag (length self.now.ad.now) (length self.now.text.now) out) }
    {
        let start = sets::start_test(self.set, self.key.len(), self.nonce.len());
        if !answers::is_done(start) {
            return Err(start);
        }
        if tag != sets::key_length(self.set) {
            return Err(Answer::TagLength);
        }
        if sets::AD_LIMIT < self.ad.len() || sets::TEXT_LIMIT < self.text.len() {
            return Err(Answer::PastLimit);
        }
        if out < self.text.len() {
            return Err(Answer::NoRoom);
        }
        Ok(())
    }

    // Processes the text in a direction into `out`, and gives the tag with zeros behind it.
    fn process(self, way: Way, out: &mut [u8]) -> [u8; 16]
        requires bytes { Bytes self.key.now × (Bytes self.ad.now × Bytes self.text.now) }
        requires key_len { length self.key.now ≡ (row_of self.set).key }
        requires nonce_len { length self.nonce.now ≡ (row_of self.set).key }
        requires text_in_bounds { length self.text.now ≤ length out.old }
        ensures value { result ≡ finalise (row_of self.entry.set) self.entry.key.now (processed way (row_of self.entry.set) self.entry.key.now self.entry.nonce.now self.entry.ad.now self.entry.text.now).state ++ zeros (16 - (row_of self.entry.set).key) }
        ensures out_after { out.new ≡ (processed way (row_of self.entry.set) self.entry.key.now self.entry.nonce.now self.entry.ad.now self.entry.text.now).out ++ drop (length self.entry.text.now) out.old }
    {
        let key16 = tags::sixteen(self.key);
        let started = sponge::start(self.set, key16, tags::sixteen(self.nonce));
        let absorbed = sponge::absorb(self.set, Way::Seal, started, 0, self.ad);
        let before = sponge::close_ad(self.set, absorbed, self.ad.len());
        let after = sponge::crypt(self.set, way, before, 0, self.text, out);
        sponge::finish(self.set, after, self.text.len(), key16)
    }

    // The rounds of the message.
    fn rounds(self) -> u64
        requires ad_within { length self.ad.now ≤ ad_limit }
        requires text_within { length self.text.now ≤ text_limit }
        ensures { result ≡ message_rounds (row_of self.entry.set) (length self.entry.ad.now) (length self.entry.text.now) }
    {
        sets::message_rounds(self.set, self.ad.len() as u32, self.text.len() as u32)
    }
}

// Seals a message: the ciphertext into `out`, the tag into `tag`.
pub fn seal(
    set: u64,
    key: &[u8],
    nonce: &[u8],
    ad: &[u8],
    text: &[u8],
    out: &mut [u8],
    tag: &mut [u8],
) -> Outcome
    ensures { seal_leaves result out.new tag.new ≡ seal_call set key.now nonce.now ad.now text.now out.old tag.old }
{
    let message = Message {
        set,
        key,
        nonce,
        ad,
        text,
    };
    if let Err(answer) = message.test(tag.len(), out.len()) {
        return Outcome { answer, rounds: 0 };
    }
    let ours = message.process(Way::Seal, out);
    tags::give_tag(ours, tag);
    Outcome {
        answer: Answer::Done,
        rounds: message.rounds(),
    }
}

// Opens a message: the plaintext into `out` where the tag is right, zeros where it is not.
pub fn open(
    set: u64,
    key: &[u8],
    nonce: &[u8],
    ad: &[u8],
    cipher: &[u8],
    tag: &[u8],
    out: &mut [u8],
) -> Outcome
    ensures { open_leaves result out.new ≡ open_call set key.now nonce.now ad.now cipher.now tag.now out.old }
{
    let message = Message {
        set,
        key,
        nonce,
        ad,
        text: cipher,
    };
    if let Err(answer) = message.test(tag.len(), out.len()) {
        return Outcome { answer, rounds: 0 };
    }
    let ours = message.process(Way::Open, out);
    let rounds = message.rounds();
    if tags::same_tag(&ours[..sets::key_length(set)], tag) {
        return Outcome {
            answer: Answer::Done,
            rounds,
        };
    }
    out[..cipher.len()].fill(0);
    Outcome {
        answer: Answer::TagDiffers,
        rounds,
    }
}
