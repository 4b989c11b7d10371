// What crosses the C boundary, which `gateway_c` exports: whole messages here, and in `streams` streams whose state the caller keeps in an area of bytes. Each slice crosses
// as a pointer and a length; the answer and the rounds come back in one word.
#![tactic(auto)]

mod area;
mod streams;
mod word;

ghost use Rattle.std.specs.Prelude.{◌≡◌};
ghost use Rattle.message.specs.Message.{seal_call, open_call};
ghost use Rattle.gateway.specs.Word.{word_of};

pub use streams::{
    kvistmaur_finish_checking, kvistmaur_finish_opening, kvistmaur_finish_sealing,
    kvistmaur_start_checking, kvistmaur_start_opening, kvistmaur_start_sealing,
    kvistmaur_stream_check, kvistmaur_stream_data, kvistmaur_stream_end, kvistmaur_stream_open,
    kvistmaur_stream_seal,
};

// Seals a message. It and `kvistmaur_open` are alike, and set, key and nonce stand apart: so C calls them.
pub fn kvistmaur_seal(
    set: u64,
    key: &[u8],
    nonce: &[u8],
    ad: &[u8],
    text: &[u8],
    out: &mut [u8],
    tag: &mut [u8],
) -> u64
    ensures value { result ≡ word_of (seal_call set key.now nonce.now ad.now text.now out.old tag.old).outcome }
    ensures out_after { out.new ≡ (seal_call set key.now nonce.now ad.now text.now out.old tag.old).out }
    ensures tag_after { tag.new ≡ (seal_call set key.now nonce.now ad.now text.now out.old tag.old).tag }
{
    let outcome = message::seal(set, key, nonce, ad, text, out, tag);
    word::word(outcome.answer, outcome.rounds)
}

// Opens a message.
pub fn kvistmaur_open(
    set: u64,
    key: &[u8],
    nonce: &[u8],
    ad: &[u8],
    cipher: &[u8],
    tag: &[u8],
    out: &mut [u8],
) -> u64
    ensures value { result ≡ word_of (open_call set key.now nonce.now ad.now cipher.now tag.now out.old).outcome }
    ensures out_after { out.new ≡ (open_call set key.now nonce.now ad.now cipher.now tag.now out.old).out }
{
    let outcome = message::open(set, key, nonce, ad, cipher, tag, out);
    word::word(outcome.answer, outcome.rounds)
}
