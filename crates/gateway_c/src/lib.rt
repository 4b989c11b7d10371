// The C boundary of `gateway`: each export calls the function of its name there, and states its clauses again.
#![tactic(auto)]

ghost use Rattle.std.specs.Prelude.{◌≡◌, []};
ghost use Rattle.stream.specs.declared.Direction.TheVariants.{Sealing, Checking, Opening};
ghost use Rattle.message.specs.Message.{seal_call, open_call};
ghost use Rattle.gateway.specs.Word.{word_of};
ghost use Rattle.gateway.specs.Calls.{left, left_lent, start_on, ad_on, text_on, finish_on, end_on};

// Seals a message.
#[unsafe(no_mangle)]
pub extern "C" fn kvistmaur_seal(
    set: u64,
    key: &[u8],
    nonce: &[u8],
    ad: &[u8],
    text: &[u8],
    out: &mut [u8],
    tag: &mut [u8],
) -> u64
    ensures value { result ≡ word_of (seal_call set key.now nonce.now ad.now text.now out.old tag.old).outcome }
    ensures out_after { out.new ≡ (seal_call set key.now nonce.now ad.now text.now out.old tag.old).out }
    ensures tag_after { tag.new ≡ (seal_call set key.now nonce.now ad.now text.now out.old tag.old).tag }
{
    gateway::kvistmaur_seal(set, key, nonce, ad, text, out, tag)
}

// Opens a message.
#[unsafe(no_mangle)]
pub extern "C" fn kvistmaur_open(
    set: u64,
    key: &[u8],
    nonce: &[u8],
    ad: &[u8],
    cipher: &[u8],
    tag: &[u8],
    out: &mut [u8],
) -> u64
    ensures value { result ≡ word_of (open_call set key.now nonce.now ad.now cipher.now tag.now out.old).outcome }
    ensures out_after { out.new ≡ (open_call set key.now nonce.now ad.now cipher.now tag.now out.old).out }
{
    gateway::kvistmaur_open(set, key, nonce, ad, cipher, tag, out)
}

// Starts a sealing.
#[unsafe(no_mangle)]
pub extern "C" fn kvistmaur_start_sealing(
    set: u64,
    limit: u64,
    key: &[u8],
    nonce: &[u8],
    state: &mut [u8],
) -> u64
    ensures { left result state.new ≡ start_on (record { direction = Sealing; set = set; limit = limit; key = key.now; nonce = nonce.now }) state.old }
{
    gateway::kvistmaur_start_sealing(set, limit, key, nonce, state)
}

// Starts a checking.
#[unsafe(no_mangle)]
pub extern "C" fn kvistmaur_start_checking(
    set: u64,
    limit: u64,
    key: &[u8],
    nonce: &[u8],
    state: &mut [u8],
) -> u64
    ensures { left result state.new ≡ start_on (record { direction = Checking; set = set; limit = limit; key = key.now; nonce = nonce.now }) state.old }
{
    gateway::kvistmaur_start_checking(set, limit, key, nonce, state)
}

// Starts an opening.
#[unsafe(no_mangle)]
pub extern "C" fn kvistmaur_start_opening(
    set: u64,
    limit: u64,
    key: &[u8],
    nonce: &[u8],
    state: &mut [u8],
) -> u64
    ensures { left result state.new ≡ start_on (record { direction = Opening; set = set; limit = limit; key = key.now; nonce = nonce.now }) state.old }
{
    gateway::kvistmaur_start_opening(set, limit, key, nonce, state)
}

// Takes a piece of the associated data, in every direction.
#[unsafe(no_mangle)]
pub extern "C" fn kvistmaur_stream_data(state: &mut [u8], ad: &[u8]) -> u64
    ensures { left result state.new ≡ ad_on state.old ad.now }
{
    gateway::kvistmaur_stream_data(state, ad)
}

// Seals a piece of the text into `out`.
#[unsafe(no_mangle)]
pub extern "C" fn kvistmaur_stream_seal(state: &mut [u8], text: &[u8], out: &mut [u8]) -> u64
    ensures { left_lent result state.new out.new ≡ text_on Sealing state.old text.now out.old }
{
    gateway::kvistmaur_stream_seal(state, text, out)
}

// Takes a piece of the ciphertext, to be checked.
#[unsafe(no_mangle)]
pub extern "C" fn kvistmaur_stream_check(state: &mut [u8], cipher: &[u8]) -> u64
    ensures { left_lent result state.new [] ≡ text_on Checking state.old cipher.now [] }
{
    gateway::kvistmaur_stream_check(state, cipher)
}

// Opens a piece of the ciphertext into `out`. What stands there is unverified until `kvistmaur_finish_opening` says done, and a 9 does not take it back.
#[unsafe(no_mangle)]
pub extern "C" fn kvistmaur_stream_open(state: &mut [u8], cipher: &[u8], out: &mut [u8]) -> u64
    ensures { left_lent result state.new out.new ≡ text_on Opening state.old cipher.now out.old }
{
    gateway::kvistmaur_stream_open(state, cipher, out)
}

// Ends a sealing: the tag.
#[unsafe(no_mangle)]
pub extern "C" fn kvistmaur_finish_sealing(state: &mut [u8], tag: &mut [u8]) -> u64
    ensures { left_lent result state.new tag.new ≡ finish_on Sealing state.old tag.old }
{
    gateway::kvistmaur_finish_sealing(state, tag)
}

// Ends a checking: whether the tag is the right one.
#[unsafe(no_mangle)]
pub extern "C" fn kvistmaur_finish_checking(state: &mut [u8], tag: &[u8]) -> u64
    ensures { left_lent result state.new tag.now ≡ finish_on Checking state.old tag.now }
{
    gateway::kvistmaur_finish_checking(state, tag)
}

// Ends an opening: whether the tag is the right one; where it is, what was handed out is the plaintext.
#[unsafe(no_mangle)]
pub extern "C" fn kvistmaur_finish_opening(state: &mut [u8], tag: &[u8]) -> u64
    ensures { left_lent result state.new tag.now ≡ finish_on Opening state.old tag.now }
{
    gateway::kvistmaur_finish_opening(state, tag)
}

// Ends a stream without a tag: the area holds the ended state, and no key.
#[unsafe(no_mangle)]
pub extern "C" fn kvistmaur_stream_end(state: &mut [u8]) -> u64
    ensures { left result state.new ≡ end_on state.old }
{
    gateway::kvistmaur_stream_end(state)
}
