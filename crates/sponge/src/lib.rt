// The cipher on five words: the start, a piece of data or text byte by byte, the end of the data, the end of the text with the tag. Streams and whole
// messages are built on it. Each public function is total, and its contract speaks of the state's 40 bytes.
#![tactic(auto, using(sets::proofs::Rows::row_sizes))]

ghost use Rattle.std.specs.Prelude.{◌≡◌, ◌+◌, ◌<◌, ◌≤◌, length, take};
ghost use Rattle.ascon.specs.Sets.{row_of};
ghost use Rattle.ascon.specs.Bytewise.{at};
ghost use Rattle.sponge.specs.Sponge.{started, absorbed, crypted, crypted_of, ad_closed, tag_of, finished};
ghost use Rattle.sponge.specs.Words.{byte_of, with_byte, with_bytes, feed_of, gone_of, stepped, masked_end};

use permutation::Run;

// What stays in the state: the byte that goes out, or the one that comes.
#[derive(Clone, Copy)]
pub enum Way {
    Seal,
    Open,
}

// The byte at a place of the words, high byte first.
fn byte_at(w: &[u64; 5], place: usize) -> u8
    requires { place < 40 }
    ensures { result ≡ byte_of w.now place }
{
    let k = place / 8;
    let s = 56 - 8 * (place % 8);
    ((w[k] >> s) % 256) as u8
}

// Combines a byte with the byte at a place of the words.
fn put_byte(w: &mut [u64; 5], place: usize, x: u8)
    requires { place < 40 }
    ensures { w.new ≡ with_byte w.old place x }
{
    let k = place / 8;
    let s = 56 - 8 * (place % 8);
    w[k] ^= (x as u64) << s;
}

// Combines the first n bytes of a key into the words from a place on. A key comes in 16 bytes, as a stream holds it (there is no heap), of which the set's length counts.
fn put_key(w: &mut [u64; 5], place: usize, key: [u8; 16], n: usize)
    requires { (place + n ≤ 40) × (n ≤ 16) }
    ensures { w.new ≡ with_bytes w.old place (take n key) }
{
    for (i, x) in key[..n].iter().enumerate() {
        put_byte(w, place + i, *x);
    }
}

// Replaces the byte at a place of the words.
fn replace_byte(w: &mut [u64; 5], place: usize, x: u8)
    requires { place < 40 }
    ensures { w.new ≡ with_byte w.old place (gone_of w.old place x) }
{
    let k = place / 8;
    let s = 56 - 8 * (place % 8);
    w[k] = (w[k] & !(255 << s)) ^ ((x as u64) << s);
}

// Takes a byte into the words, where they lie: combined with the byte at its place, or instead of it.
fn take_byte(way: Way, w: &mut [u64; 5], place: usize, came: u8)
    requires { place < 40 }
    ensures { w.new ≡ with_byte w.old place (feed_of way came (gone_of w.old place came)) }
{
    match way {
        Way::Seal => put_byte(w, place, came),
        Way::Open => replace_byte(w, place, came),
    }
}

// Takes a byte into the words at the place of the next one, runs them where it fills a block, and gives the byte that goes out.
// The words and the place are the loop's own: as a struct with a method, a text of 1 MiB took 7 to 19 % longer.
fn step(block: usize, run: Run, way: Way, w: &mut [u64; 5], place: &mut usize, came: u8) -> u8
    requires { place.old < 40 }
    ensures gone_value { result ≡ gone_of w.old place.old came }
    ensures place_after { at w.new place.new ≡ stepped block run way (at w.old place.old) came }
{
    let gone = byte_at(w, *place) ^ came;
    take_byte(way, w, *place, came);
    *place += 1;
    if *place == block {
        permutation::permute_words(w, run);
        *place = 0;
    }
    gone
}

// The words after a piece that begins `count` bytes into its data or text. Set, words and count are no struct: rows `sponge_*` of `every_call` have them apart.
pub fn absorb(set: u64, way: Way, words: [u64; 5], count: usize, piece: &[u8]) -> [u64; 5]
    ensures { result ≡ absorbed (row_of set) way words count piece.now }
{
    let block = sets::block_length(set);
    let run = sets::between(set);
    let mut w = words;
    let mut place = count % block;
    for came in piece {
        step(block, run, way, &mut w, &mut place, *came);
    }
    w
}

// The words after a piece that begins `count` bytes into its text, with what goes out in `out`; where `out` is too short, nothing is done.
pub fn crypt(
    set: u64,
    way: Way,
    words: [u64; 5],
    count: usize,
    piece: &[u8],
    out: &mut [u8],
) -> [u64; 5]
    ensures { crypted result out.new ≡ crypted_of (row_of set) way words count piece.now out.old }
{
    if out.len() < piece.len() {
        return words;
    }
    let block = sets::block_length(set);
    let run = sets::between(set);
    let mut w = words;
    let mut place = count % block;
    for (i, came) in piece.iter().enumerate() {
        out[i] = step(block, run, way, &mut w, &mut place, *came);
    }
    w
}

// The words after the start with a key and a nonce; of each, only as many bytes count as the set's keys have. In every set key and nonce are the last bytes that are run.
pub fn start(set: u64, key: [u8; 16], nonce: [u8; 16]) -> [u64; 5]
    ensures { result ≡ started (row_of set) key nonce }
{
    let n = sets::key_length(set);
    let mut w = [sets::first_word(set), 0, 0, 0, 0];
    put_key(&mut w, 40 - 2 * n, key, n);
    put_key(&mut w, 40 - n, nonce, n);
    permutation::permute_words(&mut w, Run::Twelve);
    put_key(&mut w, 40 - n, key, n);
    w
}

// The words after the end of `count` bytes of associated data.
pub fn close_ad(set: u64, words: [u64; 5], count: usize) -> [u64; 5]
    ensures { result ≡ ad_closed (row_of set) words count }
{
    let mut w = words;
    if count > 0 {
        put_byte(&mut w, count % sets::block_length(set), 0x80);
        permutation::permute_words(&mut w, sets::between(set));
    }
    put_byte(&mut w, 39, 1);
    w
}

// The last n bytes of the words combined with a key's first n, and zeros behind them; a key as `put_key` takes it.
fn masked_end(w: [u64; 5], key: [u8; 16], n: usize) -> [u8; 16]
    requires { n ≤ 16 }
    ensures { result ≡ masked_end w key n }
{
    let mut tag = [0; 16];
    // By index, which tag, key and words share.
    for i in 0..n {
        tag[i] = byte_at(&w, 40 - n + i) ^ key[i];
    }
    tag
}

// The tag after the end of `count` bytes of text, and zeros behind it.
pub fn finish(set: u64, words: [u64; 5], count: usize, key: [u8; 16]) -> [u8; 16]
    ensures value { result ≡ finished (row_of set) words count key }
    ensures key_len { length (tag_of (row_of set) words count key) ≡ (row_of set).key }
{
    let n = sets::key_length(set);
    let block = sets::block_length(set);
    let mut w = words;
    put_byte(&mut w, count % block, 0x80);
    put_key(&mut w, block, key, n);
    permutation::permute_words(&mut w, Run::Twelve);
    masked_end(w, key, n)
}
