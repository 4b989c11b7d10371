// The parameter sets: the one table of their numbers, the limits of data and text, the rounds of a message, and the first tests of a start.
#![tactic(auto)]

ghost use Rattle.std.specs.Prelude.{◌≡◌, ◌≤◌, ◌<◌, length, get_or};
ghost use Rattle.permutation.specs.Runs.{rounds_of};
ghost use Rattle.permutation.specs.Strings.{value_of};
ghost use Rattle.ascon.specs.Sets.{ascon128, table, is_set, row_of};
ghost use Rattle.ascon.specs.Rounds.{ad_blocks, message_rounds};
ghost use Rattle.sets.specs.Rows.{in_code};
ghost use Rattle.sets.specs.Start.{start_test};

use answers::Answer;
use permutation::Run;

// The longest associated data.
pub const AD_LIMIT: usize = 65536;

// The longest text.
pub const TEXT_LIMIT: usize = 1048576;

// A row of the table: the length of key, nonce and tag, that of a block, the run between blocks and its rounds, and the first word of a start.
#[derive(Clone, Copy)]
pub struct Row {
    key: usize,
    block: usize,
    between: Run,
    rounds: u64,
    word: u64,
}

// How many sets there are.
pub const ROWS: usize = 4;

// The rows of the definition's table, set 1 first.
const TABLE: [Row; ROWS] = [
    Row {
        key: 16,
        block: 8,
        between: Run::FirstSix,
        rounds: 6,
        word: 0x800c060000000000,
    },
    Row {
        key: 12,
        block: 16,
        between: Run::FirstEight,
        rounds: 8,
        word: 0x600c080000000000,
    },
    Row {
        key: 16,
        block: 8,
        between: Run::LastSix,
        rounds: 6,
        word: 0x80400c0600000000,
    },
    Row {
        key: 16,
        block: 16,
        between: Run::LastEight,
        rounds: 8,
        word: 0x80800c0800000000,
    },
];

// Whether a number names a set.
pub fn is_set(set: u64) -> bool
    ensures { result ≡ is_set set }
{
    (1..=ROWS as u64).contains(&set)
}

// Where a set's row stands; an unknown set has the first.
// No Option: the definition `row_of` (ascon/specs/Sets.antt) gives an unknown set this row too.
#[tactic(auto, using(crate::proofs::Rows::known_set, crate::proofs::Rows::unknown_set), unfolding(ascon::specs::Sets::table, ascon::specs::Sets::row_of))]
fn index_of(set: u64) -> usize
    ensures ascon128_value { get_or table result ascon128 ≡ row_of set }
    ensures upper_bound { result < length table }
{
    if is_set(set) { (set - 1) as usize } else { 0 }
}

// The row of a set.
fn row_of(set: u64) -> Row
    ensures { result ≡ in_code (row_of set) }
{
    TABLE[index_of(set)]
}

// The length of key, nonce and tag.
pub fn key_length(set: u64) -> usize
    ensures { result ≡ (row_of set).key }
{
    row_of(set).key
}

// The length of a block.
pub fn block_length(set: u64) -> usize
    ensures { result ≡ (row_of set).block }
{
    row_of(set).block
}

// The run between blocks.
pub fn between(set: u64) -> Run
    ensures { result ≡ (row_of set).between }
{
    row_of(set).between
}

// The rounds of the run between blocks.
pub fn rounds_between(set: u64) -> u64
    ensures { result ≡ rounds_of (row_of set).between }
{
    row_of(set).rounds
}

// The first word of a start.
pub fn first_word(set: u64) -> u64
    ensures { result ≡ value_of (row_of set).word }
{
    row_of(set).word
}

// The padded blocks of associated data.
#[tactic(auto, using(crate::proofs::Rows::row_sizes), unfolding(ascon::specs::Rounds::ad_blocks))]
fn ad_blocks(set: u64, ad: u32) -> u64
    ensures value { result ≡ ad_blocks (row_of set).block ad }
    ensures upper_bound { result ≤ 4294967296 }
{
    if ad == 0 {
        0
    } else {
        (ad as u64) / (block_length(set) as u64) + 1
    }
}

// The rounds of a message, by the lengths of its data and of its text.
pub fn message_rounds(set: u64, ad: u32, text: u32) -> u64
    ensures { result ≡ message_rounds (row_of set) ad text }
{
    let blocks = ad_blocks(set, ad) + (text as u64) / (block_length(set) as u64);
    24 + rounds_between(set) * blocks
}

// The first tests of a start: set, key length, nonce length.
// An Answer and no Result: row `sets_start_test` of `every_call` has it so, with `Done` where no test refuses. Each of its two callers makes a Result
// of it in three lines; a function for both would be public, with a row and an edit of its own.
#[tactic(auto, unfolding(crate::specs::Start::start_test))]
pub fn start_test(set: u64, key: usize, nonce: usize) -> Answer
    ensures { result ≡ start_test set key nonce }
{
    if !is_set(set) {
        Answer::UnknownSet
    } else if key != key_length(set) {
        Answer::KeyLength
    } else if nonce != key_length(set) {
        Answer::NonceLength
    } else {
        Answer::Done
    }
}
