// The permutation, and the reading of digits, as the host's timing program calls them; `timing_c` exports both to C.
#![tactic(auto)]

ghost use Rattle.std.specs.Prelude.{◌≡◌};
ghost use Rattle.timing.specs.Call.{called, permute_call, read_digits};

use permutation::Run;

// Runs twelve, or v1's eight or six rounds, on the words and gives their number; any other number of rounds gives 0 and leaves the words.
// The answer is a number, 0 for a refusal, since C reads it by `kvistmaur_permute`.
#[tactic(auto, unfolding(crate::specs::Call::permute_call, permutation::specs::Runs::rounds_of, permutation::specs::Runs::constants_of, permutation::specs::Runs::constants))]
pub fn kvistmaur_permute(rounds: u64, words: &mut [u64; 5]) -> u64
    ensures { called result words.new ≡ permute_call rounds words.old }
{
    match rounds {
        12 => permutation::permute_words(words, Run::Twelve),
        8 => permutation::permute_words(words, Run::FirstEight),
        6 => permutation::permute_words(words, Run::FirstSix),
        _ => return 0,
    }
    rounds
}

// Puts the values of the digits at the front of a text in their places, up to the first character that is no digit, and gives how many they are.
// By index, since the place at which it stops is what it gives.
pub fn kvistmaur_read_digits(text: &mut [u8]) -> u64
    ensures { called result text.new ≡ read_digits text.old }
{
    for i in 0..text.len() {
        let Some(value) = digits::read_digit(text[i]) else {
            return i as u64;
        };
        text[i] = value;
    }
    text.len() as u64
}
