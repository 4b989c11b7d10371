// The C boundary of `timing`: each export calls the function of its name there, and states its clauses again.
#![tactic(auto)]

ghost use Rattle.std.specs.Prelude.{◌≡◌};
ghost use Rattle.timing.specs.Call.{called, permute_call, read_digits};

// Runs twelve, or v1's eight or six rounds, on the words and gives their number; any other number of rounds gives 0 and leaves the words.
#[unsafe(no_mangle)]
pub extern "C" fn kvistmaur_permute(rounds: u64, words: &mut [u64; 5]) -> u64
    ensures { called result words.new ≡ permute_call rounds words.old }
{
    timing::kvistmaur_permute(rounds, words)
}

// Puts the values of the digits at the front of a text in their places, up to the first character that is no digit, and gives how many they are.
#[unsafe(no_mangle)]
pub extern "C" fn kvistmaur_read_digits(text: &mut [u8]) -> u64
    ensures { called result text.new ≡ read_digits text.old }
{
    timing::kvistmaur_read_digits(text)
}
