// An answer and its rounds in one word.
ghost use Rattle.std.specs.Prelude.{◌≡◌, ◌≤◌};
ghost use Rattle.gateway.specs.Word.{one_word};

use answers::Answer;

// The word of an answer and its rounds, of which no call reports more than 8 × (65,536 + 1,048,577) + 24.
pub(crate) fn word(answer: Answer, rounds: u64) -> u64
    requires { rounds ≤ 8912928 }
    ensures { result ≡ one_word answer rounds }
{
    16 * rounds + answers::number(answer)
}
