// The answers of every call, and their numbers.
#![tactic(auto)]

ghost use Rattle.std.specs.Prelude.{◌≡◌};
ghost use Rattle.answers.specs.Numbers.{number_of, is_done};

// What a call answers, in the order of the numbers 0 to 11.
#[derive(Clone, Copy, PartialEq, Eq)]
pub enum Answer {
    Done,
    UnknownSet,
    KeyLength,
    NonceLength,
    TagLength,
    PastLimit,
    NoRoom,
    OutOfPhase,
    BrokenState,
    TagDiffers,
    BrokenRecord,
    ChipLost,
}

// The number of an answer. The numbers stand here, as the rules list them, and not as the enum's own: the edit `limit_is_six` turns one.
pub fn number(answer: Answer) -> u64
    ensures { result ≡ number_of answer }
{
    match answer {
        Answer::Done => 0,
        Answer::UnknownSet => 1,
        Answer::KeyLength => 2,
        Answer::NonceLength => 3,
        Answer::TagLength => 4,
        Answer::PastLimit => 5,
        Answer::NoRoom => 6,
        Answer::OutOfPhase => 7,
        Answer::BrokenState => 8,
        Answer::TagDiffers => 9,
        Answer::BrokenRecord => 10,
        Answer::ChipLost => 11,
    }
}

// Whether the call is done.
pub fn is_done(answer: Answer) -> bool
    ensures { result ≡ is_done answer }
{
    answer == Answer::Done
}
