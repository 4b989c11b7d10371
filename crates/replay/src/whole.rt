// A whole log.
ghost use Rattle.std.specs.Prelude.{◌≡◌};
ghost use Rattle.replay.specs.Replays.{replay_of};

use crate::cursor;
use crate::window::Verdict;
use stream::Stream;

// What is told of a log: its verdict, and the entry that decides, counted from 1; where all agree, how many there are.
// Number and verdict stay side by side, as the theorems `Replays.agrees` and `.first` have them.
#[derive(Clone, Copy)]
pub struct Conclusion {
    pub entry: u64,
    pub verdict: Verdict,
}

// Replays a whole log from the ended state.
pub fn replay(log: &[u8]) -> Conclusion
    ensures { result ≡ replay_of log.now }
{
    let stretch = cursor::replay_window(log, true, Stream::ended());
    let agreed = stretch.entries as u64;
    Conclusion {
        entry: if stretch.verdict.is_agreed() {
            agreed
        } else {
            agreed + 1
        },
        verdict: stretch.verdict,
    }
}
