// A log's bytes and the place in them, kept together, and thin functions over them.
// They are functions and not methods of `Log`, since rows of `every_call` (letter/specs) name them so.
ghost use Rattle.std.specs.Prelude.{◌≡◌, drop};
ghost use Rattle.chip_log.specs.Calls.{reading_of, read_entry};
ghost use Rattle.replay.specs.Cursor.{log_at};
ghost use Rattle.replay.specs.Replays.{stretch_of};

use crate::window;
use crate::window::Stretch;
use chip_log::Entry;
use record::{Read, Unread};
use stream::Stream;

// The bytes of a log, and the place in them where its next entry begins.
#[derive(Clone, Copy)]
pub struct Log<'a> {
    pub bytes: &'a [u8],
    pub place: usize,
}

// A log at its beginning.
pub fn open<'a>(bytes: &'a [u8]) -> Log<'a>
    ensures { result ≡ log_at bytes.entry 0 }
{
    Log { bytes, place: 0 }
}

// The same log at another place.
pub fn moved<'a>(log: Log<'a>, place: usize) -> Log<'a>
    ensures { result ≡ log_at log.entry.bytes place }
{
    Log { place, ..log }
}

// What stands in a log from a place on; nothing, where the place lies past its end. The rules ask for one function on a slice and a number below the struct
// (docs/COVERAGE.md).
pub(crate) fn left(bytes: &[u8], place: usize) -> &[u8]
    ensures { result.now ≡ drop place bytes.now }
{
    bytes.get(place..).unwrap_or(b"")
}

// Reads the entry at the log's place.
pub fn entry<'a>(log: Log<'a>) -> Result<Read<Entry>, Unread>
    ensures { reading_of result ≡ read_entry (drop log.entry.place log.entry.bytes.now) }
{
    chip_log::read(left(log.bytes, log.place))
}

// Replays a log from its place on.
fn stretch<'a>(log: Log<'a>, ended: bool, stream: Stream) -> Stretch
    ensures { result ≡ stretch_of ended stream (drop log.entry.place log.entry.bytes.now) }
{
    window::stretch_at(log.bytes, log.place, ended, stream)
}

// Replays a window of a log from a stream's state on, entry after entry. `ended` says that nothing of the log stands behind the window.
// A function and no method: row `replay_replay_window` of `every_call`.
pub fn replay_window(window: &[u8], ended: bool, stream: Stream) -> Stretch
    ensures { result ≡ stretch_of ended stream window.now }
{
    stretch(open(window), ended, stream)
}
