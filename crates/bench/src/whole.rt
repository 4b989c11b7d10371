// All of the input read into a place, and all of a text written, call by call.
ghost use Rattle.std.specs.Prelude.{◌≡◌, ◌+◌, ◌≤◌, length};
ghost use Rattle.bench.specs.Progress.{moved_by};
ghost use Rattle.bench.specs.Whole.{read_by, wrote_by, ReadAll, WroteAll};

use crate::progress::Unmoved;
use crate::system::{Sink, System};

// Why not all of the input was read: it fills the place, which is too many; a read failed; or the turns were used up.
#[derive(Clone, Copy)]
pub enum Unread {
    TooLong,
    Failed,
    Endless,
}

// Why not all of a text was written: a write failed; or the turns were used up.
#[derive(Clone, Copy)]
pub enum Unwritten {
    Failed,
    Endless,
}

// What the answer to a read makes of the bytes read so far: how many there are then, where more may come; none more is the end of the input; a signal changes nothing; a
// failure is no end.
pub(crate) fn after_read(
    filled: usize,
    heard: Result<usize, Unmoved>,
) -> Result<Option<usize>, Unread>
    requires { filled + moved_by heard ≤ 18446744073709551615 }
    ensures { result ≡ read_by filled heard }
{
    match heard {
        Ok(0) => Ok(None),
        Ok(count) => Ok(Some(filled + count)),
        Err(Unmoved::Again) => Ok(Some(filled)),
        Err(Unmoved::Failed) => Err(Unread::Failed),
    }
}

// Reads all of standard input into a place, and gives how many bytes it is. Input that fills it is too long: the end is seen only where there is room for another byte.
pub(crate) fn read_all(system: &mut System, place: &mut [u8]) -> Result<usize, Unread>
    ensures { ReadAll place.old result place.new }
{
    let mut filled = 0;
    for _ in 0..u64::MAX {
        if filled == place.len() {
            return Err(Unread::TooLong);
        }
        let heard = system.read(&mut place[filled..]);
        match after_read(filled, heard)? {
            Some(more) => filled = more,
            None => return Ok(filled),
        }
    }
    Err(Unread::Endless)
}

// What the answer to a write makes of the bytes taken so far: a write that took no byte counts as failed.
pub(crate) fn after_write(from: usize, heard: Result<usize, Unmoved>) -> Result<usize, Unwritten>
    requires { from + moved_by heard ≤ 18446744073709551615 }
    ensures { result ≡ wrote_by from heard }
{
    match heard {
        Ok(0) | Err(Unmoved::Failed) => Err(Unwritten::Failed),
        Ok(count) => Ok(from + count),
        Err(Unmoved::Again) => Ok(from),
    }
}

// Writes all of a text.
pub(crate) fn write_all(system: &mut System, to: Sink, text: &[u8]) -> Result<(), Unwritten>
    ensures { WroteAll (length text.now) result }
{
    let mut from = 0;
    for _ in 0..u64::MAX {
        if from == text.len() {
            return Ok(());
        }
        from = after_write(from, system.write(to, &text[from..]))?;
    }
    Err(Unwritten::Endless)
}

// Writes a text to standard output, and then words to standard error.
fn write_both(system: &mut System, text: &[u8], words: &[u8]) -> Result<(), Unwritten> {
    write_all(system, Sink::Output, text)?;
    write_all(system, Sink::Messages, words)
}

// Writes a text to standard output, and then says with these words how that came about; or says that writing failed.
pub(crate) fn hand_out(system: &mut System, text: &[u8], words: &[u8]) {
    if write_both(system, text, words).is_err() {
        system.fail(b"bench: writing failed");
    }
}
