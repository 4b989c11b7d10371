// Moving the record that a text begins with.
ghost use Rattle.std.specs.Prelude.{◌≡◌, Err};
ghost use Rattle.record.specs.Calls.{writing_of};
ghost use Rattle.entry.specs.Calls.{reading_of};
ghost use Rattle.moving.specs.Moves.{moving_of, move_leaves, refused_move, move_call};

use crate::route::Route;
use entry::Unread;
use record::Unwritten;

// How many bytes of a text were taken, and how many were written.
#[derive(Clone, Copy)]
pub struct Moved {
    pub taken: usize,
    pub written: usize,
}

// Why a record is not moved: the route's set is unknown; the text is wrong, at a line and column; the record's chip would be lost; or there is no room for it.
#[derive(Clone, Copy)]
pub enum Unmoved {
    UnknownSet,
    Broken { line: usize, column: usize },
    ChipLost,
    NoRoom,
}

// A text that is not read.
impl From<Unread> for Unmoved {
    ghost from_gives = { λ unread unmoved. (let reading = reading_of (Err unread) in moving_of (Err unmoved) ≡ refused_move reading.answer reading.line reading.column) };

    #[tactic(auto, unfolding(record::specs::Calls::refused_at))]
    fn from(unread: Unread) -> Unmoved {
        match unread {
            Unread::UnknownSet => Unmoved::UnknownSet,
            Unread::Broken(wrong) => Unmoved::Broken {
                line: wrong.line,
                column: wrong.column,
            },
        }
    }
}

// A record that is not written: it has no column.
impl From<Unwritten> for Unmoved {
    ghost from_gives = { λ unwritten unmoved. (let writing = writing_of (Err unwritten) in moving_of (Err unmoved) ≡ refused_move writing.answer writing.line writing.column) };

    #[tactic(auto, unfolding(record::specs::Calls::refused_with))]
    fn from(unwritten: Unwritten) -> Unmoved {
        match unwritten {
            Unwritten::Broken { line } => Unmoved::Broken { line, column: 0 },
            Unwritten::ChipLost => Unmoved::ChipLost,
            Unwritten::NoRoom => Unmoved::NoRoom,
        }
    }
}

// Moves the record that a text begins with, which has this number in it, and writes it at the beginning of a place.
pub fn move_record(route: Route, number: u64, text: &[u8], out: &mut [u8]) -> Result<Moved, Unmoved>
    ensures { move_leaves (moving_of result) out.new ≡ move_call route number text.now out.old }
{
    let read = route.read(number, text)?;
    let written = route.write(number, read.content, out)?;
    Ok(Moved {
        taken: read.taken,
        written,
    })
}
