// Moving all records of a text: they are all looked at before the first is written.
ghost use Rattle.std.specs.Prelude.{◌≡◌, ◌≤◌, true, ◌++◌, Err, length, drop};
ghost use Rattle.moving.specs.Moves.{moving_all_of, of_record, summary, moved_all, text_in, is_whole, all_leaves, move_all_call};

use crate::one;
use crate::one::Unmoved;
use crate::route::Route;
use answers::Answer;

// How many records of a text were moved, and how many bytes were written.
#[derive(Clone, Copy)]
pub struct MovedAll {
    pub records: u64,
    pub written: usize,
}

// Why the records of a text are not moved: the route's set is unknown; the record of this number is wrong, at a line and column; its chip would be lost; or there is
// not room for all.
#[derive(Clone, Copy)]
pub enum UnmovedAll {
    UnknownSet,
    Broken {
        record: u64,
        line: usize,
        column: usize,
    },
    ChipLost {
        record: u64,
    },
    NoRoom,
}

// The answer that stands for a refusal.
impl From<UnmovedAll> for Answer {
    ghost from_gives = { λ refused answer. answer ≡ (moving_all_of (Err refused)).answer };

    #[tactic(auto, unfolding(crate::specs::Moves::refused_all))]
    fn from(refused: UnmovedAll) -> Answer {
        match refused {
            UnmovedAll::UnknownSet => Answer::UnknownSet,
            UnmovedAll::Broken { .. } => Answer::BrokenRecord,
            UnmovedAll::ChipLost { .. } => Answer::ChipLost,
            UnmovedAll::NoRoom => Answer::NoRoom,
        }
    }
}

// Why the records of a text are not moved, where the record of this number is the first that is refused.
fn of_record(record: u64, refused: Unmoved) -> UnmovedAll
    ensures { result ≡ of_record «record» refused }
{
    match refused {
        Unmoved::UnknownSet => UnmovedAll::UnknownSet,
        Unmoved::Broken { line, column } => UnmovedAll::Broken {
            record,
            line,
            column,
        },
        Unmoved::ChipLost => UnmovedAll::ChipLost { record },
        Unmoved::NoRoom => UnmovedAll::NoRoom,
    }
}

// What moving all records of a text comes to, and how many bytes they then have.
#[tactic(auto, unfolding(crate::specs::Moves::moved_all))]
fn measure(route: Route, text: &[u8]) -> Result<MovedAll, UnmovedAll>
    ensures { moving_all_of result ≡ summary (moved_all route text.now) }
{
    if !route.is_known() {
        return Err(UnmovedAll::UnknownSet);
    }
    // No heap: what is written is measured in a place that any record fits.
    let mut scratch = [0; 1706];
    let mut rest = text;
    let mut records = 0;
    let mut written = 0;
    // A turn takes as many bytes as its record has. An iterator would be no plainer: it would have to carry `rest`, and to hand each refusal out as an item.
    while !rest.is_empty() {
        records += 1;
        match one::move_record(route, records, rest, &mut scratch) {
            Ok(moved) => {
                written += moved.written;
                rest = &rest[moved.taken..];
            }
            Err(refused) => return Err(of_record(records, refused)),
        }
    }
    Ok(MovedAll { records, written })
}

// Writes all records of a text, which can be moved and have room, one straight after another.
fn put_all(route: Route, text: &[u8], out: &mut [u8])
    requires text_value { is_whole (moved_all route text.now) ≡ true }
    requires text_in_bounds { length (text_in (moved_all route text.now)) ≤ length out.old }
    ensures { out.new ≡ text_in (moved_all route text.now) ++ drop (length (text_in (moved_all route text.now))) out.old }
{
    let mut rest = text;
    let mut end = 0;
    let mut number = 0;
    // Turns as in `measure`.
    while !rest.is_empty() {
        number += 1;
        let moved = one::move_record(route, number, rest, &mut out[end..]).unwrap();
        rest = &rest[moved.taken..];
        end += moved.written;
    }
}

// Moves all records of a text, and writes them at the beginning of a place; where one is refused, or there is no room for all, nothing is written.
#[tactic(auto, using(crate::proofs::Places::all_put), unfolding(crate::specs::Moves::move_all_call))]
pub fn move_all(route: Route, text: &[u8], out: &mut [u8]) -> Result<MovedAll, UnmovedAll>
    ensures { all_leaves (moving_all_of result) out.new ≡ move_all_call route text.now out.old }
{
    let moved = measure(route, text)?;
    if out.len() < moved.written {
        return Err(UnmovedAll::NoRoom);
    }
    put_all(route, text, out);
    Ok(moved)
}
