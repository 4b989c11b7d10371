// Writing a record in a form: line by line, each straight after the one before.
ghost use Rattle.std.specs.Prelude.{◌≡◌, length};
ghost use Rattle.record.specs.Form.{broken};
ghost use Rattle.record.specs.Text.{text_of};
ghost use Rattle.record.specs.Calls.{writing_of, write_leaves, write_call};

use crate::form;
use crate::form::{Form, Record};
use crate::kept::Kept;

// Why a record is not written: its first broken line, a chip that would be lost, or a place too short.
#[derive(Clone, Copy)]
pub enum Unwritten {
    Broken { line: usize },
    ChipLost,
    NoRoom,
}

// How many bytes the text of a record in form has.
fn text_length(form: Form, entry: &Record) -> usize
    requires { broken form entry.now ≡ 0 }
    ensures { result ≡ length (text_of form entry.now) }
{
    let mut size = 0;
    for line in 1..=form.lines() {
        let kept = Kept {
            part: form.part_at(line),
            entry,
        };
        size += kept.line_length();
    }
    size
}

// Writes a record in a form at the beginning of a place; one out of form, a chip that the form has no line for, or a place too short is refused.
pub fn write(form: Form, entry: Record, out: &mut [u8]) -> Result<usize, Unwritten>
    ensures { write_leaves (writing_of result) out.new ≡ write_call form entry out.old }
{
    if let Some(line) = form::first_broken(form, entry) {
        return Err(Unwritten::Broken { line });
    }
    if form.loses_chip(&entry) {
        return Err(Unwritten::ChipLost);
    }
    if out.len() < text_length(form, &entry) {
        return Err(Unwritten::NoRoom);
    }
    let mut at = 0;
    for line in 1..=form.lines() {
        let kept = Kept {
            part: form.part_at(line),
            entry: &entry,
        };
        at += kept.put_line(&mut out[at..]);
    }
    Ok(at)
}
