// One step of the program: from a window of the input to a report.
ghost use Rattle.std.specs.Prelude.{◌≡◌, length};
ghost use Rattle.record.specs.Calls.{reading_of};
ghost use Rattle.judge.specs.Steps.{verdict_read, step_leaves, report_choices, step_by, step_call};

use crate::verdict;
use record::{Read, Record, Unread};
use report::Verdict;

// What a step does.
#[derive(Clone, Copy)]
pub enum Step {
    // A record was judged: its verdict, how many bytes of the window it took, and how many its report has.
    Judged {
        verdict: Verdict,
        taken: usize,
        written: usize,
    },
    // What stands in the window can't be read: its first broken line, the column at which that is wrong, and how many bytes its report has, which is the last.
    Stopped {
        line: usize,
        column: usize,
        written: usize,
    },
    // More of the input is wanted.
    Wait,
    // The input ended where a record would start.
    End,
    // The place has no room for the report.
    Short,
}

// The verdict on what was read.
#[tactic(auto, unfolding(crate::specs::Steps::verdict_read, record::specs::Calls::read_as, record::specs::Calls::refused_at))]
fn verdict_on(reading: Result<Read<Record>, Unread>) -> Verdict
    ensures { result ≡ verdict_read (reading_of reading) }
{
    match reading {
        Ok(read) => verdict::judge(read.content),
        Err(Unread { line, column, .. }) => Verdict::Unread { line, column },
    }
}

// Whether a text only ended too early, so that more of it can make a record.
#[tactic(auto, unfolding(record::specs::Calls::read_as, record::specs::Calls::refused_at))]
fn is_early(reading: Result<Read<Record>, Unread>) -> bool
    ensures { result ≡ (reading_of reading).early }
{
    reading.is_err_and(|unread| unread.early)
}

// The report on what was read.
#[tactic(auto, using(crate::proofs::Made::by_report), unfolding(record::specs::Calls::read_as, record::specs::Calls::refused_at))]
fn report_on(reading: Result<Read<Record>, Unread>, number: u64, out: &mut [u8]) -> Step
    ensures { step_leaves result out.new ≡ step_by (reading_of reading) number out.old (report_choices (reading_of reading) number (length out.old)) }
{
    let verdict = verdict_on(reading);
    let Ok(written) = report::report(number, verdict, out) else {
        return Step::Short;
    };
    match reading {
        Ok(Read { taken, .. }) => Step::Judged {
            verdict,
            taken,
            written,
        },
        Err(Unread { line, column, .. }) => Step::Stopped {
            line,
            column,
            written,
        },
    }
}

// Judges the record that a window of the input begins with, where the window tells enough, and puts the report at the beginning of a place. `ended` says that the
// window is all that is left of the input.
#[tactic(auto, unfolding(crate::specs::Steps::step_call, crate::specs::Steps::step_by))]
pub fn judge_window(window: &[u8], ended: bool, number: u64, out: &mut [u8]) -> Step
    ensures { step_leaves result out.new ≡ step_call window.now ended number out.old }
{
    if window.is_empty() {
        return if ended { Step::End } else { Step::Wait };
    }
    let reading = record::read_any(window);
    if is_early(reading) && !ended {
        return Step::Wait;
    }
    report_on(reading, number, out)
}
