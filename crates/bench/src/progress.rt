// How far the program is, and what each thing that happens makes of it: a step on the window, the answer to a read, the answer to a write.
ghost use Rattle.std.specs.Prelude.{◌≡◌, ◌+◌, ◌≤◌, ◌<◌};
ghost use Rattle.turns.specs.Tallies.{records_of, largest};
ghost use Rattle.turns.specs.Run.{behind, failed};
ghost use Rattle.bench.specs.Progress.{sink_of, heard_of, failing, reporting, stepped, read_more, wrote_more, Takes, moved_by};

use crate::system::Sink;
use crate::tally;
use judge::Step;
use report::Verdict;
use turns::{Ending, Stage, Tally};

// The number of the error by which a call says that a signal came before it moved any byte. A number, since `RuledOut.signal` (specs/Wrong.antt) tells errors by it.
const EINTR: i32 = 4;

// Why a read or a write moved no byte: a signal came before it moved any, or it failed.
#[derive(Clone, Copy)]
pub enum Unmoved {
    Again,
    Failed,
}

// How far the program is. The window is the buffer from `start` to `filled`; `ended` says that it is all that is left of the input. What is left to write is the
// text from `from` to `size`. Places and no slices, since the laws `looks`, `answered_read` and `answered_write` go by them.
#[derive(Clone, Copy)]
pub struct Progress {
    pub start: usize,
    pub filled: usize,
    pub ended: bool,
    pub tally: Tally,
    pub from: usize,
    pub size: usize,
    pub stage: Stage,
}

// Where a stage writes: the last words to standard error, all else to standard output.
pub(crate) fn sink_of(stage: Stage) -> Sink
    ensures { result ≡ sink_of stage }
{
    match stage {
        Stage::Say => Sink::Messages,
        _ => Sink::Output,
    }
}

// What the raw answer of a call says: how many bytes it moved, or, by the number of its error, why it moved none.
pub(crate) fn hear(answer: Result<usize, i32>) -> Result<usize, Unmoved>
    ensures { result ≡ heard_of answer }
{
    match answer {
        Ok(count) => Ok(count),
        Err(EINTR) => Err(Unmoved::Again),
        Err(_) => Err(Unmoved::Failed),
    }
}

// What is next after all of a text is written.
fn after(stage: Stage) -> Stage
    ensures { result ≡ behind stage }
{
    match stage {
        Stage::Write => Stage::Judge,
        Stage::Say => Stage::Over(Ending::Said),
        _ => stage,
    }
}

// What is next after the call of a stage failed.
fn after_failure(stage: Stage) -> Stage
    ensures { result ≡ failed stage }
{
    match stage {
        Stage::Read => Stage::Over(Ending::ReadFailed),
        Stage::Write => Stage::Over(Ending::WriteFailed),
        Stage::Say => Stage::Over(Ending::SayFailed),
        _ => stage,
    }
}

// The progress after the call of its stage failed.
fn fail(p: Progress) -> Progress
    ensures { result ≡ failing p }
{
    Progress {
        stage: after_failure(p.stage),
        ..p
    }
}

// The progress behind a record with its verdict, that took so many bytes of the window and has a report of so many bytes.
fn count_record(p: Progress, verdict: Verdict, taken: usize, written: usize) -> Progress
    requires taken_bound { p.start + taken ≤ p.filled }
    requires tally_bound { records_of p.tally < largest }
    ensures { result ≡ reporting p verdict taken written }
{
    Progress {
        start: p.start + taken,
        tally: tally::counted(p.tally, verdict),
        from: 0,
        size: written,
        stage: Stage::Write,
        ..p
    }
}

// What a step on the window makes of the progress.
pub(crate) fn after_step(p: Progress, step: Step) -> Progress
    requires { Takes p step }
    ensures { result ≡ stepped p step }
{
    match step {
        Step::Judged {
            verdict,
            taken,
            written,
        } => count_record(p, verdict, taken, written),
        Step::Stopped {
            line,
            column,
            written,
        } => count_record(p, Verdict::Unread { line, column }, 0, written),
        Step::Wait => Progress {
            stage: Stage::Read,
            ..p
        },
        Step::End => Progress {
            stage: Stage::Close,
            ..p
        },
        // It never comes: the text has room for every report.
        Step::Short => Progress {
            stage: Stage::Over(Ending::TooMany),
            ..p
        },
    }
}

// What the answer to a read makes of the progress: bytes join the window, and none is the end of the input; a signal changes nothing; a failure is no end.
pub(crate) fn after_read(p: Progress, heard: Result<usize, Unmoved>) -> Progress
    requires { p.filled + moved_by heard ≤ 18446744073709551615 }
    ensures { result ≡ read_more p heard }
{
    match heard {
        Ok(count) => Progress {
            filled: p.filled + count,
            ended: count == 0,
            stage: Stage::Judge,
            ..p
        },
        Err(Unmoved::Again) => p,
        Err(Unmoved::Failed) => fail(p),
    }
}

// What the answer to a write makes of the progress: a write that took no byte counts as failed.
#[tactic(auto, unfolding(crate::specs::Progress::wrote))]
pub(crate) fn after_write(p: Progress, heard: Result<usize, Unmoved>) -> Progress
    requires { p.from + moved_by heard ≤ p.size }
    ensures { result ≡ wrote_more p heard }
{
    match heard {
        Ok(0) | Err(Unmoved::Failed) => fail(p),
        Ok(count) => {
            let from = p.from + count;
            let stage = if from == p.size {
                after(p.stage)
            } else {
                p.stage
            };
            Progress { from, stage, ..p }
        }
        Err(Unmoved::Again) => p,
    }
}
