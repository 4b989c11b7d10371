// The turns of the bench's program: what it does next, and how it ends. What it makes of each answer of the operating system stands in the definitions; there is no code.
#![tactic(auto)]

// How many records were judged equal, how many differ, and how many could not be read; the line and column where the unread one broke, 0 and 0 while there is none.
// No Option: the theorem `WholeReports.counts` and the definition `none` have line and column as numbers.
#[derive(Clone, Copy)]
pub struct Tally {
    pub equal: u64,
    pub differ: u64,
    pub unread: u64,
    pub line: usize,
    pub column: usize,
}

// How a run ended: its last words were said, a read failed, a write of a report or of those words failed, or the next record has no number.
#[derive(Clone, Copy)]
pub enum Ending {
    Said,
    ReadFailed,
    WriteFailed,
    SayFailed,
    TooMany,
}

// What the program does next: it judges what stands in the window, closes the report, reads more of the input, writes what is left of a report, says what is
// left of the last words, or nothing.
#[derive(Clone, Copy)]
pub enum Stage {
    Judge,
    Close,
    Read,
    Write,
    Say,
    Over(Ending),
}
