// Judging bench records: the first difference of two texts, the verdict on a record, and the program's step from a window of its input to a report.
#![tactic(auto)]

mod difference;
mod stepping;
mod verdict;

pub use difference::{Comparison, compare, difference_tail, fields_differ, first_difference};
pub use stepping::{Step, judge_window};
pub use verdict::judge;
