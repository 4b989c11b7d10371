// Moving bench records from one kind of text to another: form 1, form 2, the entries of a published test file. The record that a text begins with, or all records of a
// text.
#![tactic(auto)]

mod all;
mod one;
mod route;

pub use all::{MovedAll, UnmovedAll, move_all};
pub use one::{Moved, Unmoved, move_record};
pub use route::Route;
