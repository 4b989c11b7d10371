// Lines: a fixed name, a value of one of few kinds, a line feed. One reader of them all: it takes anything, and names the first column with which no right line goes on;
// and one of lines in a row, by a table.
#![tactic(auto)]

mod kinds;
mod step;
mod table;
mod walk;

pub use kinds::{Kind, Name, Value, named, value_in};
pub use step::{State, advance};
pub use table::{Read, Table, Unread, read_table};
pub use walk::{Line, Stopped, begun, either, read};
