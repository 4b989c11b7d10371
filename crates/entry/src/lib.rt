// The entries of published test files: a record as seven lines, its reader and its writer. Both take anything. The reader names the line and column at which a text is
// wrong, the writer the record's first line that breaks its rule.
#![tactic(auto)]

mod form;
mod reading;
mod writing;

pub use reading::{Unread, read};
pub use writing::write;
