// Bench records in their two forms: the record, its reader and its writer. Both take anything. The reader names the line and column at which a text is wrong, the
// writer the first line that breaks its rule.
#![tactic(auto)]

mod field;
mod form;
mod kept;
mod part;
mod reading;
mod writing;

pub use field::{Field, read_field};
pub use form::{Form, Record, first_broken};
pub use lines::{Read, Unread};
pub use reading::{read, read_any};
pub use writing::{Unwritten, write};
