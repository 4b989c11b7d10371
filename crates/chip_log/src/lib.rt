// The log of a chip's calls on a stream: five lines for each call, and their reader. It takes anything, and names the line and column at which a text is wrong.
#![tactic(auto)]

mod form;
mod reading;

pub use form::{Call, Entry};
pub use reading::read;
