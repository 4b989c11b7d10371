// Replaying the log of a chip's calls: each is fed to our own stream, from the ended state, and the first entry that is broken or differs decides.
#![tactic(auto)]

mod cursor;
mod feeding;
mod whole;
mod window;

pub use cursor::{Log, entry, moved, open, replay_window};
pub use whole::{Conclusion, replay};
pub use window::{Stretch, Verdict};
