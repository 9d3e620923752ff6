//! What stands between an engine and its volume. A [`Journal`] is a volume and the log on it, owned together: what was
//! logged since the opening, how much of that is durable, and that each image which a crash might have left since then
//! has a log that begins it. [`Frames`] are the pages and the inventory of a file in memory, each as the log means it.
//! A [`Store`] has both: what is written to it is logged and applied.
#![tactic(auto)]

mod frames;
mod journal;
mod store;

pub use frames::Frames;
pub use journal::Journal;
pub use store::Store;
