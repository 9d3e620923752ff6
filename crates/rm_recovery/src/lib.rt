//! Restart: opening a volume by its master and its log.
//!
//! A restart syncs the five areas, so that what it reads is all that a crash may leave, reads the
//! master, attaches the log, and repeats its records from the first into pages in memory. Then it
//! undoes what is pending, the newest change first, ends each transaction that is not finished, and
//! makes that durable. A sound volume is never found damaged.
#![tactic(auto)]

mod faults;
mod laws;
mod losers;
mod opening;
mod redo;
mod restarting;
mod undo;

pub use faults::RestartFault;
pub use laws::{
    what_is_damaged_is_not_sound, what_is_not_made_is_not_sound, what_is_restarted_is_fit,
};
pub use restarting::{Opened, Refused, Report, restart};
