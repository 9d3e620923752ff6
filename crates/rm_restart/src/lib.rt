//! Restart: opening a volume by its master and its log.
//!
//! A restart syncs the five areas, so that what it reads is all that a crash may leave, reads the
//! master, attaches the log, and replays it from its start into pages in memory. It writes nothing.
//! A log with the record of a transaction that did not commit is refused. A sound volume, whose log
//! is in order and has inserts and commits alone, is never found damaged.
#![tactic(auto)]

mod faults;
mod laws;
mod opening;
mod replay;

pub use faults::RestartFault;
pub use laws::{
    a_fresh_volume_is_sound, an_opened_volume_is_sound, an_opened_volume_needs_no_undo,
    one_place_is_damaged, what_is_damaged_is_not_sound, what_is_not_made_is_not_sound,
};
pub use opening::{Opened, Report, restart};
