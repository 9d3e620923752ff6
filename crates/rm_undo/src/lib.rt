//! Undo of one change: its page's entry in the inventory first, where that will not be right, and then the compensation.
//!
//! A rollback and a restart undo by these two calls. Each asks of the log which change is to be undone, and says what it
//! wrote; that the undo always fits its page is a law of legal logs.
#![tactic(auto)]

mod changes;
mod undoing;

pub use changes::{Pending, change_at};
pub use undoing::{Undone, undo_change, undo_settle};
