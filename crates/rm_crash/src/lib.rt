//! What a crash leaves of a run (docs/DEFINITIONS.md): the machine (rm_core), its log on a volume (rm_pool) and restart's
//! undo (rm_history), put together.
//!
//! Each image that a run or a restart may leave, at any moment, is sound, and its rows are those of the first
//! transactions in the order of their commits. So restart opens it, leaves just these rows, and the machine goes on.
//! The crate has no code. A law's function has no body; it ensures something of the definitions alone.
#![tactic(auto)]

mod laws;

pub use laws::{
    a_new_volume_is_found, a_restart_recovers, a_restarted_log_opens,
    acknowledged_transactions_stay, crash_images_are_found, restart_images_are_found,
    scripts_make_no_checkpoint, what_is_found_is_of_its_log, what_is_found_is_read,
};
