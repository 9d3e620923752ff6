//! The machine of many sessions: a state, moves, and what holds of all runs (docs/DEFINITIONS.md).
//!
//! A session makes an operation stage by stage; a turn is one stage of one session, and at most one record of the log.
//! Row locks are held to the end of a transaction, latches within an operation. What an unfinished transaction may
//! need for its undo stays free in its pages and in the log. An engine that makes one move of the machine in each of
//! its turns has all laws of it.
//!
//! The crate has no code. A law's function has no body; it ensures something of the definitions alone.
#![tactic(auto)]

mod laws;

pub use laws::{
    acknowledged_is_durable, moves_run, no_space_is_exact, reads_are_exact, room_is_kept,
    runs_are_kept, runs_are_serial, traces_tell_logs, undo_has_space,
};
