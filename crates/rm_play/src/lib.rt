//! The machine of many sessions as a function: the move that a session makes for an operation, and the run of a script.
//!
//! Where rm_core says which moves may be made, this says which one is, as a function of its one free choice; so runs
//! evaluate, and proofs/ExampleRuns.antt has those of worked scripts with what they print. The crate has no code. A
//! law's function has no body; it ensures something of the definitions alone.
#![tactic(auto)]

mod laws;

pub use laws::{
    a_chosen_move_may_be_made, every_session_has_a_move, every_turn_can_be_made, moves_are_one,
    operations_end, scripts_run, turns_come_nearer,
};
