//! The turns of a session's operations, stage by stage: each is a move of the machine (docs/DEFINITIONS.md).
//!
//! [`Tables`] is what turns read and change. Which move a session makes is a function of these (rm_play); a turn looks at
//! what that function looks at, and makes the one change that the move leaves. The log has a record before its page has
//! it, and room is asked for before either.
#![tactic(auto)]

mod asking;
mod changing;
mod ending;
mod inserting;
mod latching;
mod laws;
mod locking;
mod stages;
mod stepper;
mod tables;
mod turns;
mod undoing;

pub use laws::a_turn_goes_on_with_a_run;
pub use stages::{Aim, Asked, LastChange, Made, Place, Stage};
pub use stepper::Stepper;
pub use tables::Tables;
pub use turns::turn;
