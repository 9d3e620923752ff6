//! One session on a volume: it does a line at a time, logs what the line changes, and answers a commit
//! once it is durable.
#![tactic(auto)]

mod engine;
mod faults;
mod logging;
mod room;

pub use engine::Engine;
pub use faults::TurnFault;
pub use room::{CHANGE_COST, COMMIT_SIZE, INSERT_SIZE, OWED};
