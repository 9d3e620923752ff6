//! What sessions ask and are told, what turns do, and the lines and turn words of a script.
//!
//! These are values alone: what a turn may do stands above. A [`Name`] is one of 26 by its type.
#![tactic(auto)]

mod events;
mod lines;
mod names;
mod operations;
mod turns;

pub use events::{Actor, BlockId, Event, Seen};
pub use lines::{Line, Script, Target, Word};
pub use names::{Name, Names};
pub use operations::{Finished, Op, Reply};
pub use turns::Turn;
