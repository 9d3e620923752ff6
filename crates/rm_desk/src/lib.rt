//! The sessions' part of the machine, on tables (docs/DEFINITIONS.md).
//!
//! [`Desk`] has the row locks, the transactions, the needs of their undo, their pending changes, and the stage and the
//! operation of each session. Its value is the machine's setting and state and the operations, and what its tables have
//! room for: each call is a look at these, or leaves what a turn of the machine leaves.
//!
//! The invariant is that the tables stand for that value. The history and the lists are noted for clauses alone. What
//! takes memory comes before a record is logged, so that no change of a table after it fails.
#![tactic(auto)]

mod barring;
mod desk;
mod grants;
mod logging;
mod moves;
mod room;
mod stacks;

pub use desk::Desk;
pub use stacks::PendingChange;
