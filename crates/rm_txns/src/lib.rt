//! The transaction table: the next id, and for each session the transaction that it has, if it has one.
//!
//! A transaction has its undo place (the LSN of its last pending record), its savepoints, and what it owes the log: the
//! bytes that its rollback may need. Its invariant: ids are below the next one, no two sessions' transactions have one
//! id, and the bytes that are owed in all are kept as a running total.
#![tactic(auto)]

mod losers;
mod savepoints;
mod table;
mod transaction;

pub use table::{BeginRefused, Txns};
pub use transaction::OWED;
