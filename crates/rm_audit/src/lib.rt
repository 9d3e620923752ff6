//! A plain check of logs: what a log says of pages and transactions, and whether it is legal.
//!
//! A log is a slice of records, the oldest first. Each answer is one pass over it, or a few, and each
//! contract is the definition that it answers by, of the history of the log's records
//! (docs/DEFINITIONS.md). Nothing is kept from one answer to the next.
#![tactic(auto)]

mod audits;
mod changes;
mod entries;
mod inventory;
mod listings;
mod needs;
mod pages;
mod pending;
mod rows;
mod rules;
mod slots;
mod transactions;
mod verdicts;

pub use audits::audit;
pub use changes::Change;
pub use needs::{need, needs_on};
pub use pages::{entry, page, version};
pub use pending::{all_pending, pending_changes};
pub use rows::{committed_rows, row};
pub use transactions::{has_record, is_finished};
pub use verdicts::{Illegal, Verdict};
