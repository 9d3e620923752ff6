//! Log records: what a transaction did, and how it is spelled in the log.
//!
//! Each record has one spelling, and no spelling begins another, so that records one after another are
//! read back as they were written. A record's numbers are in their ranges: bytes that break one are no record.
#![tactic(auto)]

mod appending;
mod checkpoints;
mod fields;
mod laws;
mod reading;
mod records;
mod refused;
mod writing;

pub use laws::{categories_are_recorded, no_spelling_begins_another, spellings_are_short};
pub use records::{LogRecord, Logged, MAX_CHANGE, MAX_RECORD, MAX_RECORDED_CATEGORY, MIN_RECORD};
pub use refused::DecodeRefused;
