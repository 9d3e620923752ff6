//! The write-ahead log: batches of records in area Log, each after a gate byte that is opened by a
//! write of its own once the batch is durable.
//!
//! A [`Log`] is its tail, which is the bytes of the records that are not durable yet, and the offset of
//! the gate that they will stand after. That gate stays closed until the tail is durable after it, so
//! a crash at any moment leaves the log as it was before a flush, or with the whole tail. What is read
//! back, whole or a record at a time, is exactly what stands in the area, or the first place that is wrong.
#![tactic(auto)]

mod attaching;
mod flushing;
mod log;
mod lookups;
mod parsing;
mod reading;

pub use attaching::Attached;
pub use log::{LONG_TAIL, Log, LogFull};
