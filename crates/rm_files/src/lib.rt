//! The program's own outside: a folder of five files, a reader as a source, a writer as a sink.
//!
//! [`Host`] makes each call on the files and notes it with its answer; the volume over them is rm_calls' `Modelled`. One
//! process at a time has a volume: `master` is locked before anything is read. The streams count their failures, and a
//! call of theirs that a signal interrupted is made again.
#![tactic(auto)]

mod files;
mod host;
mod streams;

pub use host::Host;
pub use streams::{Input, Output};
