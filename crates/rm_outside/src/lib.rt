//! The outside of the record manager, as traits: a volume of five areas, a source of bytes and a
//! sink of bytes; and what a call does to a volume, as relations (`specs/Calls.antt`).
//!
//! Each keeps a count of faults that never falls, and returns [`Failed`] only where that count rose
//! in the same call. So a caller that reports a fault can show that the outside had one.
#![tactic(auto)]

mod areas;
mod calls;
mod streams;
mod volume;

pub use areas::PerArea;
pub use calls::{read_area, sync_area, sync_areas, sync_content, write_area};
pub use streams::{Sink, Source};
pub use volume::{Failed, Volume};
