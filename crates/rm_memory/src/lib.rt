//! The outside in memory, for tests: a volume, a source and a sink that model their content, and fail where
//! the test says so and where memory runs out.
//!
//! A [`MemVolume`] notes each write and each sync that was answered Ok. What a read gives, and what a crash may
//! leave, are functions of the notes; the bytes that a read gives stand beside them, and are always those that
//! the notes give.
#![tactic(auto)]

mod calls;
mod contents;
mod counts;
mod crash;
mod medium;
mod notes;
mod plan;
mod streams;
mod syncs;
mod volume;

pub use crash::FILLING;
pub use streams::{MemSink, MemSource};
pub use volume::MemVolume;
