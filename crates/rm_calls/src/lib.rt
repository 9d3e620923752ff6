//! A volume that is read off what five files held and the record of the calls on them.
//!
//! [`Calls`] asks of files only that each call is noted with its answer, whatever that is. [`Modelled`] is a volume over
//! such files: what a read gives and what a crash may leave are defined by going through the record from what the files
//! held when they were opened. That the answers in the record are those of honest files is a hypothesis on the record,
//! under which the volume models its content; nothing is assumed of the program or of the files.
#![tactic(auto)]

mod answer;
mod calls;
mod modelled;
mod reading;
mod reads;
mod record;
mod start;

pub use answer::Answer;
pub use calls::Calls;
pub use modelled::Modelled;
pub use record::Record;
pub use start::{Start, Unknown};
