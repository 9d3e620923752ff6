//! A volume's master: which volume it is, and where its log begins.
//!
//! The master has two slots and a parity byte, which names the current one. [`Master::write`] writes
//! the other slot, makes it durable, and only then writes the parity byte: so a crash at any moment
//! leaves the old fields or the next ones, whatever a torn parity byte is. A volume is made exactly
//! where its made byte is 1; [`Master::create`] writes that byte last.
#![tactic(auto)]

mod creation;
mod faults;
mod fields;
mod laws;
mod master;
mod slots;
mod spelling;

pub use faults::{CreateFault, MasterFault};
pub use fields::Fields;
pub use laws::an_area_has_one_reading;
pub use master::Master;
