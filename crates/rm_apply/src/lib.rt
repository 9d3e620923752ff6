//! Redo: one record of the log applied to the page, or to the block of the inventory, that it changes.
//!
//! Redo gives the value that the log means after the record (docs/DEFINITIONS.md). A page or a block that has the
//! record already, by its LSN, is left as it is: so a record may be redone any number of times.
#![tactic(auto)]

mod answers;
mod entries;
mod pages;
mod sets;

pub use answers::{Applied, ApplyRefused};
pub use entries::redo_inventory;
pub use pages::redo;
pub use sets::{category_entered_by, row_set_by, slot_set_by};
