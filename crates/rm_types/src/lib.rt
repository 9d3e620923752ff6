//! The types that the crates share: numbers, row ids, rows and slots, operations and replies,
//! places in the log, modes of locks, the areas, the faults and the format of a volume.
//!
//! A [`Row`] has at most 4,076 bytes and the numbers of [`Places`] rise, by their types, so no other
//! crate tests it again.
#![tactic(auto)]

mod areas;
mod faults;
mod formats;
mod memory;
mod modes;
mod numbers;
mod operations;
mod places;
mod rows;
mod slots;

pub use areas::Area;
pub use faults::{Fault, StoreFault};
pub use formats::{CATEGORY_BYTES, Format, MAX_CATEGORY};
pub use memory::NoMemory;
pub use modes::Mode;
pub use numbers::{
    BLOCK_PAGES, BLOCK_SIZE, Lsn, MAX_BLOCKS, MAX_LOG, MAX_PAGES, MAX_SESSIONS, MAX_SLOT, Rid,
    TxnId,
};
pub use operations::{Op, Reply};
pub use places::{MAX_PLACES, Place, Places};
pub use rows::{MAX_ROW, Row};
pub use slots::{CAPACITY, SLOT_ENTRY, Slot};
