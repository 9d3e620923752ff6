//! The blocks of the areas Data and Space (docs/FORMATS.md): which bytes stand for a page, and which for
//! a part of the inventory.
//!
//! The crate has definitions and laws alone. Its invariant is that a block stands for one LSN and one
//! value: for one list of slots, or for one category of each page that it describes.
#![tactic(auto)]

ghost use Rattle.rm_block.specs.Laws.{DataBlocksAreOne, InventoryBlocksAreOne, ZerosAreEmpty};

/// The offset in a block of its LSN, in eight bytes.
pub const LSN_AT: u64 = 0;

/// The offset in a data block of the number of its slots, in two bytes.
pub const COUNT_AT: u64 = 8;

/// The offset in a data block of its directory.
pub const SLOTS_AT: u64 = 16;

/// The offset in an inventory block of the byte that says its format.
pub const FORM_AT: u64 = 8;

/// The offset in an inventory block of its entries.
pub const ENTRIES_AT: u64 = 16;

/// How many entries of an inventory block stand in a byte, in format one.
pub const ENTRIES_IN_BYTE: u64 = 4;

/// A data block stands for one LSN and one list of slots.
pub fn a_data_block_stands_for_one_page()
    ensures { DataBlocksAreOne }
{}

/// A block of the inventory stands for one LSN, and for one category of each page that it describes.
pub fn an_inventory_block_stands_for_one_list()
    ensures { InventoryBlocksAreOne }
{}

/// A block of zeros has no record: it stands for a page without slots, and for categories of 0.
pub fn a_block_of_zeros_is_empty()
    ensures { ZerosAreEmpty }
{}
