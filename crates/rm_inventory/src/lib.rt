//! A block of the inventory in memory: its LSN, and an entry for each of its 1,024 pages, which says how full it is.
//!
//! An entry is a category, at most [`MAX_CATEGORY`]. A search for room reads the entries alone, and passes by the pages
//! that are too full for the row by their category (docs/DEFINITIONS.md).
#![tactic(auto)]

ghost use Rattle.std.specs.Prelude.{◌≡◌, ℕ, ◌≤◌, ◌<◌, ◌↔◌, length, slice_index, slice_set, IsTrue, IfSome, IfNone};
ghost use Rattle.rm_types.specs.declared.formats.TheConstants.{MAX_CATEGORY};
ghost use Rattle.rm_types.specs.declared.numbers.TheConstants.{BLOCK_PAGES};
ghost use Rattle.rm_model.specs.Categories.{IsExcluded};
ghost use Rattle.rm_inventory.specs.Inventory.{Excludes};

use rm_types::{BLOCK_PAGES, CAPACITY, Format, Lsn, MAX_CATEGORY};
use std::marker::Model;

/// A block of the inventory: the LSN of the last record applied to it, and an entry for each of its pages.
#[derive(Debug, Drop)]
pub struct Inventory {
    lsn: Lsn,
    entries: [u8; BLOCK_PAGES as usize],
}

impl Model for Inventory {
    ghost use Rattle.rm_inventory.specs.Inventory.{InventoryValue, AreEntries};

    ghost Value = { InventoryValue };

    ghost view = { λ inventory. record { lsn = inventory.lsn; entries = inventory.entries } };

    ghost invariant = { λ inventory. AreEntries inventory.entries };
}

impl Inventory {
    /// A block with LSN 0 and 1,024 entries 0.
    pub fn new() -> Inventory
        ensures lsn { result.lsn ≡ record { 0 = 0 } }
        ensures count { length result.entries ≡ BLOCK_PAGES }
        ensures entries { (index : ℕ) → slice_index result.entries index ≡ 0 }
    {
        Inventory {
            lsn: Lsn(0),
            entries: [0; BLOCK_PAGES as usize],
        }
    }

    /// The LSN of the last record applied.
    pub fn lsn(&self) -> Lsn
        ensures { result ≡ self.now.lsn }
    {
        self.lsn
    }

    /// The entry of the page with this index in the block: its category when the entry was set.
    pub fn entry(&self, index: u16) -> u8
        requires { index < BLOCK_PAGES }
        ensures value { result ≡ slice_index self.now.entries index }
        ensures bound { result ≤ MAX_CATEGORY }
        ensures count { length self.now.entries ≡ BLOCK_PAGES }
    {
        self.entries[usize::from(index)]
    }

    /// Sets the entry of one page, with `lsn` as the block's LSN.
    pub fn set_entry(&mut self, index: u16, category: u8, lsn: Lsn)
        requires index { index < BLOCK_PAGES }
        requires category { category ≤ MAX_CATEGORY }
        ensures lsn { self.new.lsn ≡ lsn }
        ensures entries { self.new.entries ≡ slice_set self.old.entries index category }
    {
        self.entries[usize::from(index)] = category;
        self.lsn = lsn;
    }

    /// The least index from `from` on and below `upto` whose entry does not exclude a row of `length` bytes: none
    /// exactly where each of them does.
    pub fn first_candidate(&self, format: Format, from: u16, upto: u16, length: u16) -> Option<u16>
        requires order { from ≤ upto }
        requires inside { upto ≤ BLOCK_PAGES }
        ensures within { IfSome result (λ index. (from ≤ index) × (index < upto)) }
        ensures candidate { IfSome result (λ index. Excludes self.now format length index → ⊥) }
        ensures least { (lower : ℕ) → from ≤ lower → IfSome result (λ index. lower < index → Excludes self.now format length lower) }
        ensures none { (index : ℕ) → from ≤ index → index < upto → IfNone result (Excludes self.now format length index) }
    {
        for index in from..upto {
            if !is_excluded(format, self.entry(index), length) {
                return Some(index);
            }
        }
        None
    }
}

// Whether a page with this entry is passed by in a search for room for a row.
fn is_excluded(format: Format, entry: u8, length: u16) -> bool
    ensures { IsTrue result ↔ IsExcluded format entry length }
{
    let least_used = u32::from(format.category_bytes()) * u32::from(entry);
    u32::from(CAPACITY) < least_used + u32::from(length)
}
