//! Redo of the records that enter a page's category in the inventory.

ghost use Rattle.std.specs.Prelude.{ℕ};
ghost use Rattle.rm_apply.specs.Entries.{ChangesBlock, EntersCategory, RedoesEntry};

use crate::answers::Applied;
use crate::sets::category_entered_by;
use rm_inventory::Inventory;
use rm_record::LogRecord;
use rm_types::{BLOCK_PAGES, Lsn, MAX_CATEGORY};

/// Applies an inventory record to the block that describes its page. Its category is at most [`MAX_CATEGORY`].
pub fn redo_inventory(block: &mut Inventory, what: &LogRecord, lsn: Lsn) -> Applied
    requires { EntersCategory what.now }
    ensures { (number : ℕ) → ChangesBlock what.now number → RedoesEntry number block.old what.now lsn result block.new }
{
    if block.lsn() >= lsn {
        return Applied::Older;
    }
    let Some((page, category)) = category_entered_by(what) else {
        unreachable!();
    };
    let index = (page % BLOCK_PAGES) as u16;
    // The block has that entry.
    prove!(block.entry(index) <= MAX_CATEGORY);
    block.set_entry(index, category, lsn);
    Applied::Changed
}
