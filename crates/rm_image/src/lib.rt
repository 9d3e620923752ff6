//! Which images of a volume are whole (docs/DEFINITIONS.md): what its blocks stand for, that each lacks no
//! record from before its redo offset, which checkpoint and which copy the master may name.
//!
//! The crate has definitions and laws alone. An image is sound by rules that its log's history keeps
//! ([`HistoryRules`]): that it is legal, or others that a program without an inventory keeps.
#![tactic(auto)]

mod image_laws;

ghost use Rattle.rm_image.specs.Laws.{BlocksHavePrefixes, InventoryBlocksHavePrefixes, GatesRise, RedoBringsPagesUp, RedoBringsEntriesUp};

pub use image_laws::{
    HistoryRules, a_copy_is_of_the_whole_file, a_master_names_one_checkpoint,
    a_new_volume_is_sound, a_new_volume_is_whole, a_sound_image_has_one_reading,
    an_image_of_a_log_alone_is_sound, no_checkpoint_without_its_record,
    no_redo_offset_is_before_the_redo_point, pages_past_the_copy_are_empty,
    pages_past_the_file_are_empty, redo_begins_at_gates, redo_completes_whole_images,
};

/// How many blocks of area Copy a half has.
pub const HALF_BLOCKS: u64 = 16_400;

/// The block of a half at which the copy of the inventory begins.
pub const COPIED_SPACE: u64 = 16_384;

/// Of a history in order, where gates rise with LSNs: the block of a page stands for it just where it
/// has the page of a prefix of it, after which no record's gate is before the redo offset.
pub fn a_page_block_has_a_prefix()
    ensures { BlocksHavePrefixes }
{}

/// The gates of records rise with their LSNs.
pub fn gates_rise()
    ensures { GatesRise }
{}

/// Likewise, a block of the inventory stands for the history just where it has the categories of such
/// a prefix.
pub fn an_inventory_block_has_a_prefix()
    ensures { InventoryBlocksHavePrefixes }
{}

/// What redo makes of a page's block that stands for a log, from its redo offset on or from before it, is
/// the page of the log.
pub fn redo_brings_pages_up()
    ensures { RedoBringsPagesUp }
{}

/// So it is with a block of the inventory.
pub fn redo_brings_entries_up()
    ensures { RedoBringsEntriesUp }
{}
