//! The records of the log, and their sizes.

ghost use Rattle.std.specs.Prelude.{◌≡◌, ◌≢◌, ◌+◌, ◌*◌, ◌≤◌, length, slice_index};
ghost use Rattle.rm_types.specs.declared.places.TheConstants.{MAX_PLACES};
ghost use Rattle.rm_types.specs.declared.rows.TheConstants.{MAX_ROW};
ghost use Rattle.rm_record.specs.declared.records.LogRecord.{LogRecord as AnyRecord};
ghost use Rattle.rm_record.specs.Places.{places_bytes};
ghost use Rattle.rm_record.specs.Records.{slot_bytes, row_bytes, IsRecord, spelling};

use rm_types::{Lsn, MAX_BLOCKS, MAX_PAGES, MAX_PLACES, MAX_ROW, Places, Rid, Row, Slot, TxnId};

/// The fewest bytes that a record has.
pub const MIN_RECORD: usize = 5;

/// The most bytes that a record has: a checkpoint with the most losers, and with each page and block that a file has.
pub const MAX_RECORD: usize = CHECKPOINT_FRONT as usize
    + 3 * COUNT_SIZE as usize
    + PLACE_SIZE as usize * (MAX_PLACES + MAX_PAGES as usize + MAX_BLOCKS as usize);

/// The most bytes of a record that is no checkpoint: an update of one of the longest rows by another.
pub const MAX_CHANGE: usize = CHANGE_FRONT as usize + 2 * (LENGTH_SIZE as usize + MAX_ROW);

/// The greatest category that a record can have: the range of its byte in the grammar, whatever the format. A format's
/// own greatest category is at most this.
pub const MAX_RECORDED_CATEGORY: u8 = 3;

/// The kind byte of an insert.
pub(crate) const INSERT: u8 = 1;

/// The kind byte of a delete.
pub(crate) const DELETE: u8 = 2;

/// The kind byte of an update.
pub(crate) const UPDATE: u8 = 3;

/// The kind byte of a compensation.
pub(crate) const COMPENSATE: u8 = 4;

/// The kind byte of an inventory record.
pub(crate) const INVENTORY: u8 = 5;

/// The kind byte of a commit.
pub(crate) const COMMIT: u8 = 6;

/// The kind byte of an end.
pub(crate) const END: u8 = 7;

/// The kind byte of a checkpoint.
pub(crate) const CHECKPOINT: u8 = 8;

/// The form byte of a slot without a row.
pub(crate) const VACANT: u8 = 0;

/// The form byte of a slot with a row.
pub(crate) const OCCUPIED: u8 = 1;

/// What a change has before its rows: kind 1, transaction 4, pending record 8, page 4, slot 2, need 2.
const CHANGE_FRONT: u32 = 21;

/// What a row has before its bytes: length 2.
const LENGTH_SIZE: u32 = 2;

/// What a compensation has before what the slot held: kind 1, transaction 4, undone record 8, pending record 8, page 4, slot 2.
const COMPENSATE_FRONT: u32 = 27;

/// What a slot has before its row: form 1.
const FORM_SIZE: u32 = 1;

/// What an inventory record has: kind 1, transaction 4, page 4, category 1.
const INVENTORY_SIZE: u32 = 10;

/// What a commit has, and an end: kind 1, transaction 4.
const FINISH_SIZE: u32 = 5;

/// What a checkpoint has before its lists: kind 1, next id 8.
const CHECKPOINT_FRONT: u32 = 9;

/// What a list has before its entries: count 2.
const COUNT_SIZE: u32 = 2;

/// What an entry of a list has: number 4, offset 8.
const PLACE_SIZE: u32 = 12;

/// A record of the log. In a change, `under` is the LSN of the transaction's pending record below this one (0 for
/// none), and `need` the bytes reserved for the transaction on the page before the change.
#[derive(Debug, Drop)]
pub enum LogRecord {
    /// A row put into a slot.
    Insert {
        txn: TxnId,
        under: Lsn,
        rid: Rid,
        need: u16,
        row: Row,
    },
    /// A row taken from its slot.
    Delete {
        txn: TxnId,
        under: Lsn,
        rid: Rid,
        need: u16,
        old: Row,
    },
    /// A row put in the place of another.
    Update {
        txn: TxnId,
        under: Lsn,
        rid: Rid,
        need: u16,
        old: Row,
        new: Row,
    },
    /// The change with the LSN `undone` is undone: its slot holds again what it held before. `next` is that
    /// record's `under`.
    Compensate {
        txn: TxnId,
        undone: Lsn,
        next: Lsn,
        rid: Rid,
        back: Slot,
    },
    /// The page's category in the inventory.
    Inventory {
        txn: TxnId,
        page: u32,
        category: u8,
    },
    /// The transaction's changes hold from here on.
    Commit {
        txn: TxnId,
    },
    /// All of the transaction's changes are undone.
    End {
        txn: TxnId,
    },
    /// What a restart has to know of the log up to here. `next` is the next id of a transaction. `losers` are the
    /// transactions that have a record and neither commit nor end, each with the LSN of its last pending record (0 for
    /// none). `pages` and `blocks` are those whose last synced version lacks a record, each with the gate offset of the
    /// batch of the first record that it lacks.
    Checkpoint {
        next: u64,
        losers: Places,
        pages: Places,
        blocks: Places,
    },
}

// How many bytes a row has in a record.
fn row_size(row: &Row) -> u32
    ensures value { result ≡ length (row_bytes row.now) }
    ensures bound { result ≤ LENGTH_SIZE + MAX_ROW }
{
    LENGTH_SIZE + row.as_slice().len() as u32
}

// How many bytes what a slot holds has in a record.
fn slot_size(slot: &Slot) -> u32
    ensures value { result ≡ length (slot_bytes slot.now) }
    ensures bound { result ≤ FORM_SIZE + LENGTH_SIZE + MAX_ROW }
{
    match slot {
        Slot::Vacant => FORM_SIZE,
        Slot::Row(row) => FORM_SIZE + row_size(row),
    }
}

// How many bytes places have in a record.
fn places_size(places: &Places) -> u32
    ensures value { result ≡ length (places_bytes places.now) }
    ensures bound { result ≤ COUNT_SIZE + PLACE_SIZE * MAX_PLACES }
{
    COUNT_SIZE + PLACE_SIZE * places.as_slice().len() as u32
}

impl LogRecord {
    /// How many bytes hold any record whose spelling begins with this byte: [`MAX_RECORD`] for the kind byte of a
    /// checkpoint, and [`MAX_CHANGE`] for any other.
    pub fn most_bytes(first: u8) -> usize
        ensures enough { (logged : AnyRecord) → IsRecord logged → slice_index (spelling logged) 0 ≡ first → length (spelling logged) ≤ result }
        ensures few { first ≢ CHECKPOINT → result ≡ MAX_CHANGE }
        ensures most { first ≡ CHECKPOINT → result ≡ MAX_RECORD }
    {
        if first == CHECKPOINT {
            MAX_RECORD
        } else {
            MAX_CHANGE
        }
    }

    /// How many bytes its spelling has: for a record in its ranges at most [`MAX_RECORD`].
    pub fn size(&self) -> u32
        ensures value { result ≡ length (spelling self.now) }
        ensures least { MIN_RECORD ≤ length (spelling self.now) }
        ensures bound { IsRecord self.now → length (spelling self.now) ≤ MAX_RECORD }
    {
        match self {
            LogRecord::Insert { row, .. } => CHANGE_FRONT + row_size(row),
            LogRecord::Delete { old, .. } => CHANGE_FRONT + row_size(old),
            LogRecord::Update { old, new, .. } => CHANGE_FRONT + row_size(old) + row_size(new),
            LogRecord::Compensate { back, .. } => COMPENSATE_FRONT + slot_size(back),
            LogRecord::Inventory { .. } => INVENTORY_SIZE,
            LogRecord::Commit { .. } | LogRecord::End { .. } => FINISH_SIZE,
            LogRecord::Checkpoint {
                losers,
                pages,
                blocks,
                ..
            } => CHECKPOINT_FRONT + places_size(losers) + places_size(pages) + places_size(blocks),
        }
    }
}

/// A record of a log, with the offset of its first byte.
#[derive(Debug, Drop)]
pub struct Logged {
    pub lsn: Lsn,
    pub what: LogRecord,
}
