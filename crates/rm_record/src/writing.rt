//! Writing a record.

ghost use Rattle.std.specs.Prelude.{◌≡◌, ℕ, ◌+◌, ◌≤◌, ◌<◌, List, ◌∷◌, ◌++◌, length, vec_len, OnOk, OnErr};
ghost use Rattle.std.specs.Vec.{vec_capacity};
ghost use Rattle.rm_record.specs.Records.{change_bytes, row_bytes, spelling, MakesChange};

use crate::appending::{append, append_change, append_head, append_rid, append_row, append_slot};
use crate::checkpoints::append_places;
use crate::fields::Change;
use crate::records::{
    CHECKPOINT, COMMIT, COMPENSATE, DELETE, END, INSERT, INVENTORY, LogRecord, UPDATE,
};
use rm_types::{Lsn, NoMemory, Places, Rid, Row, Slot, TxnId};

// Appends a record of a change and a row, for which there is room.
fn append_row_change(kind: u8, change: Change, row: &Row, out: &mut Vec<u8>)
    requires { vec_len out.old + length (kind ∷ (change_bytes change.txn change.under change.rid change.need ++ row_bytes row.now)) ≤ vec_capacity out.old }
    ensures items { out.new.items ≡ out.old.items ++ kind ∷ (change_bytes change.txn change.under change.rid change.need ++ row_bytes row.now) }
    ensures capacity { vec_capacity out.old ≤ vec_capacity out.new }
{
    append_change(kind, change, out);
    append_row(row, out);
}

// Appends an update, for which there is room.
fn append_update(change: Change, old: &Row, new: &Row, out: &mut Vec<u8>)
    requires { vec_len out.old + length (spelling (LogRecord.Update change.txn change.under change.rid change.need old.now new.now)) ≤ vec_capacity out.old }
    ensures items { out.new.items ≡ out.old.items ++ spelling (LogRecord.Update change.txn change.under change.rid change.need old.now new.now) }
    ensures capacity { vec_capacity out.old ≤ vec_capacity out.new }
{
    append_change(UPDATE, change, out);
    append_row(old, out);
    append_row(new, out);
}

// Appends a compensation, for which there is room.
fn append_compensation(txn: TxnId, undone: Lsn, next: Lsn, rid: Rid, back: &Slot, out: &mut Vec<u8>)
    requires { vec_len out.old + length (spelling (LogRecord.Compensate txn undone next rid back.now)) ≤ vec_capacity out.old }
    ensures items { out.new.items ≡ out.old.items ++ spelling (LogRecord.Compensate txn undone next rid back.now) }
    ensures capacity { vec_capacity out.old ≤ vec_capacity out.new }
{
    append_head(COMPENSATE, txn, out);
    append(&undone.0.to_be_bytes(), out);
    append(&next.0.to_be_bytes(), out);
    append_rid(rid, out);
    append_slot(back, out);
}

// Appends an inventory record, for which there is room.
fn append_inventory(txn: TxnId, page: u32, category: u8, out: &mut Vec<u8>)
    requires { vec_len out.old + length (spelling (LogRecord.Inventory txn page category)) ≤ vec_capacity out.old }
    ensures items { out.new.items ≡ out.old.items ++ spelling (LogRecord.Inventory txn page category) }
    ensures capacity { vec_capacity out.old ≤ vec_capacity out.new }
{
    append_head(INVENTORY, txn, out);
    append(&page.to_be_bytes(), out);
    append(&[category], out);
}

// Appends a checkpoint, for which there is room.
fn append_checkpoint(next: u64, losers: &Places, pages: &Places, blocks: &Places, out: &mut Vec<u8>)
    requires { vec_len out.old + length (spelling (LogRecord.Checkpoint next losers.now pages.now blocks.now)) ≤ vec_capacity out.old }
    ensures items { out.new.items ≡ out.old.items ++ spelling (LogRecord.Checkpoint next losers.now pages.now blocks.now) }
    ensures capacity { vec_capacity out.old ≤ vec_capacity out.new }
{
    append(&[CHECKPOINT], out);
    append(&next.to_be_bytes(), out);
    append_places(losers, out);
    append_places(pages, out);
    append_places(blocks, out);
}

impl LogRecord {
    // Appends the record of a change, for which there is room.
    fn append_changed(&self, out: &mut Vec<u8>)
        requires changes { MakesChange self.now }
        requires room { vec_len out.old + length (spelling self.now) ≤ vec_capacity out.old }
        ensures items { out.new.items ≡ out.old.items ++ spelling self.now }
        ensures capacity { vec_capacity out.old ≤ vec_capacity out.new }
    {
        match self {
            LogRecord::Insert {
                txn,
                under,
                rid,
                need,
                row,
            } => append_row_change(INSERT, Change::new(*txn, *under, *rid, *need), row, out),
            LogRecord::Delete {
                txn,
                under,
                rid,
                need,
                old,
            } => append_row_change(DELETE, Change::new(*txn, *under, *rid, *need), old, out),
            LogRecord::Update {
                txn,
                under,
                rid,
                need,
                old,
                new,
            } => append_update(Change::new(*txn, *under, *rid, *need), old, new, out),
            _ => {}
        }
    }

    // Appends the record, for which there is room.
    fn append_to(&self, out: &mut Vec<u8>)
        requires { vec_len out.old + length (spelling self.now) ≤ vec_capacity out.old }
        ensures items { out.new.items ≡ out.old.items ++ spelling self.now }
        ensures capacity { vec_capacity out.old ≤ vec_capacity out.new }
    {
        match self {
            LogRecord::Insert { .. } | LogRecord::Delete { .. } | LogRecord::Update { .. } =>
                self.append_changed(out),
            LogRecord::Compensate {
                txn,
                undone,
                next,
                rid,
                back,
            } => append_compensation(*txn, *undone, *next, *rid, back, out),
            LogRecord::Inventory {
                txn,
                page,
                category,
            } => append_inventory(*txn, *page, *category, out),
            LogRecord::Commit { txn } => append_head(COMMIT, *txn, out),
            LogRecord::End { txn } => append_head(END, *txn, out),
            LogRecord::Checkpoint {
                next,
                losers,
                pages,
                blocks,
            } => append_checkpoint(*next, losers, pages, blocks, out),
        }
    }

    /// Appends its spelling. It asks for memory only where `out` lacks the room, and the room never shrinks.
    ///
    /// # Errors
    ///
    /// [`NoMemory`] leaves `out`'s bytes as they were.
    pub fn encode(&self, out: &mut Vec<u8>) -> Result<(), NoMemory>
        ensures ok { OnOk result (out.new.items ≡ out.old.items ++ spelling self.now) }
        ensures err { OnErr result (out.new.items ≡ out.old.items) }
        ensures full { OnErr result (vec_capacity out.old < vec_len out.old + length (spelling self.now)) }
        ensures capacity { vec_capacity out.old ≤ vec_capacity out.new }
    {
        out.try_reserve(self.size() as usize)?;
        self.append_to(out);
        Ok(())
    }
}
