//! The fields of a record, appended to bytes that have the room.

ghost use Rattle.std.specs.Prelude.{◌≡◌, ◌+◌, ◌≤◌, ◌∷◌, ◌++◌, length, vec_len};
ghost use Rattle.std.specs.Int.{w32, to_be_bytes};
ghost use Rattle.std.specs.Vec.{vec_capacity};
ghost use Rattle.rm_record.specs.Records.{rid_bytes, row_bytes, slot_bytes, change_bytes};

use crate::fields::Change;
use crate::records::{OCCUPIED, VACANT};
use rm_types::{Rid, Row, Slot, TxnId};

/// Appends bytes for which there is room.
pub(crate) fn append(bytes: &[u8], out: &mut Vec<u8>)
    requires { vec_len out.old + length bytes.now ≤ vec_capacity out.old }
    ensures items { out.new.items ≡ out.old.items ++ bytes.now }
    ensures len { vec_len out.new ≡ vec_len out.old + length bytes.now }
    ensures capacity { vec_capacity out.old ≤ vec_capacity out.new }
{
    out.extend_from_slice(bytes).unwrap();
}

/// Appends a record's kind and its transaction, for which there is room.
pub(crate) fn append_head(kind: u8, txn: TxnId, out: &mut Vec<u8>)
    requires { vec_len out.old + length (kind ∷ to_be_bytes w32 txn.0) ≤ vec_capacity out.old }
    ensures items { out.new.items ≡ out.old.items ++ kind ∷ to_be_bytes w32 txn.0 }
    ensures len { vec_len out.new ≡ vec_len out.old + length (kind ∷ to_be_bytes w32 txn.0) }
    ensures capacity { vec_capacity out.old ≤ vec_capacity out.new }
{
    append(&[kind], out);
    append(&txn.0.to_be_bytes(), out);
}

/// Appends a row id, for which there is room.
pub(crate) fn append_rid(rid: Rid, out: &mut Vec<u8>)
    requires { vec_len out.old + length (rid_bytes rid) ≤ vec_capacity out.old }
    ensures items { out.new.items ≡ out.old.items ++ rid_bytes rid }
    ensures len { vec_len out.new ≡ vec_len out.old + length (rid_bytes rid) }
    ensures capacity { vec_capacity out.old ≤ vec_capacity out.new }
{
    append(&rid.page.to_be_bytes(), out);
    append(&rid.slot.to_be_bytes(), out);
}

/// Appends a record's kind and what each change begins with, for which there is room.
pub(crate) fn append_change(kind: u8, change: Change, out: &mut Vec<u8>)
    requires { vec_len out.old + length (kind ∷ change_bytes change.txn change.under change.rid change.need) ≤ vec_capacity out.old }
    ensures items { out.new.items ≡ out.old.items ++ kind ∷ change_bytes change.txn change.under change.rid change.need }
    ensures len { vec_len out.new ≡ vec_len out.old + length (kind ∷ change_bytes change.txn change.under change.rid change.need) }
    ensures capacity { vec_capacity out.old ≤ vec_capacity out.new }
{
    append_head(kind, change.txn, out);
    append(&change.under.0.to_be_bytes(), out);
    append_rid(change.rid, out);
    append(&change.need.to_be_bytes(), out);
}

/// Appends a row, for which there is room.
pub(crate) fn append_row(row: &Row, out: &mut Vec<u8>)
    requires { vec_len out.old + length (row_bytes row.now) ≤ vec_capacity out.old }
    ensures items { out.new.items ≡ out.old.items ++ row_bytes row.now }
    ensures len { vec_len out.new ≡ vec_len out.old + length (row_bytes row.now) }
    ensures capacity { vec_capacity out.old ≤ vec_capacity out.new }
{
    let bytes = row.as_slice();
    append(&(bytes.len() as u16).to_be_bytes(), out);
    append(bytes, out);
}

/// Appends what a slot holds, for which there is room.
pub(crate) fn append_slot(slot: &Slot, out: &mut Vec<u8>)
    requires { vec_len out.old + length (slot_bytes slot.now) ≤ vec_capacity out.old }
    ensures items { out.new.items ≡ out.old.items ++ slot_bytes slot.now }
    ensures len { vec_len out.new ≡ vec_len out.old + length (slot_bytes slot.now) }
    ensures capacity { vec_capacity out.old ≤ vec_capacity out.new }
{
    match slot {
        Slot::Vacant => append(&[VACANT], out),
        Slot::Row(row) => {
            append(&[OCCUPIED], out);
            append_row(row, out);
        }
    }
}
