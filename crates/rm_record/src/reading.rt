//! Reading a record.

ghost use Rattle.std.specs.Prelude.{◌≡◌, ℕ, ◌≤◌, List, ◌++◌, length, take, drop, IfOk, Err};
ghost use Rattle.rm_record.specs.declared.records.LogRecord.{LogRecord as AnyRecord};
ghost use Rattle.rm_record.specs.Fields.{Gives};
ghost use Rattle.rm_record.specs.Records.{IsRecord, spelling};
ghost use Rattle.rm_record.specs.Reading.{insert_fields, delete_fields, update_fields, compensate_fields, inventory_fields, commit_fields, end_fields, checkpoint_fields, fields_of, record_field};

use crate::checkpoints::{next_of, places_of};
use crate::fields::{
    Change, category_of, change_of, lsn_of, page_of, rid_of, row_of, slot_of, txn_of,
};
use crate::records::{
    CHECKPOINT, COMMIT, COMPENSATE, DELETE, END, INSERT, INVENTORY, LogRecord, UPDATE,
};
use crate::refused::DecodeRefused;
use rm_types::{MAX_BLOCKS, MAX_PAGES};
use std::alloc::Global;

/// What an insert has after its kind byte, and the bytes after that.
#[tactic(auto, unfolding(crate::specs::Reading::insert_fields))]
fn insert_of(alloc: Global, bytes: &[u8]) -> Result<(LogRecord, &[u8]), DecodeRefused>
    ensures { Gives (λ x. (x.0, x.1.now)) result (insert_fields bytes.now) }
{
    let (
        Change {
            txn,
            under,
            rid,
            need,
        },
        rest,
    ) = change_of(bytes)?;
    let (row, rest) = row_of(alloc, rest)?;
    let insert = LogRecord::Insert {
        txn,
        under,
        rid,
        need,
        row,
    };
    Ok((insert, rest))
}

/// What a delete has after its kind byte, and the bytes after that.
#[tactic(auto, unfolding(crate::specs::Reading::delete_fields))]
fn delete_of(alloc: Global, bytes: &[u8]) -> Result<(LogRecord, &[u8]), DecodeRefused>
    ensures { Gives (λ x. (x.0, x.1.now)) result (delete_fields bytes.now) }
{
    let (
        Change {
            txn,
            under,
            rid,
            need,
        },
        rest,
    ) = change_of(bytes)?;
    let (old, rest) = row_of(alloc, rest)?;
    let delete = LogRecord::Delete {
        txn,
        under,
        rid,
        need,
        old,
    };
    Ok((delete, rest))
}

/// What an update has after its kind byte, and the bytes after that.
#[tactic(auto, unfolding(crate::specs::Reading::update_fields))]
fn update_of(alloc: Global, bytes: &[u8]) -> Result<(LogRecord, &[u8]), DecodeRefused>
    ensures { Gives (λ x. (x.0, x.1.now)) result (update_fields bytes.now) }
{
    let (
        Change {
            txn,
            under,
            rid,
            need,
        },
        rest,
    ) = change_of(bytes)?;
    let (old, rest) = row_of(alloc, rest)?;
    let (new, rest) = row_of(alloc, rest)?;
    let update = LogRecord::Update {
        txn,
        under,
        rid,
        need,
        old,
        new,
    };
    Ok((update, rest))
}

/// What a compensation has after its kind byte, and the bytes after that.
#[tactic(auto, unfolding(crate::specs::Reading::compensate_fields))]
fn compensate_of(alloc: Global, bytes: &[u8]) -> Result<(LogRecord, &[u8]), DecodeRefused>
    ensures { Gives (λ x. (x.0, x.1.now)) result (compensate_fields bytes.now) }
{
    let (txn, rest) = txn_of(bytes)?;
    let (undone, rest) = lsn_of(rest)?;
    let (next, rest) = lsn_of(rest)?;
    let (rid, rest) = rid_of(rest)?;
    let (back, rest) = slot_of(alloc, rest)?;
    let compensation = LogRecord::Compensate {
        txn,
        undone,
        next,
        rid,
        back,
    };
    Ok((compensation, rest))
}

/// What an inventory record has after its kind byte, and the bytes after that.
#[tactic(auto, unfolding(crate::specs::Reading::inventory_fields))]
fn inventory_of(bytes: &[u8]) -> Result<(LogRecord, &[u8]), DecodeRefused>
    ensures { Gives (λ x. (x.0, x.1.now)) result (inventory_fields bytes.now) }
{
    let (txn, rest) = txn_of(bytes)?;
    let (page, rest) = page_of(rest)?;
    let (category, rest) = category_of(rest)?;
    let inventory = LogRecord::Inventory {
        txn,
        page,
        category,
    };
    Ok((inventory, rest))
}

/// What a commit has after its kind byte, and the bytes after that.
#[tactic(auto, unfolding(crate::specs::Reading::commit_fields))]
fn commit_of(bytes: &[u8]) -> Result<(LogRecord, &[u8]), DecodeRefused>
    ensures { Gives (λ x. (x.0, x.1.now)) result (commit_fields bytes.now) }
{
    let (txn, rest) = txn_of(bytes)?;
    Ok((LogRecord::Commit { txn }, rest))
}

/// What an end has after its kind byte, and the bytes after that.
#[tactic(auto, unfolding(crate::specs::Reading::end_fields))]
fn end_of(bytes: &[u8]) -> Result<(LogRecord, &[u8]), DecodeRefused>
    ensures { Gives (λ x. (x.0, x.1.now)) result (end_fields bytes.now) }
{
    let (txn, rest) = txn_of(bytes)?;
    Ok((LogRecord::End { txn }, rest))
}

/// What a checkpoint has after its kind byte, and the bytes after that.
#[tactic(auto, unfolding(crate::specs::Reading::checkpoint_fields))]
fn checkpoint_of(alloc: Global, bytes: &[u8]) -> Result<(LogRecord, &[u8]), DecodeRefused>
    ensures { Gives (λ x. (x.0, x.1.now)) result (checkpoint_fields bytes.now) }
{
    let (next, rest) = next_of(bytes)?;
    let (losers, rest) = places_of(alloc, rest, 1, u32::MAX)?;
    let (pages, rest) = places_of(alloc, rest, 0, MAX_PAGES - 1)?;
    let (blocks, rest) = places_of(alloc, rest, 0, MAX_BLOCKS - 1)?;
    let checkpoint = LogRecord::Checkpoint {
        next,
        losers,
        pages,
        blocks,
    };
    Ok((checkpoint, rest))
}

/// What a record of this kind has after its kind byte, and the bytes after that.
#[tactic(auto, unfolding(crate::specs::Reading::fields_of))]
fn fields_of(alloc: Global, kind: u8, bytes: &[u8]) -> Result<(LogRecord, &[u8]), DecodeRefused>
    ensures { Gives (λ x. (x.0, x.1.now)) result (fields_of kind bytes.now) }
{
    match kind {
        INSERT => insert_of(alloc, bytes),
        DELETE => delete_of(alloc, bytes),
        UPDATE => update_of(alloc, bytes),
        COMPENSATE => compensate_of(alloc, bytes),
        INVENTORY => inventory_of(bytes),
        COMMIT => commit_of(bytes),
        END => end_of(bytes),
        CHECKPOINT => checkpoint_of(alloc, bytes),
        _ => Err(DecodeRefused::Bad),
    }
}

/// A record, and the bytes after it.
fn record_of(alloc: Global, bytes: &[u8]) -> Result<(LogRecord, &[u8]), DecodeRefused>
    ensures { Gives (λ x. (x.0, x.1.now)) result (record_field bytes.now) }
{
    match bytes {
        [kind, rest @ ..] => fields_of(alloc, *kind, rest),
        [] => Err(DecodeRefused::Bad),
    }
}

impl LogRecord {
    /// The record whose spelling is a prefix of the bytes, and the length of that spelling. Bytes may follow it.
    /// Memory is taken for its rows and lists alone.
    ///
    /// # Errors
    ///
    /// [`DecodeRefused::Bad`]: no prefix of the bytes is the spelling of a record. [`DecodeRefused::NoMemory`]: out of
    /// memory for its rows and lists.
    pub fn decode(alloc: Global, bytes: &[u8]) -> Result<(LogRecord, usize), DecodeRefused>
        ensures found { IfOk result (λ found. IsRecord found.0 × (found.1 ≡ length (spelling found.0)) × (bytes.now ≡ spelling found.0 ++ drop found.1 bytes.now)) }
        ensures prefix { IfOk result (λ found. (found.1 ≤ length bytes.now) × (take found.1 bytes.now ≡ spelling found.0)) }
        ensures bad { result ≡ Err DecodeRefused.Bad → (logged : AnyRecord) (rest : List ℕ) → IsRecord logged → bytes.now ≡ spelling logged ++ rest → ⊥ }
    {
        match record_of(alloc, bytes) {
            Ok((found, rest)) => Ok((found, bytes.len() - rest.len())),
            Err(refused) => Err(refused),
        }
    }
}
