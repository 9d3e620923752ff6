//! The two steps of an undo.

ghost use Rattle.std.specs.Prelude.{◌≡◌, ◌/◌, ◌≤◌, Some, IfErr, IfNone, IfOk, IfSome, IsTrue, OnErr, OnOk};
ghost use Rattle.rm_types.specs.declared.areas.Area.TheVariants.{Log};
ghost use Rattle.rm_types.specs.declared.numbers.TheConstants.{BLOCK_PAGES};
ghost use Rattle.rm_types.specs.declared.rows.TheConstants.{MAX_ROW};
ghost use Rattle.rm_model.specs.Pages.{row_length};
ghost use Rattle.rm_outside.specs.Calls.{StoreFailsIn};
ghost use Rattle.rm_record.specs.Records.{IsRecord, IsTxn};
ghost use Rattle.rm_record.specs.declared.records.TheConstants.{MAX_RECORDED_CATEGORY};
ghost use Rattle.rm_history.specs.Contents.{entry_of};
ghost use Rattle.rm_pool.specs.Journals.{EndsNext};
ghost use Rattle.rm_pool.specs.Stores.{CannotWrite, HasShortTail, IsStill, next_of, written};
ghost use Rattle.rm_undo.specs.Changes.{IsDamageAt, OfChange, category_without};
ghost use Rattle.rm_undo.specs.Undoing.{CannotSettle, CannotUndo, Compensated, CompensatedFor, Settled, SettlesFor};

use crate::changes::{Pending, change_at, damaged};
use rm_apply::ApplyRefused;
use rm_outside::Volume;
use rm_pool::Store;
use rm_record::LogRecord;
use rm_types::{BLOCK_PAGES, Format, Lsn, Slot, StoreFault, TxnId};
use std::alloc::Global;

/// What an undo wrote, and what it gave back.
#[derive(Clone, Copy, Debug)]
pub struct Undone {
    /// The LSN of the compensation.
    pub lsn: Lsn,
    /// The page that holds again what it held.
    pub page: u32,
    /// The bytes that were reserved for the transaction on the page before the change.
    pub need: u16,
    /// The LSN of the transaction's pending record below the change, 0 for none.
    pub next: Lsn,
    /// The length of the row that the slot holds again, 0 for none.
    pub before: u16,
}

// The bytes of the row in a slot, 0 for none.
fn held_bytes(slot: &Slot) -> u16
    ensures value { result ≡ row_length slot.now }
    ensures bound { result ≤ MAX_ROW }
{
    match slot {
        Slot::Vacant => 0,
        Slot::Row(row) => row.as_slice().len() as u16,
    }
}

// The category of the fixed page once the change is undone, where its entry in the fixed block is another.
fn category_to_enter<V: Volume>(store: &Store<V>, format: Format, pending: &Pending) -> Option<u8>
    requires page { store.now.frames.page ≡ Some pending.now.rid.page }
    requires block { store.now.frames.block ≡ Some (pending.now.rid.page / BLOCK_PAGES) }
    ensures right { IfNone result (entry_of store.now.journal.history pending.now.rid.page ≡ category_without format store.now.journal.history pending.now) }
    ensures wrong { IfSome result (λ category. entry_of store.now.journal.history pending.now.rid.page ≡ category → ⊥) }
    ensures value { IfSome result (λ category. category ≡ category_without format store.now.journal.history pending.now) }
    ensures bound { IfSome result (λ category. category ≤ MAX_RECORDED_CATEGORY) }
{
    let len = usize::from(held_bytes(&pending.before));
    let category = store.page().category_with(format, pending.rid.slot, len);
    let entry = store
        .inventory()
        .entry((pending.rid.page % BLOCK_PAGES) as u16);
    if entry == category {
        None
    } else {
        Some(category)
    }
}

// Writes a record of the undo of the change with that LSN.
fn write<V: Volume>(store: &mut Store<V>, what: LogRecord, lsn: Lsn) -> Result<Lsn, StoreFault>
    requires is_record { IsRecord what }
    requires short { HasShortTail store.old }
    ensures next { EndsNext store.old.journal }
    ensures lsn { IfOk result (λ lsn. lsn.0 ≡ next_of store.old) }
    ensures ok { OnOk result (store.new ≡ written store.old what) }
    ensures err { OnErr result (store.new ≡ store.old) }
    ensures volume { store.new.journal.volume ≡ store.old.journal.volume }
    ensures damaged { IfErr result (IsDamageAt lsn (CannotWrite store.old what)) }
    ensures cause { StoreFailsIn V.Volume Log store.old.journal.opened store.new.journal.volume result }
{
    match store.write(what) {
        Ok(written) => Ok(written),
        Err(ApplyRefused::Unfit) => Err(damaged(lsn)),
        Err(ApplyRefused::NoMemory) => Err(StoreFault::NoMemory),
    }
}

/// Makes the page's entry in the inventory right for the undo of the transaction's change with that LSN: its category
/// once the change is undone. Gives the LSN of the record that enters it, or none where the entry was right: then only
/// what is fixed has changed. The undo is to follow.
///
/// # Errors
///
/// What was logged stays. [`Damaged`](rm_types::Fault::Damaged) with area Log and the LSN: the log has no such change,
/// or one that no log of this file has, or it would pass 2^48 bytes. [`Volume`](rm_types::Fault::Volume) with area Log,
/// where it failed. [`StoreFault::NoMemory`].
pub fn undo_settle<V: Volume>(
    store: &mut Store<V>,
    alloc: Global,
    format: Format,
    txn: TxnId,
    lsn: Lsn,
) -> Result<Option<Lsn>, StoreFault>
    requires known { IsTrue store.old.journal.is_known }
    requires short { HasShortTail store.old }
    requires txn { IsTxn txn }
    ensures ok { IfOk result (λ entered. Settled txn store.old entered store.new) }
    ensures settles { IfOk result (λ entered. OfChange (V.models_content store.new.journal.volume) store.old.journal.history txn lsn
        (λ c. SettlesFor format c store.old.journal.history entered store.new.journal.history)) }
    ensures err { OnErr result (IsStill store.old store.new) }
    ensures modelled { V.models_content store.new.journal.volume → V.models_content store.old.journal.volume }
    ensures known { OnErr result (store.new.journal.is_known ≡ store.old.journal.is_known) }
    ensures damaged { IfErr result (IsDamageAt lsn (OfChange (V.models_content store.new.journal.volume) store.old.journal.history txn lsn (CannotSettle format txn lsn store.old))) }
    ensures cause { StoreFailsIn V.Volume Log store.old.journal.opened store.new.journal.volume result }
{
    let pending = change_at(store, alloc, txn, lsn)?;
    let page = pending.rid.page;
    store.fix(page)?;
    store.fix_block(page / BLOCK_PAGES)?;
    let Some(category) = category_to_enter(store, format, &pending) else {
        return Ok(None);
    };
    Ok(Some(write(
        store,
        LogRecord::Inventory {
            txn,
            page,
            category,
        },
        lsn,
    )?))
}

/// Undoes the transaction's change with that LSN: writes the compensation, which moves to the slot what it held. The
/// page's entry is to be right for it, see [`undo_settle`].
///
/// # Errors
///
/// As [`undo_settle`].
pub fn undo_change<V: Volume>(
    store: &mut Store<V>,
    alloc: Global,
    txn: TxnId,
    lsn: Lsn,
) -> Result<Undone, StoreFault>
    requires known { IsTrue store.old.journal.is_known }
    requires short { HasShortTail store.old }
    requires txn { IsTxn txn }
    ensures ok { IfOk result (λ undone. Compensated txn lsn store.old undone store.new) }
    ensures undoes { IfOk result (λ undone. OfChange (V.models_content store.new.journal.volume) store.old.journal.history txn lsn
        (λ c. CompensatedFor c (next_of store.old) store.old.journal.history undone store.new.journal.history)) }
    ensures err { OnErr result (IsStill store.old store.new) }
    ensures modelled { V.models_content store.new.journal.volume → V.models_content store.old.journal.volume }
    ensures known { OnErr result (store.new.journal.is_known ≡ store.old.journal.is_known) }
    ensures damaged { IfErr result (IsDamageAt lsn (OfChange (V.models_content store.new.journal.volume) store.old.journal.history txn lsn (CannotUndo txn lsn store.old))) }
    ensures cause { StoreFailsIn V.Volume Log store.old.journal.opened store.new.journal.volume result }
{
    let pending = change_at(store, alloc, txn, lsn)?;
    let page = pending.rid.page;
    store.fix(page)?;
    let (need, next) = (pending.need, pending.under);
    let before = held_bytes(&pending.before);
    let what = LogRecord::Compensate {
        txn,
        undone: lsn,
        next,
        rid: pending.rid,
        back: pending.before,
    };
    let lsn = write(store, what, lsn)?;
    Ok(Undone {
        lsn,
        page,
        need,
        next,
        before,
    })
}
