//! Which change is to be undone.

ghost use Rattle.std.specs.Prelude.{◌≡◌, ◌<◌, IfErr, IfOk, IsTrue};
ghost use Rattle.rm_outside.specs.Calls.{StoreFailsIn};
ghost use Rattle.rm_pool.specs.Stores.{on_volume};
ghost use Rattle.rm_undo.specs.Changes.{IsAstray, IsDamageAt, IsOf, MayGoBack, OfChange, change_in};

use rm_outside::Volume;
use rm_pool::Store;
use rm_record::LogRecord;
use rm_types::{Area, Fault, Lsn, Rid, Slot, StoreFault, TxnId};
use std::alloc::Global;

/// What of a change its undo asks for: its transaction, the pending record below it, the row id, the bytes that were
/// reserved for the transaction on the page before it, and what the slot held.
#[derive(Drop)]
pub struct Pending {
    pub txn: TxnId,
    pub under: Lsn,
    pub rid: Rid,
    pub need: u16,
    pub before: Slot,
}

// The change that a record makes, if it makes one.
fn change_in(what: LogRecord) -> Option<Pending>
    ensures { result ≡ change_in what }
{
    let (txn, under, rid, need, before) = match what {
        LogRecord::Insert {
            txn,
            under,
            rid,
            need,
            row: _row,
        } => (txn, under, rid, need, Slot::Vacant),
        LogRecord::Delete {
            txn,
            under,
            rid,
            need,
            old,
        } => (txn, under, rid, need, Slot::Row(old)),
        LogRecord::Update {
            txn,
            under,
            rid,
            need,
            old,
            new: _new,
        } => (txn, under, rid, need, Slot::Row(old)),
        LogRecord::Compensate { back: _back, .. } => return None,
        LogRecord::Inventory { .. } | LogRecord::Commit { .. } | LogRecord::End { .. } =>
            return None,
        LogRecord::Checkpoint {
            losers: _losers,
            pages: _pages,
            blocks: _blocks,
            ..
        } => return None,
    };
    Some(Pending {
        txn,
        under,
        rid,
        need,
        before,
    })
}

// The log says of this record what no legal log does.
pub fn damaged(lsn: Lsn) -> StoreFault
    ensures { result ≡ StoreFault.Fault (Fault.Damaged Area.Log lsn.0) }
{
    StoreFault::Fault(Fault::Damaged {
        area: Area::Log,
        at: lsn.0,
    })
}

/// The transaction's change with that LSN, on a page of the file. The record below it has a smaller LSN.
pub fn change_at<V: Volume>(
    store: &mut Store<V>,
    alloc: Global,
    txn: TxnId,
    lsn: Lsn,
) -> Result<Pending, StoreFault>
    requires { IsTrue store.old.journal.is_known }
    ensures found { IfOk result (λ pending. OfChange (V.models_content store.new.journal.volume) store.old.journal.history txn lsn (λ c. IsOf c pending)) }
    ensures txn { IfOk result (λ pending. pending.txn ≡ txn) }
    ensures under { IfOk result (λ pending. pending.under.0 < lsn.0) }
    ensures inside { IfOk result (λ pending. pending.rid.page < store.old.frames.size) }
    ensures back { IfOk result MayGoBack }
    ensures damaged { IfErr result (IsDamageAt lsn (OfChange (V.models_content store.new.journal.volume) store.old.journal.history txn lsn (IsAstray lsn store.old.frames.size))) }
    ensures modelled { V.models_content store.new.journal.volume → V.models_content store.old.journal.volume }
    ensures cause { StoreFailsIn V.Volume Area.Log store.old.journal.opened store.new.journal.volume result }
    ensures same { store.new ≡ on_volume store.old store.new.journal.volume }
{
    let found = store.at(alloc, lsn)?;
    let Some(pending) = change_in(found) else {
        return Err(damaged(lsn));
    };
    if pending.txn != txn || pending.under >= lsn || pending.rid.page >= store.size() {
        return Err(damaged(lsn));
    }
    Ok(pending)
}
