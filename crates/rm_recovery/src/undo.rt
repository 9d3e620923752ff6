//! Undo of what a crash left unfinished.

ghost use Rattle.std.specs.Prelude.{◌≡◌, [], IfOk, IsTrue, OnOk, length};
ghost use Rattle.rm_types.specs.declared.areas.Area.TheVariants.{Log as log_area};
ghost use Rattle.rm_types.specs.declared.formats.Format.TheVariants.{One};
ghost use Rattle.rm_outside.specs.Calls.{StoreFailsIn};
ghost use Rattle.rm_history.specs.Losers.{losers_of};
ghost use Rattle.rm_history.specs.Pending.{all_pending};
ghost use Rattle.rm_history.specs.Transactions.{greatest_txn};
ghost use Rattle.rm_pool.specs.Journals.{EndsNext};
ghost use Rattle.rm_pool.specs.Stores.{HasShortTail, IsCurrent};
ghost use Rattle.rm_recovery.specs.Losers.{AreLosers};
ghost use Rattle.rm_recovery.specs.Undone.{GoesOn, HasOneLess, HasSameLosers, HasSamePending, IsNewest, IsNextLoser, IsRightForNewest, LosesOne, Steps, Stops};

use crate::losers::Losers;
use rm_apply::ApplyRefused;
use rm_outside::Volume;
use rm_pool::Store;
use rm_record::LogRecord;
use rm_types::{Area, Fault, Format, Lsn, Place, StoreFault, TxnId};
use rm_undo::{undo_change, undo_settle};
use std::alloc::Global;

// Makes room in the tail of the log for any record.
fn make_room<V: Volume>(store: &mut Store<V>) -> Result<(), StoreFault>
    requires { IsTrue store.old.journal.is_known }
    ensures step { Steps V.Volume store.old store.new }
    ensures goes { OnOk result (GoesOn store.old store.new) }
    ensures short { OnOk result (HasShortTail store.new) }
    ensures next { OnOk result (EndsNext store.new.journal) }
    ensures current { OnOk result (IsCurrent store.new) }
    ensures same { store.new.journal.history ≡ store.old.journal.history }
    ensures damaged { Stops V.Volume store.old store.new result }
    ensures cause { StoreFailsIn V.Volume log_area store.old.journal.opened store.new.journal.volume result }
{
    match store.flush_long() {
        Ok(()) => {
            // Where the next record stands.
            let _next = store.end();
            Ok(())
        }
        Err(fault) => Err(StoreFault::Fault(fault)),
    }
}

// Makes the entry of the page right for the undo of the newest pending change.
fn enter<V: Volume>(store: &mut Store<V>, alloc: Global, place: Place) -> Result<(), StoreFault>
    requires known { IsTrue store.old.journal.is_known }
    requires short { HasShortTail store.old }
    requires next { EndsNext store.old.journal }
    requires current { IsCurrent store.old }
    requires newest { IsNewest store.old.journal.history place }
    ensures step { Steps V.Volume store.old store.new }
    ensures goes { OnOk result (GoesOn store.old store.new) }
    ensures pending { OnOk result (HasSamePending store.old.journal.history store.new.journal.history) }
    ensures right { OnOk result (V.models_content store.new.journal.volume → IsRightForNewest One store.new.journal.history) }
    ensures damaged { Stops V.Volume store.old store.new result }
    ensures cause { StoreFailsIn V.Volume log_area store.old.journal.opened store.new.journal.volume result }
{
    match undo_settle(
        store,
        alloc,
        Format::One,
        TxnId(place.number),
        Lsn(place.at),
    ) {
        Ok(_) => Ok(()),
        Err(fault) => Err(fault),
    }
}

// The same, with room made in the log before.
fn settle<V: Volume>(store: &mut Store<V>, alloc: Global, place: Place) -> Result<(), StoreFault>
    requires known { IsTrue store.old.journal.is_known }
    requires newest { IsNewest store.old.journal.history place }
    ensures step { Steps V.Volume store.old store.new }
    ensures goes { OnOk result (GoesOn store.old store.new) }
    ensures pending { OnOk result (HasSamePending store.old.journal.history store.new.journal.history) }
    ensures right { OnOk result (V.models_content store.new.journal.volume → IsRightForNewest One store.new.journal.history) }
    ensures damaged { Stops V.Volume store.old store.new result }
    ensures cause { StoreFailsIn V.Volume log_area store.old.journal.opened store.new.journal.volume result }
{
    make_room(store)?;
    enter(store, alloc, place)
}

// Undoes the newest pending change. The entry of its page is right.
fn compensate<V: Volume>(
    store: &mut Store<V>,
    alloc: Global,
    place: Place,
) -> Result<(), StoreFault>
    requires known { IsTrue store.old.journal.is_known }
    requires short { HasShortTail store.old }
    requires next { EndsNext store.old.journal }
    requires current { IsCurrent store.old }
    requires newest { IsNewest store.old.journal.history place }
    requires right { V.models_content store.old.journal.volume → IsRightForNewest One store.old.journal.history }
    ensures step { Steps V.Volume store.old store.new }
    ensures goes { OnOk result (GoesOn store.old store.new) }
    ensures pending { OnOk result (HasOneLess store.old.journal.history store.new.journal.history) }
    ensures damaged { Stops V.Volume store.old store.new result }
    ensures cause { StoreFailsIn V.Volume log_area store.old.journal.opened store.new.journal.volume result }
{
    match undo_change(store, alloc, TxnId(place.number), Lsn(place.at)) {
        Ok(_) => Ok(()),
        Err(fault) => Err(fault),
    }
}

// The same, with room made in the log before.
fn take_back<V: Volume>(store: &mut Store<V>, alloc: Global, place: Place) -> Result<(), StoreFault>
    requires known { IsTrue store.old.journal.is_known }
    requires newest { IsNewest store.old.journal.history place }
    requires right { V.models_content store.old.journal.volume → IsRightForNewest One store.old.journal.history }
    ensures step { Steps V.Volume store.old store.new }
    ensures goes { OnOk result (GoesOn store.old store.new) }
    ensures pending { OnOk result (HasOneLess store.old.journal.history store.new.journal.history) }
    ensures damaged { Stops V.Volume store.old store.new result }
    ensures cause { StoreFailsIn V.Volume log_area store.old.journal.opened store.new.journal.volume result }
{
    make_room(store)?;
    compensate(store, alloc, place)
}

// Undoes the newest pending change, its page's entry first.
fn undo_newest<V: Volume>(
    store: &mut Store<V>,
    alloc: Global,
    place: Place,
) -> Result<(), StoreFault>
    requires known { IsTrue store.old.journal.is_known }
    requires newest { IsNewest store.old.journal.history place }
    ensures step { Steps V.Volume store.old store.new }
    ensures goes { OnOk result (GoesOn store.old store.new) }
    ensures pending { OnOk result (HasOneLess store.old.journal.history store.new.journal.history) }
    ensures damaged { Stops V.Volume store.old store.new result }
    ensures cause { StoreFailsIn V.Volume log_area store.old.journal.opened store.new.journal.volume result }
{
    settle(store, alloc, place)?;
    take_back(store, alloc, place)
}

// Undoes all that is pending, the newest change first, and tells how many there were.
fn undo_all<V: Volume>(
    store: &mut Store<V>,
    alloc: Global,
    losers: &mut Losers,
) -> Result<u64, StoreFault>
    requires known { IsTrue store.old.journal.is_known }
    requires losers { AreLosers store.old.journal.history losers.old }
    ensures step { Steps V.Volume store.old store.new }
    ensures goes { OnOk result (GoesOn store.old store.new) }
    ensures none { OnOk result (all_pending store.new.journal.history ≡ []) }
    ensures same { OnOk result (HasSameLosers store.old.journal.history store.new.journal.history) }
    ensures losers { OnOk result (AreLosers store.new.journal.history losers.new) }
    ensures count { IfOk result (λ undone. undone ≡ length (all_pending store.old.journal.history)) }
    ensures damaged { Stops V.Volume store.old store.new result }
    ensures cause { StoreFailsIn V.Volume log_area store.old.journal.opened store.new.journal.volume result }
{
    let mut undone = 0;
    while let Some(place) = losers.newest() {
        undo_newest(store, alloc, place)?;
        losers.pending.pop_front();
        undone += 1;
    }
    Ok(undone)
}

// Ends the loser with the least id.
fn end<V: Volume>(store: &mut Store<V>, txn: TxnId) -> Result<(), StoreFault>
    requires known { IsTrue store.old.journal.is_known }
    requires short { HasShortTail store.old }
    requires next { IsNextLoser store.old.journal.history txn.0 }
    ensures step { Steps V.Volume store.old store.new }
    ensures goes { OnOk result (GoesOn store.old store.new) }
    ensures ended { OnOk result (LosesOne store.old.journal.history store.new.journal.history) }
    ensures damaged { Stops V.Volume store.old store.new result }
    ensures cause { StoreFailsIn V.Volume log_area store.old.journal.opened store.new.journal.volume result }
{
    let at = store.end();
    match store.write(LogRecord::End { txn }) {
        Ok(_) => Ok(()),
        Err(ApplyRefused::Unfit) => Err(StoreFault::Fault(Fault::Damaged {
            area: Area::Log,
            at,
        })),
        Err(ApplyRefused::NoMemory) => Err(StoreFault::NoMemory),
    }
}

// The same, with room made in the log before.
fn end_next<V: Volume>(store: &mut Store<V>, txn: TxnId) -> Result<(), StoreFault>
    requires known { IsTrue store.old.journal.is_known }
    requires next { IsNextLoser store.old.journal.history txn.0 }
    ensures step { Steps V.Volume store.old store.new }
    ensures goes { OnOk result (GoesOn store.old store.new) }
    ensures ended { OnOk result (LosesOne store.old.journal.history store.new.journal.history) }
    ensures damaged { Stops V.Volume store.old store.new result }
    ensures cause { StoreFailsIn V.Volume log_area store.old.journal.opened store.new.journal.volume result }
{
    make_room(store)?;
    end(store, txn)
}

// Ends all losers, in order of their ids. Nothing is pending.
fn end_all<V: Volume>(store: &mut Store<V>, losers: &mut Losers) -> Result<(), StoreFault>
    requires known { IsTrue store.old.journal.is_known }
    requires losers { AreLosers store.old.journal.history losers.old }
    requires none { all_pending store.old.journal.history ≡ [] }
    ensures step { Steps V.Volume store.old store.new }
    ensures goes { OnOk result (GoesOn store.old store.new) }
    ensures none { OnOk result (all_pending store.new.journal.history ≡ []) }
    ensures ended { OnOk result (losers_of store.new.journal.history ≡ []) }
    ensures greatest { OnOk result (greatest_txn store.new.journal.history ≡ greatest_txn store.old.journal.history) }
    ensures damaged { Stops V.Volume store.old store.new result }
    ensures cause { StoreFailsIn V.Volume log_area store.old.journal.opened store.new.journal.volume result }
{
    while let Some(txn) = losers.unfinished.pop_first() {
        end_next(store, TxnId(txn))?;
    }
    Ok(())
}

// Undoes all that is pending and ends all losers. Tells how many changes were undone.
fn undo_and_end<V: Volume>(
    store: &mut Store<V>,
    alloc: Global,
    losers: Losers,
) -> Result<u64, StoreFault>
    requires known { IsTrue store.old.journal.is_known }
    requires losers { AreLosers store.old.journal.history losers }
    ensures step { Steps V.Volume store.old store.new }
    ensures goes { OnOk result (GoesOn store.old store.new) }
    ensures none { OnOk result (all_pending store.new.journal.history ≡ []) }
    ensures ended { OnOk result (losers_of store.new.journal.history ≡ []) }
    ensures greatest { OnOk result (greatest_txn store.new.journal.history ≡ greatest_txn store.old.journal.history) }
    ensures count { IfOk result (λ undone. undone ≡ length (all_pending store.old.journal.history)) }
    ensures damaged { Stops V.Volume store.old store.new result }
    ensures cause { StoreFailsIn V.Volume log_area store.old.journal.opened store.new.journal.volume result }
{
    let mut losers = losers;
    let undone = undo_all(store, alloc, &mut losers)?;
    end_all(store, &mut losers)?;
    Ok(undone)
}

/// Undoes all that is pending, ends all losers, and makes that durable. Tells how many changes were undone.
pub fn undo_losers<V: Volume>(
    store: &mut Store<V>,
    alloc: Global,
    losers: Losers,
) -> Result<u64, StoreFault>
    requires known { IsTrue store.old.journal.is_known }
    requires losers { AreLosers store.old.journal.history losers }
    ensures step { Steps V.Volume store.old store.new }
    ensures goes { OnOk result (GoesOn store.old store.new) }
    ensures durable { OnOk result (store.new.journal.durable ≡ store.new.journal.history) }
    ensures flushed { OnOk result (store.new.journal.log.tail ≡ []) }
    ensures none { OnOk result (all_pending store.new.journal.history ≡ []) }
    ensures ended { OnOk result (losers_of store.new.journal.history ≡ []) }
    ensures greatest { OnOk result (greatest_txn store.new.journal.history ≡ greatest_txn store.old.journal.history) }
    ensures count { IfOk result (λ undone. undone ≡ length (all_pending store.old.journal.history)) }
    ensures damaged { Stops V.Volume store.old store.new result }
    ensures cause { StoreFailsIn V.Volume log_area store.old.journal.opened store.new.journal.volume result }
{
    let undone = undo_and_end(store, alloc, losers)?;
    store.flush()?;
    Ok(undone)
}
