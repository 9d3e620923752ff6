//! Whether a record of a transaction may come after a log.

ghost use Rattle.std.specs.Prelude.{◌≡◌, ℕ, IfOk};
ghost use Rattle.rm_types.specs.declared.formats.Format.{Format as Formats};
ghost use Rattle.rm_history.specs.Acts.{changes, undoes, enters, commits, ends, acts_of};
ghost use Rattle.rm_history.specs.Pending.{last_of, pending_of};
ghost use Rattle.rm_history.specs.Transactions.{IsFinished};
ghost use Rattle.rm_history.specs.Rules.{MayChange, MayUndo, MayEnter, MayEnd};
ghost use Rattle.rm_audit.specs.Verdicts.{coming_of, IsFound};

use crate::changes::Change;
use crate::needs::need;
use crate::pages::page;
use crate::pending::last_pending;
use crate::slots::{are_same, holds};
use crate::transactions::{is_finished, open_other};
use crate::verdicts::Illegal;
use rm_record::Logged;
use rm_types::{Lsn, NoMemory, Rid, Slot, TxnId};
use std::alloc::Global;

// The LSN of a transaction's last pending change, 0 for none.
pub(crate) fn last_lsn(alloc: Global, log: &[Logged], txn: TxnId) -> Result<Lsn, NoMemory>
    ensures { IfOk result (λ lsn. lsn.0 ≡ last_of (pending_of (acts_of log.now) txn.0)) }
{
    match last_pending(alloc, log, txn)? {
        Some(last) => Ok(last.lsn),
        None => Ok(Lsn(0)),
    }
}

/// What a change breaks first of what may come after a log.
pub(crate) fn check_change(
    alloc: Global,
    log: &[Logged],
    change: &Change,
) -> Result<Option<Illegal>, NoMemory>
    ensures { (format : Formats) → IfOk result (IsFound format (MayChange (acts_of log.now) change.now) (coming_of (changes change.now)) (acts_of log.now) (changes change.now)) }
{
    let txn = change.txn;
    let rid = change.rid;
    if is_finished(log, txn) {
        return Ok(Some(Illegal::Finished));
    }
    if !holds(&page(alloc, log, rid.page)?, rid.slot, &change.before) {
        return Ok(Some(Illegal::NotHeld));
    }
    if open_other(log, txn, rid).is_some() {
        return Ok(Some(Illegal::Others));
    }
    if change.under.0 != last_lsn(alloc, log, txn)?.0 {
        return Ok(Some(Illegal::Under));
    }
    if change.need as u128 != need(alloc, log, txn, rid.page)? {
        return Ok(Some(Illegal::Need));
    }
    Ok(None)
}

/// What a compensation breaks first of what may come after a log.
pub(crate) fn check_undo(
    alloc: Global,
    log: &[Logged],
    txn: TxnId,
    undone: Lsn,
    next: Lsn,
    rid: Rid,
    back: &Slot,
) -> Result<Option<Illegal>, NoMemory>
    ensures { (format : Formats) (lsn : ℕ) → IfOk result (IsFound format (MayUndo (acts_of log.now) (record { lsn = lsn; txn = txn.0; undone = undone.0; next = next.0; rid = rid; back = back.now }))
        (coming_of (undoes (record { lsn = lsn; txn = txn.0; undone = undone.0; next = next.0; rid = rid; back = back.now }))) (acts_of log.now)
        (undoes (record { lsn = lsn; txn = txn.0; undone = undone.0; next = next.0; rid = rid; back = back.now }))) }
{
    if is_finished(log, txn) {
        return Ok(Some(Illegal::Finished));
    }
    let Some(last) = last_pending(alloc, log, txn)? else {
        return Ok(Some(Illegal::Undone));
    };
    if undone.0 != last.lsn.0 {
        return Ok(Some(Illegal::Undone));
    }
    if rid != last.rid {
        return Ok(Some(Illegal::Rid));
    }
    if next.0 != last.under.0 {
        return Ok(Some(Illegal::Next));
    }
    if !are_same(back, &last.before) {
        return Ok(Some(Illegal::Back));
    }
    Ok(None)
}

/// What an inventory record breaks first of what may come after a log.
pub(crate) fn check_entry(
    alloc: Global,
    log: &[Logged],
    txn: TxnId,
    number: u32,
) -> Result<Option<Illegal>, NoMemory>
    ensures { (format : Formats) (lsn category : ℕ) → IfOk result (IsFound format (MayEnter (acts_of log.now) (record { lsn = lsn; txn = txn.0; page = number; category = category }))
        (coming_of (enters (record { lsn = lsn; txn = txn.0; page = number; category = category }))) (acts_of log.now)
        (enters (record { lsn = lsn; txn = txn.0; page = number; category = category }))) }
{
    if is_finished(log, txn) {
        return Ok(Some(Illegal::Finished));
    }
    let Some(last) = last_pending(alloc, log, txn)? else {
        return Ok(Some(Illegal::NoChange));
    };
    if last.rid.page != number {
        return Ok(Some(Illegal::NoChange));
    }
    Ok(None)
}

/// What a commit breaks of what may come after a log.
pub(crate) fn check_commit(log: &[Logged], txn: TxnId) -> Option<Illegal>
    ensures { (format : Formats) (lsn : ℕ) → IsFound format (IsFinished (acts_of log.now) txn.0 → ⊥) (coming_of (commits (record { lsn = lsn; txn = txn.0 }))) (acts_of log.now) (commits (record { lsn = lsn; txn = txn.0 })) result }
{
    if is_finished(log, txn) {
        Some(Illegal::Finished)
    } else {
        None
    }
}

/// What an end breaks first of what may come after a log.
pub(crate) fn check_end(
    alloc: Global,
    log: &[Logged],
    txn: TxnId,
) -> Result<Option<Illegal>, NoMemory>
    ensures { (format : Formats) (lsn : ℕ) → IfOk result (IsFound format (MayEnd (acts_of log.now) (record { lsn = lsn; txn = txn.0 })) (coming_of (ends (record { lsn = lsn; txn = txn.0 }))) (acts_of log.now) (ends (record { lsn = lsn; txn = txn.0 }))) }
{
    if is_finished(log, txn) {
        return Ok(Some(Illegal::Finished));
    }
    match last_pending(alloc, log, txn)? {
        Some(_last) => Ok(Some(Illegal::StillPending)),
        None => Ok(None),
    }
}
