//! Whether a record has what it asks of the inventory.

ghost use Rattle.std.specs.Prelude.{◌≡◌, ℕ, IfOk, MatchBool};
ghost use Rattle.rm_history.specs.Acts.{Change as Changes, undoes, enters, act_of, acts_of};
ghost use Rattle.rm_history.specs.Contents.{entry_of};
ghost use Rattle.rm_history.specs.Rules.{IsLast, MayEnter, MayCome};
ghost use Rattle.rm_history.specs.Legal.{category_with as category_with_slot, IsEntry, IsEntered};
ghost use Rattle.rm_audit.specs.Verdicts.{entering_of, IsFound};

use crate::pages::{category_now, category_with, entry};
use crate::pending::last_pending;
use crate::verdicts::Illegal;
use rm_record::{LogRecord, Logged};
use rm_types::{Format, NoMemory, Rid, Slot, TxnId};
use std::alloc::Global;

// What a compensation breaks of what it asks of the inventory.
fn check_back(
    alloc: Global,
    format: Format,
    log: &[Logged],
    rid: Rid,
    back: &Slot,
) -> Result<Option<Illegal>, NoMemory>
    ensures { (lsn txn undone next : ℕ) → IfOk result (IsFound format (entry_of (acts_of log.now) rid.page ≡ category_with_slot format (acts_of log.now) rid back.now)
        (entering_of (undoes (record { lsn = lsn; txn = txn; undone = undone; next = next; rid = rid; back = back.now }))) (acts_of log.now)
        (undoes (record { lsn = lsn; txn = txn; undone = undone; next = next; rid = rid; back = back.now }))) }
{
    if entry(log, rid.page) != category_with(alloc, format, log, rid, back)? {
        return Ok(Some(Illegal::Entry));
    }
    Ok(None)
}

// Whether a category is that of the page of a transaction's last pending change once this is undone.
fn is_undone(
    alloc: Global,
    format: Format,
    log: &[Logged],
    txn: TxnId,
    category: u8,
) -> Result<bool, NoMemory>
    ensures { IfOk result (λ is. MatchBool is
        ((last : Changes) × IsLast (acts_of log.now) txn.0 last × (category ≡ category_with_slot format (acts_of log.now) last.rid last.before))
        ((last : Changes) → IsLast (acts_of log.now) txn.0 last → category ≡ category_with_slot format (acts_of log.now) last.rid last.before → ⊥)) }
{
    match last_pending(alloc, log, txn)? {
        Some(last) => Ok(category == category_with(alloc, format, log, last.rid, &last.before)?),
        None => Ok(false),
    }
}

// What an inventory record that may come breaks first of what it asks of the inventory.
fn check_category(
    alloc: Global,
    format: Format,
    log: &[Logged],
    txn: TxnId,
    number: u32,
    category: u8,
) -> Result<Option<Illegal>, NoMemory>
    ensures { (lsn : ℕ) → MayEnter (acts_of log.now) (record { lsn = lsn; txn = txn.0; page = number; category = category })
        → IfOk result (IsFound format (IsEntry format (acts_of log.now) (record { lsn = lsn; txn = txn.0; page = number; category = category }))
        (entering_of (enters (record { lsn = lsn; txn = txn.0; page = number; category = category }))) (acts_of log.now)
        (enters (record { lsn = lsn; txn = txn.0; page = number; category = category }))) }
{
    if category == entry(log, number) {
        return Ok(Some(Illegal::SameCategory));
    }
    if category == category_now(alloc, format, log, number)? {
        return Ok(None);
    }
    if is_undone(alloc, format, log, txn, category)? {
        return Ok(None);
    }
    Ok(Some(Illegal::WrongCategory))
}

/// What a record that may come after a log breaks first of what it asks of the inventory.
pub(crate) fn check_inventory(
    alloc: Global,
    format: Format,
    log: &[Logged],
    logged: &Logged,
) -> Result<Option<Illegal>, NoMemory>
    ensures { MayCome (acts_of log.now) (act_of logged.now)
        → IfOk result (IsFound format (IsEntered format (acts_of log.now) (act_of logged.now)) (entering_of (act_of logged.now)) (acts_of log.now) (act_of logged.now)) }
{
    match &logged.what {
        LogRecord::Compensate { rid, back, .. } => check_back(alloc, format, log, *rid, back),
        LogRecord::Inventory {
            txn,
            page,
            category,
        } => check_category(alloc, format, log, *txn, *page, *category),
        _ => Ok(None),
    }
}
