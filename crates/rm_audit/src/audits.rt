//! Whether a log is legal.

ghost use Rattle.std.specs.Prelude.{◌≡◌, ℕ, ◌+◌, ◌<◌, ◌∷◌, Ok, length, take, slice_get, IsTrue, Some, ◌↔◌, IfOk, MatchOption, MatchBool};
ghost use Rattle.rm_types.specs.declared.formats.Format.{Format as Formats};
ghost use Rattle.rm_types.specs.declared.numbers.Lsn.{Lsn as Lsns};
ghost use Rattle.rm_history.specs.Acts.{History, act_of, acts_of, newest_lsn};
ghost use Rattle.rm_history.specs.Needs.{Fits};
ghost use Rattle.rm_history.specs.Rules.{MayCome};
ghost use Rattle.rm_history.specs.Legal.{IsEntered, EntriesFollow, IsLegal};
ghost use Rattle.rm_audit.specs.Parts.{page_in};
ghost use Rattle.rm_audit.specs.Verdicts.{coming_of, conditions_of, IsFound, IsFirstIllegal};
ghost use Rattle.rm_audit.specs.declared.verdicts.Illegal.{Illegal as Illegals};

use crate::changes::change_of;
use crate::entries::each_follows;
use crate::inventory::check_inventory;
use crate::listings::check_listing;
use crate::needs::fits;
use crate::rules::{check_change, check_commit, check_end, check_entry, check_undo};
use crate::verdicts::{Illegal, Verdict};
use rm_record::{LogRecord, Logged};
use rm_types::{Format, Lsn, NoMemory};
use std::alloc::Global;

// Whether an LSN is above that of the last record of a log.
fn is_above(log: &[Logged], lsn: Lsn) -> bool
    ensures { IsTrue result ↔ (newest_lsn (acts_of log.now) < lsn.0) }
{
    match log.last() {
        Some(last) => last.lsn.0 < lsn.0,
        None => 0 < lsn.0,
    }
}

// What a record breaks first of what may come after a log.
fn check_kind(alloc: Global, log: &[Logged], logged: &Logged) -> Result<Option<Illegal>, NoMemory>
    ensures { (format : Formats) → IfOk result (IsFound format (MayCome (acts_of log.now) (act_of logged.now)) (coming_of (act_of logged.now)) (acts_of log.now) (act_of logged.now)) }
{
    if let Some(change) = change_of(logged)? {
        return check_change(alloc, log, &change);
    }
    match &logged.what {
        LogRecord::Compensate {
            txn,
            undone,
            next,
            rid,
            back,
        } => check_undo(alloc, log, *txn, *undone, *next, *rid, back),
        LogRecord::Inventory { txn, page, .. } => check_entry(alloc, log, *txn, *page),
        LogRecord::Commit { txn } => Ok(check_commit(log, *txn)),
        LogRecord::End { txn } => check_end(alloc, log, *txn),
        LogRecord::Checkpoint { next, losers, .. } => check_listing(
            alloc,
            log,
            *next,
            losers.as_slice(),
        ),
        _ => Ok(None),
    }
}

// The page whose slot a record sets, if it sets one.
fn page_of_record(logged: &Logged) -> Option<u32>
    ensures { result ≡ page_in (act_of logged.now) }
{
    match &logged.what {
        LogRecord::Insert { rid, .. }
        | LogRecord::Delete { rid, .. }
        | LogRecord::Update { rid, .. }
        | LogRecord::Compensate { rid, .. } => Some(rid.page),
        _ => None,
    }
}

// Whether there is room after the last record of a log, where it may come and there was room before.
fn has_room(alloc: Global, log: &[Logged], last: &Logged) -> Result<bool, NoMemory>
    ensures { (before : History) → acts_of log.now ≡ act_of last.now ∷ before
        → IfOk result (λ room. MatchBool room (MayCome before (act_of last.now) → Fits before → Fits (acts_of log.now)) (Fits (acts_of log.now) → ⊥)) }
{
    match page_of_record(last) {
        Some(page) => fits(alloc, log, page),
        None => Ok(true),
    }
}

// Whether the inventory follows after the last record of a log, where this may come and has what it asks of the
// inventory, which followed before.
fn has_followed(
    alloc: Global,
    format: Format,
    before: &[Logged],
    log: &[Logged],
    last: &Logged,
) -> Result<bool, NoMemory>
    ensures { acts_of log.now ≡ act_of last.now ∷ acts_of before.now
        → IfOk result (λ follows. MatchBool follows (MayCome (acts_of before.now) (act_of last.now) → IsEntered format (acts_of before.now) (act_of last.now) → EntriesFollow format (acts_of before.now) → EntriesFollow format (acts_of log.now)) (EntriesFollow format (acts_of log.now) → ⊥)) }
{
    match &last.what {
        LogRecord::Commit { txn } => each_follows(alloc, format, before, log, *txn),
        _ => Ok(true),
    }
}

// What the last record of a log breaks first after those before it, which make a legal log.
fn judge(
    alloc: Global,
    format: Format,
    before: &[Logged],
    log: &[Logged],
    last: &Logged,
) -> Result<Option<Illegal>, NoMemory>
    requires after { acts_of log.now ≡ act_of last.now ∷ acts_of before.now }
    requires legal { IsLegal format (acts_of before.now) }
    ensures { IfOk result (IsFound format (IsLegal format (act_of last.now ∷ acts_of before.now)) (conditions_of (act_of last.now)) (acts_of before.now) (act_of last.now)) }
{
    if !is_above(before, last.lsn) {
        return Ok(Some(Illegal::NotAbove));
    }
    if let Some(why) = check_kind(alloc, before, last)? {
        return Ok(Some(why));
    }
    if !has_room(alloc, log, last)? {
        return Ok(Some(Illegal::NoRoom));
    }
    if let Some(why) = check_inventory(alloc, format, before, last)? {
        return Ok(Some(why));
    }
    if !has_followed(alloc, format, before, log, last)? {
        return Ok(Some(Illegal::EntryBehind));
    }
    Ok(None)
}

/// Whether a log is legal, and else the LSN of the first record with which it is not, and the first condition, in the
/// order of [`Illegal`], that this record breaks. The format is that in which the log begins.
pub fn audit(alloc: Global, format: Format, log: &[Logged]) -> Result<Verdict, NoMemory>
    ensures legal { IfOk result (λ verdict. (verdict ≡ Verdict.Legal) ↔ IsLegal format (acts_of log.now)) }
    ensures illegal { (lsn : Lsns) (why : Illegals) → result ≡ Ok (Verdict.Illegal lsn why) → IsFirstIllegal format log.now lsn why }
{
    for at in 0..log.len() {
        let record = &log[at];
        if let Some(why) = judge(alloc, format, &log[..at], &log[..at + 1], record)? {
            let lsn = record.lsn;
            return Ok(Verdict::Illegal { lsn, why });
        }
    }
    Ok(Verdict::Legal)
}
