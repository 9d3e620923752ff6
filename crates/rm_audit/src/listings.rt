//! Whether a checkpoint may come after a log.

ghost use Rattle.std.specs.Prelude.{◌≡◌, ℕ, ◌<◌, List, IsTrue, ◌↔◌, IfOk, MatchOption, MatchBool};
ghost use Rattle.rm_types.specs.declared.formats.Format.{Format as Formats};
ghost use Rattle.rm_types.specs.declared.places.Place.{Place as Places};
ghost use Rattle.rm_history.specs.Acts.{lists, marks, acts_of};
ghost use Rattle.rm_history.specs.Pending.{last_of, pending_of};
ghost use Rattle.rm_history.specs.Transactions.{IsFinished, HasRecord};
ghost use Rattle.rm_history.specs.Rules.{IsIn, MayList};
ghost use Rattle.rm_audit.specs.Parts.{IsNamed};
ghost use Rattle.rm_audit.specs.Verdicts.{coming_of, IsFound};

use crate::rules::last_lsn;
use crate::transactions::{has_record, is_finished, txn_of};
use crate::verdicts::Illegal;
use rm_record::Logged;
use rm_types::{NoMemory, Place, TxnId};
use std::alloc::Global;

// A transaction with a record whose id is not below this one, if there is one.
#[tactic(auto, using(crate::proofs::Prefixes::acts_more))]
fn not_below(log: &[Logged], next: u64) -> Option<TxnId>
    ensures { MatchOption result ((txn : ℕ) → HasRecord (acts_of log.now) txn → txn < next)
        (λ txn. HasRecord (acts_of log.now) txn.0 × (txn.0 < next → ⊥)) }
{
    for logged in log {
        if let Some(txn) = txn_of(logged) {
            if txn.0 as u64 >= next {
                return Some(txn);
            }
        }
    }
    None
}

// Whether one of the places has this number.
fn is_named(places: &[Place], number: u32) -> bool
    ensures { MatchBool result (IsNamed places.now number) ((place : Places) → IsIn places.now place → place.number ≡ number → ⊥) }
{
    for place in places {
        if place.number == number {
            return true;
        }
    }
    false
}

// Whether a transaction is not finished, and none of the places is for it. There is no transaction 0.
fn is_forgotten(log: &[Logged], losers: &[Place], txn: TxnId) -> bool
    ensures { MatchBool result
        ((txn.0 ≡ 0 → ⊥) × (IsFinished (acts_of log.now) txn.0 → ⊥) × ((place : Places) → IsIn losers.now place → place.number ≡ txn.0 → ⊥))
        ((txn.0 ≡ 0 → ⊥) → (IsFinished (acts_of log.now) txn.0 → ⊥) → IsNamed losers.now txn.0) }
{
    txn.0 != 0 && !is_named(losers, txn.0) && !is_finished(log, txn)
}

// A transaction that has a record and is not finished, and for which none of the places is, if there is one.
#[tactic(auto, using(crate::proofs::Prefixes::acts_more))]
fn forgotten(log: &[Logged], losers: &[Place]) -> Option<TxnId>
    ensures { MatchOption result ((txn : ℕ) → (txn ≡ 0 → ⊥) → HasRecord (acts_of log.now) txn → (IsFinished (acts_of log.now) txn → ⊥) → IsNamed losers.now txn)
        (λ txn. (txn.0 ≡ 0 → ⊥) × HasRecord (acts_of log.now) txn.0 × (IsFinished (acts_of log.now) txn.0 → ⊥) × ((place : Places) → IsIn losers.now place → place.number ≡ txn.0 → ⊥)) }
{
    for logged in log {
        if let Some(txn) = txn_of(logged) {
            if is_forgotten(log, losers, txn) {
                return Some(txn);
            }
        }
    }
    None
}

// Whether a transaction has a record and is not finished.
fn is_loser(log: &[Logged], txn: TxnId) -> bool
    ensures { MatchBool result (HasRecord (acts_of log.now) txn.0 × (IsFinished (acts_of log.now) txn.0 → ⊥)) (HasRecord (acts_of log.now) txn.0 → IsFinished (acts_of log.now) txn.0) }
{
    has_record(log, txn) && !is_finished(log, txn)
}

// A place whose transaction has no record or is finished, if there is one.
fn too_many(log: &[Logged], losers: &[Place]) -> Option<Place>
    ensures { MatchOption result ((place : Places) → IsIn losers.now place → HasRecord (acts_of log.now) place.number × (IsFinished (acts_of log.now) place.number → ⊥))
        (λ place. IsIn losers.now place × (HasRecord (acts_of log.now) place.number → IsFinished (acts_of log.now) place.number)) }
{
    for place in losers {
        if !is_loser(log, TxnId(place.number)) {
            return Some(*place);
        }
    }
    None
}

// A place that is not at its transaction's last pending change, if there is one.
fn misplaced(alloc: Global, log: &[Logged], losers: &[Place]) -> Result<Option<Place>, NoMemory>
    ensures { IfOk result (λ found. MatchOption found ((place : Places) → IsIn losers.now place → place.at ≡ last_of (pending_of (acts_of log.now) place.number))
        (λ place. IsIn losers.now place × (place.at ≡ last_of (pending_of (acts_of log.now) place.number) → ⊥))) }
{
    for place in losers {
        if place.at != last_lsn(alloc, log, TxnId(place.number))?.0 {
            return Ok(Some(*place));
        }
    }
    Ok(None)
}

/// What a checkpoint breaks first of what may come after a log.
pub(crate) fn check_listing(
    alloc: Global,
    log: &[Logged],
    next: u64,
    losers: &[Place],
) -> Result<Option<Illegal>, NoMemory>
    ensures { (format : Formats) (lsn : ℕ) (pages blocks : List Places) → IfOk result (IsFound format (MayList (acts_of log.now) (record { lsn = lsn; next = next; losers = losers.now; pages = pages; blocks = blocks }))
        (coming_of (marks (lists (record { lsn = lsn; next = next; losers = losers.now; pages = pages; blocks = blocks })))) (acts_of log.now)
        (marks (lists (record { lsn = lsn; next = next; losers = losers.now; pages = pages; blocks = blocks })))) }
{
    if not_below(log, next).is_some() {
        return Ok(Some(Illegal::NextId));
    }
    if forgotten(log, losers).is_some() {
        return Ok(Some(Illegal::Forgotten));
    }
    if too_many(log, losers).is_some() {
        return Ok(Some(Illegal::TooMany));
    }
    if misplaced(alloc, log, losers)?.is_some() {
        return Ok(Some(Illegal::LoserPlace));
    }
    Ok(None)
}
