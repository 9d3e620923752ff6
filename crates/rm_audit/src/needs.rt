//! The bytes that undo may need on a page.

ghost use Rattle.std.specs.Prelude.{◌≡◌, ℕ, ◌+◌, ◌*◌, ◌≤◌, ◌^◌, List, [], ◌∷◌, reverse, IsTrue, ◌↔◌, IfOk, OnOk, MatchOption};
ghost use Rattle.rm_types.specs.declared.rows.TheConstants.{MAX_ROW};
ghost use Rattle.rm_types.specs.declared.slots.TheConstants.{CAPACITY};
ghost use Rattle.rm_model.specs.Pages.{used as used_by};
ghost use Rattle.rm_history.specs.Acts.{Change as Changes, acts_of};
ghost use Rattle.rm_history.specs.Contents.{page_of};
ghost use Rattle.rm_model.specs.Sums.{sum_below};
ghost use Rattle.rm_history.specs.Needs.{need_of};
ghost use Rattle.rm_audit.specs.Parts.{need_in, IsLed};
ghost use Rattle.rm_audit.specs.NeedMaps.{need_at, HasNeeds};

use crate::changes::Change;
use crate::pages::{page, used};
use crate::pending::{all_pending, remove_of};
use crate::slots::bytes_in;
use rm_record::Logged;
use rm_types::{CAPACITY, NoMemory, TxnId};
use std::alloc::Global;
use std::collections::BTreeMap;

// What a transaction's undo needs on a page, with one more pending change above the others.
fn need_step(need: u128, change: &Change, txn: TxnId, page: u32) -> u128
    requires { need ≤ MAX_ROW * 2 ^ 64 }
    ensures value { (before : List Changes) → need ≡ need_in before page txn.0 → result ≡ need_in (change.now ∷ before) page txn.0 }
    ensures bound { result ≤ need + MAX_ROW }
{
    if change.txn.0 == txn.0 && change.rid.page == page {
        (need + bytes_in(&change.before) as u128).saturating_sub(bytes_in(&change.after) as u128)
    } else {
        need
    }
}

// What a transaction's undo needs on a page, where these changes are all that is pending, the oldest first.
#[tactic(auto, using(crate::proofs::Newest::reverse_more))]
fn need_among(pending: &[Change], txn: TxnId, page: u32) -> u128
    ensures { result ≡ need_in (reverse pending.now) page txn.0 }
{
    let mut need = 0;
    for change in pending {
        need = need_step(need, change, txn, page);
    }
    need
}

/// The bytes that a transaction's undo may need on a page. No type bounds how many changes there are, so the count
/// is wide.
#[tactic(auto, using(rm_history::proofs::AllPending::pending_of_all))]
pub fn need(alloc: Global, log: &[Logged], txn: TxnId, page: u32) -> Result<u128, NoMemory>
    ensures { IfOk result (λ need. need ≡ need_of (acts_of log.now) txn.0 page) }
{
    let pending = all_pending(alloc, log)?;
    Ok(need_among(&pending, txn, page))
}

// The transaction of the last of these changes.
fn last_txn(pending: &[Change]) -> Option<TxnId>
    ensures { MatchOption result (pending.now ≡ []) (λ txn. IsLed txn.0 (reverse pending.now)) }
{
    let last = pending.last()?;
    Some(last.txn)
}

// Whether the undo of all transactions needs no more than this on a page, where these changes are all that is pending,
// the oldest first.
fn needs_fit(mut left: Vec<Change>, page: u32, mut room: u128) -> bool
    ensures { IsTrue result ↔ ((n : ℕ) → sum_below (need_in (reverse left.items) page) n ≤ room) }
{
    while let Some(txn) = last_txn(&left) {
        let need = need_among(&left, txn, page);
        if need > room {
            return false;
        }
        room -= need;
        remove_of(&mut left, txn);
    }
    true
}

// Has this need of a transaction.
fn put(needs: &mut BTreeMap<TxnId, u128>, txn: TxnId, need: u128) -> Result<(), NoMemory>
    ensures here { OnOk result (need_at needs.new txn.0 ≡ need) }
    ensures others { OnOk result ((other : ℕ) → (other ≡ txn.0 → ⊥) → need_at needs.new other ≡ need_at needs.old other) }
{
    needs.insert(txn, need)?;
    Ok(())
}

// What the undo of each transaction needs on a page, where these changes are all that is pending, the oldest first.
fn needs_among(
    alloc: Global,
    mut left: Vec<Change>,
    page: u32,
) -> Result<BTreeMap<TxnId, u128>, NoMemory>
    ensures { IfOk result (λ needs. HasNeeds needs (need_in (reverse left.items) page)) }
{
    let mut needs = BTreeMap::new(alloc);
    while let Some(txn) = last_txn(&left) {
        put(&mut needs, txn, need_among(&left, txn, page))?;
        remove_of(&mut left, txn);
    }
    Ok(needs)
}

/// The bytes that undo may need on a page, of each transaction that has a pending change anywhere, in order of ids.
pub fn needs_on(alloc: Global, log: &[Logged], page: u32) -> Result<BTreeMap<TxnId, u128>, NoMemory>
    ensures { IfOk result (λ needs. HasNeeds needs (λ txn. need_of (acts_of log.now) txn page)) }
{
    let pending = all_pending(alloc, log)?;
    Ok(needs_among(alloc, pending, page)?)
}

/// Whether a page has room for what it holds and for what all transactions' undo needs there.
pub(crate) fn fits(alloc: Global, log: &[Logged], number: u32) -> Result<bool, NoMemory>
    ensures { IfOk result (λ fits. IsTrue fits ↔ ((n : ℕ) → used_by (page_of (acts_of log.now) number) + sum_below (λ txn. need_of (acts_of log.now) txn number) n ≤ CAPACITY)) }
{
    let used = used(&page(alloc, log, number)?);
    let pending = all_pending(alloc, log)?;
    match (CAPACITY as u128).checked_sub(used) {
        Some(room) => Ok(needs_fit(pending, number, room)),
        None => Ok(false),
    }
}
