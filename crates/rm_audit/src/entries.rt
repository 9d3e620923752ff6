//! Whether the inventory follows the pages.

ghost use Rattle.std.specs.Prelude.{◌≡◌, List, ◌∷◌, reverse, IfOk, MatchBool};
ghost use Rattle.rm_history.specs.Acts.{Change as Changes, acts_of};
ghost use Rattle.rm_history.specs.Pending.{pending_of};
ghost use Rattle.rm_history.specs.Legal.{IsPendingOn, EntriesFollow};
ghost use Rattle.rm_history.specs.Legal.{FollowsOn};
ghost use Rattle.rm_audit.specs.Parts.{IsSomeOn, EachFollows};

use crate::changes::Change;
use crate::pages::{category_now, entry};
use crate::pending::{all_pending, pending_changes};
use rm_record::Logged;
use rm_types::{Format, NoMemory, TxnId};
use std::alloc::Global;

// A transaction with a change on the page, with one change more above the others.
fn some_on_step(found: Option<u32>, change: &Change, page: u32) -> Option<u32>
    ensures { (before : List Changes) → IsSomeOn page before found → IsSomeOn page (change.now ∷ before) result }
{
    if change.rid.page == page {
        Some(change.txn.0)
    } else {
        found
    }
}

// A transaction that has one of these changes, the oldest first, on the page, if one has.
fn some_on(pending: &[Change], page: u32) -> Option<u32>
    ensures { IsSomeOn page (reverse pending.now) result }
{
    let mut found = None;
    for change in pending {
        found = some_on_step(found, change, page);
    }
    found
}

// Whether some transaction has a pending change on the page.
#[tactic(auto, using(crate::proofs::OnPage::nothing_on, crate::proofs::OnPage::something_on))]
fn is_pending_on(alloc: Global, log: &[Logged], page: u32) -> Result<bool, NoMemory>
    ensures { IfOk result (λ is. MatchBool is (IsPendingOn (acts_of log.now) page) (IsPendingOn (acts_of log.now) page → ⊥)) }
{
    let pending = all_pending(alloc, log)?;
    match some_on(&pending, page) {
        Some(_txn) => Ok(true),
        None => Ok(false),
    }
}

// Whether a page's entry is its category, or it has a pending change.
fn follows(alloc: Global, format: Format, log: &[Logged], page: u32) -> Result<bool, NoMemory>
    ensures { IfOk result (λ follows. MatchBool follows (FollowsOn format (acts_of log.now) page) (FollowsOn format (acts_of log.now) page → ⊥)) }
{
    if entry(log, page) == category_now(alloc, format, log, page)? {
        return Ok(true);
    }
    is_pending_on(alloc, log, page)
}

// Whether each page of these changes follows, the oldest first.
#[tactic(auto, using(crate::proofs::Newest::reverse_more))]
fn all_follow(
    alloc: Global,
    format: Format,
    log: &[Logged],
    pending: &[Change],
) -> Result<bool, NoMemory>
    ensures { IfOk result (λ follow. MatchBool follow (EachFollows format (acts_of log.now) (reverse pending.now)) (EntriesFollow format (acts_of log.now) → ⊥)) }
{
    for change in pending {
        if !follows(alloc, format, log, change.rid.page)? {
            return Ok(false);
        }
    }
    Ok(true)
}

/// Whether each page follows on which a transaction had a pending change: `before` is the log without its commit, and
/// `log` with it.
pub(crate) fn each_follows(
    alloc: Global,
    format: Format,
    before: &[Logged],
    log: &[Logged],
    txn: TxnId,
) -> Result<bool, NoMemory>
    ensures { IfOk result (λ follow. MatchBool follow (EachFollows format (acts_of log.now) (pending_of (acts_of before.now) txn.0)) (EntriesFollow format (acts_of log.now) → ⊥)) }
{
    let pending = pending_changes(alloc, before, txn)?;
    all_follow(alloc, format, log, &pending)
}
