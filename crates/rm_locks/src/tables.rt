//! The entries, and each transaction's list of its own.

ghost use Rattle.std.specs.Prelude.{◌≡◌, ◌≢◌, ℕ, false, OnOk, OnErr, IfSome, IfNone, Contains};
ghost use Rattle.rm_types.specs.declared.numbers.Rid.{Rid as Rids};
ghost use Rattle.rm_locks.specs.LockTable.{entry_in, IsReady, is_incompatible as is_incompatible_with, IsFree, IsLeastBlocker, KeepsLocks, KeepsOthers, is_same_lock, raised as raised_by, Grants};
ghost use Rattle.rm_locks.specs.Lists.{IsListed, AreListed};

use crate::keys::LockKey;
use rm_types::{Mode, NoMemory, Rid, TxnId};
use std::collections::BTreeMap;
use std::collections::btree_map::Entry;

// The locks, each with its mode, and the entries without a mode, which are room for one.
pub(crate) type Entries = BTreeMap<LockKey, Option<Mode>>;

// The row ids of each transaction's entries.
pub(crate) type Lists = BTreeMap<TxnId, Vec<Rid>>;

// Whether the lock that one transaction has, if any, is incompatible with another's in this mode.
fn is_incompatible(held: Option<Mode>, mode: Mode) -> bool
    ensures { result ≡ is_incompatible_with held mode }
{
    match mode {
        Mode::Shared => held == Some(Mode::Exclusive),
        Mode::Exclusive => held.is_some(),
    }
}

// The least other transaction that blocks a lock. An entry on another row id ends the search.
pub(crate) fn least_blocker(entries: &Entries, txn: TxnId, rid: Rid, mode: Mode) -> Option<TxnId>
    ensures some { IfSome result (λ holder. IsLeastBlocker entries.now.entries txn.0 rid mode holder.0) }
    ensures none { IfNone result (IsFree entries.now.entries txn.0 rid mode) }
{
    let first = LockKey { rid, txn: TxnId(0) };
    entries
        .range(first..)
        .find(|(key, held)| key.rid != rid || key.txn != txn && is_incompatible(**held, mode))
        .filter(|(key, _)| key.rid == rid)
        .map(|(key, _)| key.txn)
}

// The mode of a transaction's lock, if any, after one more grant, in this mode.
fn raised(held: Option<Mode>, mode: Mode) -> Mode
    ensures { result ≡ raised_by held mode }
{
    match mode {
        Mode::Shared => held.unwrap_or(Mode::Shared),
        Mode::Exclusive => Mode::Exclusive,
    }
}

// Puts a row id into its transaction's list.
fn list(lists: &mut Lists, txn: TxnId, rid: Rid) -> Result<(), NoMemory>
    ensures listed { OnOk result (IsListed lists.new txn.0 rid) }
    ensures others { (other : ℕ) (at : Rids) → IsListed lists.old other at → IsListed lists.new other at }
{
    let rids = lists.entry(txn)?.or_default();
    rids.push(rid)?;
    Ok(())
}

// Makes an entry without a mode, where there is none.
pub(crate) fn make_room(
    entries: &mut Entries,
    lists: &mut Lists,
    txn: TxnId,
    rid: Rid,
) -> Result<(), NoMemory>
    ensures ok { OnOk result (IsReady entries.new.entries txn.0 rid) }
    ensures same { KeepsLocks entries.old.entries entries.new.entries }
    ensures others { KeepsOthers entries.old.entries entries.new.entries txn.0 rid }
    ensures listed { AreListed lists.old entries.old.entries → AreListed lists.new entries.new.entries }
    ensures err { OnErr result (entries.new.entries ≡ entries.old.entries) }
{
    match entries.entry(LockKey { rid, txn })? {
        Entry::Occupied(_) => {}
        Entry::Vacant(entry) => {
            list(lists, txn, rid)?;
            entry.insert(None);
        }
    }
    Ok(())
}

// Grants a lock in the entry that has room for it.
pub(crate) fn set_mode(entries: &mut Entries, txn: TxnId, rid: Rid, mode: Mode)
    requires { IsReady entries.old.entries txn.0 rid }
    ensures grants { Grants entries.old.entries entries.new.entries txn.0 rid mode }
    ensures no_more { (other : ℕ) (at : Rids) → IsReady entries.new.entries other at → IsReady entries.old.entries other at }
{
    if let Some(held) = entries.get_mut(&LockKey { rid, txn }) {
        *held = Some(raised(*held, mode));
    }
}

// Takes out a transaction's entries, which are on these row ids.
pub(crate) fn remove_all(entries: &mut Entries, txn: TxnId, mut rids: Vec<Rid>)
    requires { (rid : Rids) → IsReady entries.old.entries txn.0 rid → Contains rids.items rid }
    ensures gone { (rid : Rids) → IsReady entries.new.entries txn.0 rid → ⊥ }
    ensures others { (other : ℕ) (rid : Rids) → other ≢ txn.0 → entry_in entries.new.entries other rid ≡ entry_in entries.old.entries other rid }
{
    while let Some(rid) = rids.pop() {
        entries.remove(&LockKey { rid, txn });
    }
}
