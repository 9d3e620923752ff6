//! Row locks: which transactions have a lock on which row id, and in which mode.
//!
//! Shared locks on a row id stand beside each other, an exclusive one stands alone: where one transaction has an
//! exclusive lock, no other has any, at all times. A transaction's own locks never keep it from another.
//!
//! The locks are the entries of one map, in order of row ids and transactions. An entry without a mode is room for a
//! lock that is not granted yet. Each transaction's entries are listed beside the map, so that its release looks at no
//! others.
#![tactic(auto)]

mod keys;
mod refusals;
mod tables;

ghost use Rattle.std.specs.Prelude.{◌≡◌, ◌≢◌, ℕ, [], IsTrue, ◌↔◌, IfSome, IfNone, IfErr, OnOk, OnErr};
ghost use Rattle.rm_locks.specs.LockTable.{IsReady, Holds, AreCompatible, IsFree, IsLeastBlocker, Refuses, KeepsLocks, KeepsOthers, Grants, Releases};

pub use crate::refusals::LockRefused;
use crate::tables::{Entries, Lists, least_blocker, make_room, remove_all, set_mode};
use rm_types::{Mode, NoMemory, Rid, TxnId};
use std::alloc::Global;
use std::collections::BTreeMap;
use std::marker::Model;

/// The row locks of all transactions.
///
/// A call with a row id takes time logarithmic in the number of locks, and linear in that of the row id's own.
#[derive(Debug, Drop)]
pub struct Locks {
    entries: Entries,
    lists: Lists,
}

impl Model for Locks {
    ghost use Rattle.rm_locks.specs.LockTable.{LockTable, AreCompatible};
    ghost use Rattle.rm_locks.specs.Lists.{AreListed};

    ghost Value = { LockTable };

    ghost view = { λ locks. locks.entries.entries };

    ghost invariant = { λ locks. AreCompatible locks.entries.entries × AreListed locks.lists locks.entries.entries };
}

impl Locks {
    /// No transaction has a lock.
    pub fn new(alloc: Global) -> Locks
        ensures { result ≡ [] }
    {
        Locks {
            entries: BTreeMap::new(alloc),
            lists: BTreeMap::new(alloc),
        }
    }

    /// The least transaction other than `txn` whose lock on the row id keeps it from one in this mode: any lock from an
    /// exclusive one, an exclusive lock also from a shared one. None exactly where there is no such transaction.
    pub fn blocker(&self, txn: TxnId, rid: Rid, mode: Mode) -> Option<TxnId>
        ensures some { IfSome result (λ holder. IsLeastBlocker self.now txn.0 rid mode holder.0) }
        ensures none { IfNone result (IsFree self.now txn.0 rid mode) }
        ensures compatible { AreCompatible self.now }
    {
        least_blocker(&self.entries, txn, rid, mode)
    }

    /// Whether no transaction other than `txn` has a lock on the row id.
    pub fn free_for(&self, txn: TxnId, rid: Rid) -> bool
        ensures { IsTrue result ↔ ((other : ℕ) → other ≢ txn.0 → Holds self.now other rid → ⊥) }
    {
        self.blocker(txn, rid, Mode::Exclusive).is_none()
    }

    /// Makes room for a lock, so that [`Locks::grant`] takes no memory for it. All locks stay as they were, and so does
    /// all other room.
    ///
    /// # Errors
    ///
    /// [`NoMemory`] alone; then there is no more room than before.
    pub fn ready(&mut self, txn: TxnId, rid: Rid) -> Result<(), NoMemory>
        ensures ok { OnOk result (IsReady self.new txn.0 rid) }
        ensures same { KeepsLocks self.old self.new }
        ensures others { KeepsOthers self.old self.new txn.0 rid }
        ensures err { OnErr result (self.new ≡ self.old) }
    {
        make_room(&mut self.entries, &mut self.lists, txn, rid)
    }

    /// Gives a transaction the lock for which [`Locks::ready`] made room; the caller ensures that [`Locks::blocker`]
    /// finds none. An exclusive lock that it has already stays exclusive. It takes no memory.
    pub fn grant(&mut self, txn: TxnId, rid: Rid, mode: Mode)
        requires ready { IsReady self.old txn.0 rid }
        requires free { IsFree self.old txn.0 rid mode }
        ensures { Grants self.old self.new txn.0 rid mode }
    {
        set_mode(&mut self.entries, txn, rid, mode);
    }

    /// Gives a transaction the lock, if no other transaction blocks it. An exclusive lock that it has already stays
    /// exclusive.
    ///
    /// # Errors
    ///
    /// [`LockRefused::Held`] exactly where [`Locks::blocker`] finds a transaction, which it names. Else
    /// [`LockRefused::NoMemory`] may come. Either leaves all as it was.
    pub fn try_lock(&mut self, txn: TxnId, rid: Rid, mode: Mode) -> Result<(), LockRefused>
        ensures granted { OnOk result (Grants self.old self.new txn.0 rid mode) }
        ensures free { OnOk result (IsFree self.old txn.0 rid mode) }
        ensures refused { IfErr result (Refuses self.old txn.0 rid mode) }
        ensures err { OnErr result (self.new ≡ self.old) }
    {
        if let Some(holder) = self.blocker(txn, rid, mode) {
            return Err(LockRefused::Held { holder });
        }
        self.ready(txn, rid)?;
        self.grant(txn, rid, mode);
        Ok(())
    }

    /// Takes away all locks of a transaction, and the room that was made for it. It takes no memory, and time in
    /// proportion to these locks, times the logarithm of the number of all.
    pub fn release_all(&mut self, txn: TxnId)
        ensures { Releases self.old self.new txn.0 }
    {
        if let Some(rids) = self.lists.remove(&txn) {
            remove_all(&mut self.entries, txn, rids);
        }
    }
}
