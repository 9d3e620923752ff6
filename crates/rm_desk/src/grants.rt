//! The row locks, as the machine's list of grants.

ghost use Rattle.std.specs.Prelude.{◌≡◌, ◌≤◌, [], None, IsTrue, ◌↔◌, OnOk, OnErr};
ghost use Rattle.rm_core.specs.Below.{MAX_SLOT, IsSlotForRow};
ghost use Rattle.rm_core.specs.Names.{joined, released, IsHeld};
ghost use Rattle.rm_play.specs.Choosing.{blocker};
ghost use Rattle.rm_locks.specs.LockTable.{IsReady};
ghost use Rattle.rm_ops.specs.Views.{is_alone, number_in};

use rm_locks::Locks;
use rm_noted::Noted;
use rm_page::Page;
use rm_types::{Mode, NoMemory, Rid, TxnId};
use std::alloc::Global;
use std::marker::Model;

// What is noted: a list of grants.
struct GrantList {}

impl Model for GrantList {
    ghost use Rattle.std.specs.Prelude.{List, []};
    ghost use Rattle.rm_core.specs.Names.{Grant};

    ghost Value = { List Grant };

    ghost view = { λ _. [] };
}

// The row locks of all transactions: the machine's grants, in its order, and the entries that stand for them.
#[derive(Drop)]
pub(crate) struct Grants {
    locks: Locks,
    granted: Noted<GrantList>,
}

impl Model for Grants {
    ghost use Rattle.rm_desk.specs.Granted.{Granted, Stands};

    ghost Value = { Granted };

    ghost view = { λ grants. record { grants = grants.granted; entries = grants.locks } };

    ghost invariant = { λ grants. Stands grants.locks grants.granted };
}

impl Grants {
    // No transaction has a lock.
    pub(crate) fn new(alloc: Global) -> Grants
        ensures { result.grants ≡ [] }
    {
        Grants {
            locks: Locks::new(alloc),
            granted: Noted::of(&()),
        }
    }

    // The least transaction other than `txn` whose locks refuse it one in this mode, if there is one.
    pub(crate) fn blocker(&self, txn: TxnId, rid: Rid, mode: Mode) -> Option<TxnId>
        ensures { number_in result ≡ blocker self.now.grants txn.0 rid (is_alone mode) }
    {
        self.locks.blocker(txn, rid, mode)
    }

    // Whether another transaction has a lock on the row id. It is on a slot that a page may have.
    fn is_held(&self, txn: TxnId, rid: Rid) -> bool
        ensures held { IsTrue result ↔ IsHeld self.now.grants txn.0 rid.page rid.slot }
        ensures inside { IsTrue result → rid.slot ≤ MAX_SLOT }
    {
        self.locks.blocker(txn, rid, Mode::Exclusive).is_some()
    }

    // Makes room for a lock, so that [`Grants::grant`] takes no memory. All locks stay.
    pub(crate) fn ready(&mut self, txn: TxnId, rid: Rid) -> Result<(), NoMemory>
        ensures ok { OnOk result (IsReady self.new.entries txn.0 rid) }
        ensures same { self.new.grants ≡ self.old.grants }
    {
        self.locks.ready(txn, rid)
    }

    // Gives a transaction the lock for which [`Grants::ready`] made room, and [`Grants::blocker`] finds none.
    pub(crate) fn grant(&mut self, txn: TxnId, rid: Rid, mode: Mode)
        requires ready { IsReady self.old.entries txn.0 rid }
        requires free { blocker self.old.grants txn.0 rid (is_alone mode) ≡ None }
        requires inside { rid.slot ≤ MAX_SLOT }
        ensures { self.new.grants ≡ joined self.old.grants (record { txn = txn.0; rid = rid; alone = is_alone mode }) }
    {
        self.locks.grant(txn, rid, mode);
        self.granted = Noted::of(&(&self.granted, txn, rid, mode));
    }

    // Takes away all locks of a transaction.
    pub(crate) fn release(&mut self, txn: TxnId)
        ensures { self.new.grants ≡ released self.old.grants txn.0 }
    {
        self.locks.release_all(txn);
        self.granted = Noted::of(&(&self.granted, txn));
    }

    // The slot for a new row of a transaction on a page, whose number is `number`: the least that is vacant, or past the
    // directory, and on which no other transaction has a lock.
    pub(crate) fn slot_for(&self, page: &Page, number: u32, txn: TxnId) -> u16
        ensures { IsSlotForRow (IsHeld self.now.grants txn.0 number) page.now.slots result }
    {
        let mut slot = page.least_vacant(0);
        while self.is_held(txn, Rid { page: number, slot }) {
            slot = page.least_vacant(slot + 1);
        }
        slot
    }
}
