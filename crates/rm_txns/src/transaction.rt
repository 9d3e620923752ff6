//! One transaction.

ghost use Rattle.std.specs.Prelude.{◌≡◌, ◌+◌, ◌≤◌, ◌<◌, ◌^◌, OnOk, OnErr};
ghost use Rattle.rm_txns.specs.Transactions.{begun, after_push, after_pop, after_save, after_back, after_commit};

use crate::savepoints::Savepoints;
use rm_types::{Lsn, NoMemory, TxnId};
use std::alloc::Global;

/// What an unfinished transaction owes the log in bytes, and what each of its pending records owes beside its before
/// row.
pub const OWED: u64 = 64;

/// A session's transaction.
#[derive(Debug, Drop)]
pub struct Txn {
    /// Its id.
    pub id: TxnId,
    /// The LSN of its last pending record, 0 for none.
    pub undo: Lsn,
    /// Its savepoints.
    pub saves: Savepoints,
    /// What it owes the log, in bytes.
    pub owed: u64,
    /// Whether it has made a record that can be undone, pending or not.
    pub pushed: bool,
    /// Whether it has its commit record.
    pub committed: bool,
}

impl Txn {
    // A transaction that has made no record yet.
    pub(crate) fn begin(alloc: Global, id: TxnId) -> Txn
        ensures { result ≡ begun id }
    {
        Txn {
            id,
            undo: Lsn(0),
            saves: Savepoints::new(alloc),
            owed: OWED,
            pushed: false,
            committed: false,
        }
    }

    // A new last pending record, with this many bytes of before row.
    pub(crate) fn push(&mut self, lsn: Lsn, before: u16)
        requires { self.old.owed + OWED + before < 2 ^ 64 }
        ensures { self.new ≡ after_push lsn before self.old }
    {
        self.undo = lsn;
        self.owed += OWED + before as u64;
        self.pushed = true;
    }

    // The last pending record is undone; the one below it stands at `next`.
    pub(crate) fn pop(&mut self, next: Lsn, before: u16)
        requires { OWED + before ≤ self.old.owed }
        ensures { self.new ≡ after_pop next before self.old }
    {
        self.undo = next;
        self.owed -= OWED + before as u64;
    }

    // Sets a savepoint.
    pub(crate) fn save(&mut self, number: u8) -> Result<(), NoMemory>
        ensures ok { OnOk result (self.new ≡ after_save number self.old) }
        ensures err { OnErr result (self.new ≡ self.old) }
    {
        self.saves.save(number, self.undo)
    }

    // The savepoints after that of the number are dropped.
    pub(crate) fn back(&mut self, number: u8)
        ensures { self.new ≡ after_back number self.old }
    {
        self.saves.back(number);
    }

    // It has its commit record.
    pub(crate) fn commit(&mut self)
        ensures { self.new ≡ after_commit self.old }
    {
        self.undo = Lsn(0);
        self.owed = 0;
        self.committed = true;
    }
}
