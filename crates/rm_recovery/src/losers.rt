//! What a restart keeps of the transactions of a log.

ghost use Rattle.std.specs.Prelude.{◌≡◌, List, [], ◌∷◌, ◌<◌, length, map, max, IfSome, IfNone, OnOk};
ghost use Rattle.std.specs.VecDeque.{deque_len};
ghost use Rattle.rm_types.specs.declared.places.Place.{Place as Places};
ghost use Rattle.rm_record.specs.Records.{IsRecord, IsTxn};
ghost use Rattle.rm_history.specs.Acts.{Change, History, act_of};
ghost use Rattle.rm_history.specs.Losers.{losers_of, with_number, without_number};
ghost use Rattle.rm_history.specs.Pending.{all_pending, without, without_newest};
ghost use Rattle.rm_recovery.specs.Losers.{AreLosers, HasNoneBefore, IsFirstOf, place_of};

use rm_record::{LogRecord, Logged};
use rm_types::{Lsn, NoMemory, Place, TxnId};
use std::alloc::Global;
use std::collections::{BTreeSet, VecDeque};

// Where the newest change of a transaction is, if it has one.
fn newest_of(pending: &VecDeque<Place>, txn: TxnId) -> Option<usize>
    ensures some { IfSome result (IsFirstOf txn.0 pending.now.items) }
    ensures bound { IfSome result (λ index. index < deque_len pending.now) }
    ensures none { IfNone result (HasNoneBefore txn.0 pending.now.items (length pending.now.items)) }
{
    for index in 0..pending.len() {
        if pending[index].number == txn.0 {
            return Some(index);
        }
    }
    None
}

// Takes out the newest change of a transaction, if it has one.
fn remove_newest(pending: &mut VecDeque<Place>, txn: TxnId)
    ensures { (changes : List Change) → pending.old.items ≡ map place_of changes → pending.new.items ≡ map place_of (without_newest changes txn.0) }
{
    if let Some(index) = newest_of(pending, txn) {
        pending.remove(index);
    }
}

// Takes out all changes of a transaction.
fn remove_of(pending: &mut VecDeque<Place>, txn: TxnId)
    ensures { (changes : List Change) → pending.old.items ≡ map place_of changes → pending.new.items ≡ map place_of (without changes txn.0) }
{
    pending.retain(|place| place.number != txn.0);
}

// With one more unfinished transaction.
fn add(unfinished: &mut BTreeSet<u32>, txn: TxnId) -> Result<(), NoMemory>
    ensures { OnOk result (unfinished.new.keys ≡ with_number txn.0 unfinished.old.keys) }
{
    match unfinished.insert(txn.0) {
        Ok(_) => Ok(()),
        Err(_) => Err(NoMemory),
    }
}

// Without one of them.
fn remove(unfinished: &mut BTreeSet<u32>, txn: TxnId)
    ensures { unfinished.new.keys ≡ without_number txn.0 unfinished.old.keys }
{
    unfinished.remove(&txn.0);
}

/// The transactions of a log: what is pending, the newest change first, each with its transaction and its LSN; which
/// transactions are not finished; and the greatest id.
#[derive(Debug, Drop)]
pub struct Losers {
    pub pending: VecDeque<Place>,
    pub unfinished: BTreeSet<u32>,
    pub greatest: u32,
}

impl Losers {
    /// Of an empty log.
    pub fn new(alloc: Global) -> Losers
        ensures { AreLosers [] result }
    {
        Losers {
            pending: VecDeque::new(alloc),
            unfinished: BTreeSet::new(alloc),
            greatest: 0,
        }
    }

    // A record of a transaction that is not finished by it.
    fn meet(&mut self, txn: TxnId) -> Result<(), NoMemory>
        ensures pending { OnOk result (self.new.pending.items ≡ self.old.pending.items) }
        ensures unfinished { OnOk result (self.new.unfinished.keys ≡ with_number txn.0 self.old.unfinished.keys) }
        ensures greatest { OnOk result (self.new.greatest ≡ max txn.0 self.old.greatest) }
    {
        add(&mut self.unfinished, txn)?;
        self.greatest = txn.0.max(self.greatest);
        Ok(())
    }

    // A change of a transaction.
    fn change(&mut self, txn: TxnId, lsn: Lsn) -> Result<(), NoMemory>
        ensures pending { OnOk result (self.new.pending.items ≡ record { number = txn.0; at = lsn.0 } ∷ self.old.pending.items) }
        ensures unfinished { OnOk result (self.new.unfinished.keys ≡ with_number txn.0 self.old.unfinished.keys) }
        ensures greatest { OnOk result (self.new.greatest ≡ max txn.0 self.old.greatest) }
    {
        self.pending.push_front(Place {
            number: txn.0,
            at: lsn.0,
        })?;
        self.meet(txn)
    }

    // A transaction's commit or end.
    fn finish(&mut self, txn: TxnId)
        ensures pending { (changes : List Change) → self.old.pending.items ≡ map place_of changes → self.new.pending.items ≡ map place_of (without changes txn.0) }
        ensures unfinished { self.new.unfinished.keys ≡ without_number txn.0 self.old.unfinished.keys }
        ensures greatest { self.new.greatest ≡ max txn.0 self.old.greatest }
    {
        remove_of(&mut self.pending, txn);
        remove(&mut self.unfinished, txn);
        self.greatest = txn.0.max(self.greatest);
    }

    /// With one more record of the log.
    pub fn note(&mut self, logged: &Logged) -> Result<(), NoMemory>
        requires { IsRecord logged.now.what }
        ensures { (history : History) → AreLosers history self.old → OnOk result (AreLosers (act_of logged.now ∷ history) self.new) }
    {
        match &logged.what {
            LogRecord::Insert { txn, .. } => self.change(*txn, logged.lsn),
            LogRecord::Delete { txn, .. } => self.change(*txn, logged.lsn),
            LogRecord::Update { txn, .. } => self.change(*txn, logged.lsn),
            LogRecord::Compensate { txn, .. } => {
                remove_newest(&mut self.pending, *txn);
                self.meet(*txn)
            }
            LogRecord::Inventory { txn, .. } => self.meet(*txn),
            LogRecord::Commit { txn } | LogRecord::End { txn } => {
                self.finish(*txn);
                Ok(())
            }
            LogRecord::Checkpoint { .. } => Ok(()),
        }
    }

    /// The newest pending change, if one is left.
    pub fn newest(&self) -> Option<Place>
        ensures some { IfSome result (λ place. (rest : List Places) × (self.now.pending.items ≡ place ∷ rest)) }
        ensures none { IfNone result (self.now.pending.items ≡ []) }
    {
        self.pending.front().copied()
    }
}
