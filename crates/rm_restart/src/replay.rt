//! Replaying the records of a log into the pages of a file.

ghost use Rattle.std.specs.Prelude.{◌≡◌, ℕ, ◌+◌, ◌^◌, ◌<◌, ◌≤◌, [], ◌∷◌, IfOk, OnOk, IfErr, IfSome, IfNone};
ghost use Rattle.rm_types.specs.declared.numbers.Lsn.{Lsn as Lsns};
ghost use Rattle.rm_model.specs.Files.{slots_of};
ghost use Rattle.rm_record.specs.declared.records.LogRecord.TheVariants as log;
ghost use Rattle.rm_history.specs.Acts.{History, act_at, act_of, acts_of};
ghost use Rattle.rm_apply.specs.declared.answers.ApplyRefused.TheVariants as apply;
ghost use Rattle.rm_apply.specs.Redo.{ChangesPage};
ghost use Rattle.rm_restart.specs.Opening.{IsMisfit, IsMisfitAt};
ghost use Rattle.rm_restart.specs.Outcomes.{IsLeastOf, IsNone};
ghost use Rattle.rm_restart.specs.Replaying.{AreRising, HaveLsnsBelow, IsInsertAt, IsRedone, LacksPlace, Replays};
ghost use Rattle.rm_restart.specs.Refusals.{IfMisfit};

use rm_apply::{ApplyRefused, redo};
use rm_page::{Page, empty_pages};
use rm_record::{LogRecord, Logged};
use rm_types::{Lsn, NoMemory, Rid, TxnId};
use std::alloc::{AllocError, AllocFailed, Global};
use std::collections::BTreeSet;

// Why a record was not replayed.
#[derive(Clone, Copy, Debug, PartialEq, Eq)]
pub enum ReplayRefused {
    // The record with this LSN names no page of the file, or its page has no room for its row, or it is of a kind that
    // no log has yet.
    Misfit { at: Lsn },
    NoMemory,
}

impl From<NoMemory> for ReplayRefused {
    ghost use Rattle.rm_restart.specs.declared.replay.ReplayRefused.TheVariants as refused;

    ghost from_gives = { λ _ replayed. replayed ≡ refused.NoMemory };

    fn from(_e: NoMemory) -> ReplayRefused {
        ReplayRefused::NoMemory
    }
}

// Redoes a record on the page of its row id. No page has the record, or a later one.
fn redo_on(pages: &mut [Page], rid: Rid, logged: &Logged) -> Result<(), ApplyRefused>
    requires page { ChangesPage logged.now.what rid.page }
    requires lacking { HaveLsnsBelow logged.now.lsn.0 pages.old }
    ensures ok { OnOk result (IsRedone pages.old pages.new rid logged.now.what logged.now.lsn.0) }
    ensures upto { OnOk result (HaveLsnsBelow (logged.now.lsn.0 + 1) pages.new) }
    ensures unfit { IfErr result (λ refused. refused ≡ apply.Unfit → LacksPlace (slots_of pages.old) rid logged.now.what) }
{
    let number = rid.page as usize;
    if number >= pages.len() {
        return Err(ApplyRefused::Unfit);
    }
    redo(&mut pages[number], &logged.what, logged.lsn)?;
    Ok(())
}

// The pages of a file after the records so far, the transactions that have a pending record, the
// greatest id of a transaction, and how many inserts there were.
#[derive(Debug, Drop)]
pub struct Replay {
    pub pages: Vec<Page>,
    pub pending: BTreeSet<u32>,
    pub greatest: u32,
    pub inserts: u64,
}

impl Replay {
    // Before the first record.
    pub fn new(alloc: Global, pages: u32) -> Result<Replay, NoMemory>
        ensures ok { IfOk result (Replays pages []) }
        ensures fresh { IfOk result (λ replay. HaveLsnsBelow 1 replay.pages.items) }
    {
        Ok(Replay {
            pages: empty_pages(alloc, pages)?,
            pending: BTreeSet::new(alloc),
            greatest: 0,
            inserts: 0,
        })
    }

    // The least id of a transaction that has a pending record.
    pub fn least_pending(&self) -> Option<TxnId>
        ensures some { IfSome result (λ txn. IsLeastOf self.now.pending txn.0) }
        ensures none { IfNone result (IsNone self.now.pending) }
    {
        let least = self.pending.first()?;
        Some(TxnId(*least))
    }

    fn insert(&mut self, txn: TxnId, rid: Rid, logged: &Logged) -> Result<(), ApplyRefused>
        requires insert { IsInsertAt logged.now.what txn rid }
        requires few { self.old.inserts < 2 ^ 63 }
        requires lacking { HaveLsnsBelow logged.now.lsn.0 self.old.pages.items }
        ensures ok { (pages : ℕ) (history : History) → Replays pages history self.old → OnOk result (Replays pages (act_of logged.now ∷ history) self.new) }
        ensures upto { OnOk result (HaveLsnsBelow (logged.now.lsn.0 + 1) self.new.pages.items) }
        ensures unfit { (pages : ℕ) (history : History) → Replays pages history self.old
            → IfErr result (λ refused. refused ≡ apply.Unfit → IsMisfit pages history (act_of logged.now)) }
    {
        redo_on(&mut self.pages, rid, logged)?;
        match self.pending.insert(txn.0) {
            Ok(_) => {}
            Err(_) => return Err(ApplyRefused::NoMemory),
        }
        self.greatest = txn.0.max(self.greatest);
        self.inserts += 1;
        Ok(())
    }

    fn commit(&mut self, txn: TxnId)
        ensures ok { (pages : ℕ) (history : History) (lsn : Lsns) → Replays pages history self.old
            → Replays pages (act_at lsn.0 (log.Commit txn) ∷ history) self.new }
        ensures pages { self.new.pages ≡ self.old.pages }
    {
        self.pending.remove(&txn.0);
        self.greatest = txn.0.max(self.greatest);
    }

    // Replays one record. No page has the record, or a later one.
    fn apply(&mut self, logged: &Logged) -> Result<(), ApplyRefused>
        requires few { self.old.inserts < 2 ^ 63 }
        requires lacking { HaveLsnsBelow logged.now.lsn.0 self.old.pages.items }
        ensures ok { (pages : ℕ) (history : History) → Replays pages history self.old → OnOk result (Replays pages (act_of logged.now ∷ history) self.new) }
        ensures upto { OnOk result (HaveLsnsBelow (logged.now.lsn.0 + 1) self.new.pages.items) }
        ensures unfit { (pages : ℕ) (history : History) → Replays pages history self.old
            → IfErr result (λ refused. refused ≡ apply.Unfit → IsMisfit pages history (act_of logged.now)) }
    {
        match &logged.what {
            LogRecord::Insert { txn, rid, .. } => self.insert(*txn, *rid, logged),
            LogRecord::Commit { txn } => {
                self.commit(*txn);
                Ok(())
            }
            LogRecord::Delete { .. }
            | LogRecord::Update { .. }
            | LogRecord::Compensate { .. }
            | LogRecord::Inventory { .. }
            | LogRecord::End { .. }
            | LogRecord::Checkpoint { .. } => Err(ApplyRefused::Unfit),
        }
    }
}

// Replays the records, the oldest of which comes first, into this many pages.
pub fn replayed(alloc: Global, pages: u32, records: &[Logged]) -> Result<Replay, ReplayRefused>
    requires { AreRising (acts_of records.now) }
    ensures ok { IfOk result (Replays pages (acts_of records.now)) }
    ensures misfit { IfErr result (λ refused. IfMisfit refused (λ at. IsMisfitAt pages (acts_of records.now) at.0)) }
{
    let mut replay = Replay::new(alloc, pages)?;
    for logged in records {
        match replay.apply(logged) {
            Ok(()) => {}
            Err(ApplyRefused::Unfit) => return Err(ReplayRefused::Misfit { at: logged.lsn }),
            Err(ApplyRefused::NoMemory) => return Err(ReplayRefused::NoMemory),
        }
    }
    Ok(replay)
}
