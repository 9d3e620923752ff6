//! Redo: repeating the records of a log on the pages and the inventory of a file.

ghost use Rattle.std.specs.Prelude.{◌≡◌, ℕ, ◌+◌, ◌<◌, ◌≤◌, ◌^◌, [], ◌∷◌, IfErr, IfOk, OnOk, IsFalse, IsTrue};
ghost use Rattle.rm_types.specs.declared.numbers.TheConstants.{MAX_PAGES};
ghost use Rattle.rm_record.specs.Records.{IsRecord};
ghost use Rattle.rm_history.specs.Acts.{History, act_at, act_of, acts_of, newest_lsn};
ghost use Rattle.rm_history.specs.Counts.{repeat_count};
ghost use Rattle.rm_apply.specs.declared.answers.ApplyRefused.TheVariants as apply;
ghost use Rattle.rm_pool.specs.Frames.{CannotTake, FramesValue, IsAfter};
ghost use Rattle.rm_recovery.specs.Outcomes.{IfMisfit};
ghost use Rattle.rm_recovery.specs.Redone.{AreRecords, AreRising, IsMisfit, IsMisfitAt, Redoes};

use crate::losers::Losers;
use rm_apply::ApplyRefused;
use rm_pool::Frames;
use rm_record::{LogRecord, Logged};
use rm_types::{Lsn, NoMemory};
use std::alloc::Global;

/// Why a log was not redone.
#[derive(Clone, Copy, Debug, PartialEq, Eq)]
pub enum RedoRefused {
    /// The record with this LSN names no page of the file, its page cannot have what it sets, it enters what is no
    /// category, or it is a checkpoint, which no log has yet.
    Misfit { at: Lsn },
    NoMemory,
}

impl From<NoMemory> for RedoRefused {
    ghost use Rattle.rm_recovery.specs.declared.redo.RedoRefused.TheVariants as refused;

    ghost from_gives = { λ _ redone. redone ≡ refused.NoMemory };

    fn from(_e: NoMemory) -> RedoRefused {
        RedoRefused::NoMemory
    }
}

// How many of the records that a restart repeats this one is: one or none.
fn repeats(what: &LogRecord) -> u64
    ensures value { (history : History) (lsn : ℕ) → repeat_count (act_at lsn what.now ∷ history) ≡ repeat_count history + result }
    ensures bound { result ≤ 1 }
{
    match what {
        LogRecord::Insert { .. }
        | LogRecord::Delete { .. }
        | LogRecord::Update { .. }
        | LogRecord::Compensate { .. }
        | LogRecord::Inventory { .. } => 1,
        LogRecord::Commit { .. } | LogRecord::End { .. } | LogRecord::Checkpoint { .. } => 0,
    }
}

// Whether the record is a checkpoint. Each other one is a misfit only where the file cannot take it.
fn is_checkpoint(what: &LogRecord) -> bool
    ensures yes { IsTrue result → (pages : ℕ) (history : History) (lsn : ℕ) → IsMisfit pages history (act_at lsn what.now) }
    ensures no { IsFalse result → (frames : FramesValue) (lsn : ℕ) → IsMisfit frames.size frames.applied (act_at lsn what.now) → CannotTake frames what.now }
{
    match what {
        LogRecord::Checkpoint { .. } => true,
        LogRecord::Insert { .. }
        | LogRecord::Delete { .. }
        | LogRecord::Update { .. }
        | LogRecord::Compensate { .. }
        | LogRecord::Inventory { .. }
        | LogRecord::Commit { .. }
        | LogRecord::End { .. } => false,
    }
}

/// The pages and the inventory of a file after the records so far, the transactions of these, and how many changes were
/// repeated.
#[derive(Drop)]
pub struct Redone {
    pub frames: Frames,
    pub losers: Losers,
    pub count: u64,
}

impl Redone {
    /// Before the first record, in a file of so many pages.
    pub fn new(alloc: Global, pages: u32) -> Result<Redone, NoMemory>
        requires { pages ≤ MAX_PAGES }
        ensures { IfOk result (Redoes pages []) }
    {
        Ok(Redone {
            frames: Frames::new(alloc, pages)?,
            losers: Losers::new(alloc),
            count: 0,
        })
    }

    // Redoes one record more.
    fn apply(&mut self, logged: &Logged) -> Result<(), ApplyRefused>
        requires is_record { IsRecord logged.now.what }
        requires few { self.old.count < 2 ^ 63 }
        requires after { IsAfter self.old.frames.applied logged.now.lsn.0 }
        ensures ok { (pages : ℕ) (history : History) → Redoes pages history self.old → OnOk result (Redoes pages (act_of logged.now ∷ history) self.new) }
        ensures unfit { (pages : ℕ) (history : History) → Redoes pages history self.old
            → IfErr result (λ e. e ≡ apply.Unfit → IsMisfit pages history (act_of logged.now)) }
    {
        if is_checkpoint(&logged.what) {
            return Err(ApplyRefused::Unfit);
        }
        self.frames.repeat(&logged.what, logged.lsn)?;
        self.losers.note(logged)?;
        self.count += repeats(&logged.what);
        Ok(())
    }
}

/// Redoes the records, the oldest of which comes first, in a file of so many pages.
pub fn redo_all(alloc: Global, pages: u32, records: &[Logged]) -> Result<Redone, RedoRefused>
    requires pages { pages ≤ MAX_PAGES }
    requires rising { AreRising (acts_of records.now) }
    requires are_records { AreRecords (acts_of records.now) }
    ensures ok { IfOk result (Redoes pages (acts_of records.now)) }
    ensures misfit { IfErr result (λ refused. IfMisfit refused (λ at. IsMisfitAt pages (acts_of records.now) at.0)) }
{
    let mut redone = Redone::new(alloc, pages)?;
    for logged in records {
        match redone.apply(logged) {
            Ok(()) => {}
            Err(ApplyRefused::Unfit) => return Err(RedoRefused::Misfit { at: logged.lsn }),
            Err(ApplyRefused::NoMemory) => return Err(RedoRefused::NoMemory),
        }
    }
    Ok(redone)
}
