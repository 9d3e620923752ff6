//! The session and its log.

ghost use Rattle.std.specs.Prelude.{◌≡◌, ℕ, ◌+◌, ◌-◌, ◌*◌, ◌^◌, ◌<◌, ◌≤◌, ◌++◌, ◌⊎◌, [], List, length, map, nat_lt, if◌then◌else◌, IfOk, OnOk, Err, true, false};
ghost use Rattle.rm_types.specs.declared.faults.Fault.{Fault as Faults};
ghost use Rattle.rm_types.specs.declared.numbers.TheConstants.{MAX_PAGES, MAX_SLOT, MAX_LOG};
ghost use Rattle.rm_outside.specs.Images.{KeepsOthers};
ghost use Rattle.rm_outside.specs.Calls.{IsFaultIn, Writes};
ghost use Rattle.rm_outside.specs.Moments.{IsDurable, LeavesOnly};
ghost use Rattle.rm_model.specs.Object.{Rows};
ghost use Rattle.rm_types.specs.declared.numbers.TxnId.{TxnId as Txns};
ghost use Rattle.rm_types.specs.declared.rows.TheConstants.{MAX_ROW};
ghost use Rattle.rm_model.specs.Files.{rows_of};
ghost use Rattle.rm_session.specs.Session.{Core, IsFirstWithRoom, Step, opened};
ghost use Rattle.rm_record.specs.Records.{spelling};
ghost use Rattle.rm_wal.specs.declared.log.TheConstants.{LONG_TAIL};
ghost use Rattle.rm_wal.specs.Tails.{end_of};
ghost use Rattle.rm_restart.specs.Sound.{Holds};
ghost use Rattle.rm_engine.specs.Numbers.{IsReady, HasRoom, HasPlace, LacksRoom, LacksIds, MakesRoom, cost_of, owed_by, log_flushed, used_of, used_after, next_at, flushed};
ghost use Rattle.rm_engine.specs.At.{IsAt, Changes, LeftByTurn, count_after, committed_after};

use crate::faults::TurnFault;
use crate::logging::{log_commit, log_insert};
use crate::room::{insert_cost, owed, room_to_begin};
use rm_outside::Volume;
use rm_page::Page;
use rm_plain::Line;
use rm_session::Session;
use rm_types::{Area, Fault, Lsn, Reply};
use rm_wal::{LONG_TAIL, Log};
use std::snapshot::Snapshot;

/// One session on a volume: the pages and the transaction, the log, the LSN of the transaction's last
/// record (0 for none), and how many inserts it has pending.
#[derive(Debug, Drop)]
pub struct Engine {
    pub session: Session,
    pub log: Log,
    pub under: Lsn,
    pub inserts: u64,
}

impl Engine {
    /// A session over an opened volume, before its first transaction, which gets the id `next`.
    pub fn new(pages: Vec<Page>, next: u64, log: Log) -> Engine
        requires pages { length pages.items ≤ MAX_PAGES }
        requires first { 1 ≤ next }
        requires next { next ≤ 2 ^ 32 }
        requires limit { log.limit ≤ MAX_LOG }
        ensures ready { IsReady result.session.core result.log result.inserts }
        ensures session { result.session ≡ opened (map (λ page. page.slots) pages.items) next }
        ensures log { result.log ≡ log }
        ensures under { result.under.0 ≡ 0 }
        ensures inserts { result.inserts ≡ 0 }
    {
        Engine {
            session: Session::over(pages, next),
            log,
            under: Lsn(0),
            inserts: 0,
        }
    }

    /// Flushes the tail, if it is long.
    pub(crate) fn flush_long<V: Volume>(&mut self, volume: &mut V) -> Result<(), Fault>
        requires ready { IsReady self.old.session.core self.old.log self.old.inserts }
        requires durable { IsDurable Area.Log (V.content volume.old) (V.may_leave volume.old) }

        ensures session { self.new.session ≡ self.old.session }
        ensures under { self.new.under ≡ self.old.under }
        ensures inserts { self.new.inserts ≡ self.old.inserts }
        ensures log { OnOk result (self.new.log ≡ log_flushed self.old.log) }
        ensures durable { OnOk result (IsDurable Area.Log (V.content volume.new) (V.may_leave volume.new)) }
        ensures limit { OnOk result (self.new.log.limit ≡ self.old.log.limit) }

        ensures at { OnOk result ((pages count : ℕ) (rows : Rows)
            → IsAt pages count rows self.old.session.core self.old.log self.old.under.0 self.old.inserts (V.may_leave volume.old)
            → IsAt pages count rows self.old.session.core (log_flushed self.old.log) self.old.under.0 self.old.inserts (V.may_leave volume.new)) }
        ensures any_moment { (pages count : ℕ) (rows : Rows)
            → IsAt pages count rows self.old.session.core self.old.log self.old.under.0 self.old.inserts (V.may_leave volume.old)
            → LeavesOnly (V.moment volume.old) (V.moment volume.new) (V.left_since volume.old) (V.left_since volume.new) (Holds count rows) }

        ensures cause { (fault : Faults) → result ≡ Err fault → IsFaultIn Area.Log (V.faults volume.old) (V.faults volume.new) fault }
        ensures writes { Writes V.Volume (KeepsOthers Area.Log) volume.old volume.new }
    {
        if self.log.tail() <= LONG_TAIL {
            return Ok(());
        }
        self.log.flush(volume)?;
        Ok(())
    }

    /// Makes room for the record of an insert of this many bytes, if there is a place for it.
    fn room_to_insert<V: Volume>(&mut self, volume: &mut V, len: usize) -> Result<(), TurnFault>
        requires len { len ≤ MAX_ROW }
        requires ready { IsReady self.old.session.core self.old.log self.old.inserts }
        requires durable { IsDurable Area.Log (V.content volume.old) (V.may_leave volume.old) }

        ensures room { OnOk result (self.old.session.core.active ≡ true → (page : ℕ) → IsFirstWithRoom self.old.session.core.pages len page
            → (end_of self.new.log + (cost_of len + owed_by (self.old.inserts + 1)) ≤ self.new.log.limit) × (length self.new.log.tail ≤ LONG_TAIL)) }
        ensures exact { OnOk result (self.old.session.core.active ≡ true → (page : ℕ) → IsFirstWithRoom self.old.session.core.pages len page
            → next_at (flushed (used_of self.old.log self.old.inserts)) + (cost_of len + owed_by (self.old.inserts + 1)) ≤ self.old.log.limit) }
        ensures full { (end : ℕ) → result ≡ Err (TurnFault.LogFull end) → HasPlace self.old.session.core len
            × (end ≡ next_at (flushed (used_of self.old.log self.old.inserts))) × (self.old.log.limit < end + (cost_of len + owed_by (self.old.inserts + 1))) }
        ensures spent { (last : Txns) → result ≡ Err (TurnFault.TxnsSpent last) → ⊥ }

        ensures log { OnOk result ((HasPlace self.old.session.core len → self.new.log ≡ log_flushed self.old.log) × ((HasPlace self.old.session.core len → ⊥) → self.new.log ≡ self.old.log)) }
        ensures session { self.new.session ≡ self.old.session }
        ensures under { self.new.under ≡ self.old.under }
        ensures inserts { self.new.inserts ≡ self.old.inserts }
        ensures ready { OnOk result (IsReady self.old.session.core self.new.log self.old.inserts) }
        ensures durable { OnOk result (IsDurable Area.Log (V.content volume.new) (V.may_leave volume.new)) }
        ensures limit { OnOk result (self.new.log.limit ≡ self.old.log.limit) }
        ensures at { OnOk result ((pages count : ℕ) (rows : Rows)
            → IsAt pages count rows self.old.session.core self.old.log self.old.under.0 self.old.inserts (V.may_leave volume.old)
            → IsAt pages count rows self.old.session.core self.new.log self.old.under.0 self.old.inserts (V.may_leave volume.new)) }
        ensures any_moment { (pages count : ℕ) (rows : Rows)
            → IsAt pages count rows self.old.session.core self.old.log self.old.under.0 self.old.inserts (V.may_leave volume.old)
            → LeavesOnly (V.moment volume.old) (V.moment volume.new) (V.left_since volume.old) (V.left_since volume.new) (Holds count rows) }

        ensures cause { (fault : Faults) → result ≡ Err (TurnFault.Fault fault) → IsFaultIn Area.Log (V.faults volume.old) (V.faults volume.new) fault }
        ensures writes { Writes V.Volume (KeepsOthers Area.Log) volume.old volume.new }
    {
        if !self.session.is_active() {
            return Ok(());
        }
        let (cost, owed) = (insert_cost(len), owed(self.inserts + 1));
        if self.log.tail() <= LONG_TAIL && self.log.room(cost, owed).is_ok() {
            return Ok(());
        }
        if !self.session.has_place(len) {
            return Ok(());
        }
        self.flush_long(volume)?;
        self.log.room(cost, owed)?;
        Ok(())
    }

    /// Makes room for a commit's record.
    fn room_to_commit<V: Volume>(&mut self, volume: &mut V) -> Result<(), TurnFault>
        requires ready { IsReady self.old.session.core self.old.log self.old.inserts }
        requires durable { IsDurable Area.Log (V.content volume.old) (V.may_leave volume.old) }

        ensures room { OnOk result (self.old.session.core.active ≡ true → length self.new.log.tail ≤ LONG_TAIL) }
        ensures full { (end : ℕ) → result ≡ Err (TurnFault.LogFull end) → ⊥ }
        ensures spent { (last : Txns) → result ≡ Err (TurnFault.TxnsSpent last) → ⊥ }

        ensures log { OnOk result (MakesRoom self.old.session.core Line.Commit self.old.log self.new.log) }
        ensures session { self.new.session ≡ self.old.session }
        ensures under { self.new.under ≡ self.old.under }
        ensures inserts { self.new.inserts ≡ self.old.inserts }
        ensures ready { OnOk result (IsReady self.old.session.core self.new.log self.old.inserts) }
        ensures durable { OnOk result (IsDurable Area.Log (V.content volume.new) (V.may_leave volume.new)) }
        ensures limit { OnOk result (self.new.log.limit ≡ self.old.log.limit) }
        ensures at { OnOk result ((pages count : ℕ) (rows : Rows)
            → IsAt pages count rows self.old.session.core self.old.log self.old.under.0 self.old.inserts (V.may_leave volume.old)
            → IsAt pages count rows self.old.session.core self.new.log self.old.under.0 self.old.inserts (V.may_leave volume.new)) }
        ensures any_moment { (pages count : ℕ) (rows : Rows)
            → IsAt pages count rows self.old.session.core self.old.log self.old.under.0 self.old.inserts (V.may_leave volume.old)
            → LeavesOnly (V.moment volume.old) (V.moment volume.new) (V.left_since volume.old) (V.left_since volume.new) (Holds count rows) }

        ensures cause { (fault : Faults) → result ≡ Err (TurnFault.Fault fault) → IsFaultIn Area.Log (V.faults volume.old) (V.faults volume.new) fault }
        ensures writes { Writes V.Volume (KeepsOthers Area.Log) volume.old volume.new }
    {
        if !self.session.is_active() {
            return Ok(());
        }
        self.flush_long(volume)?;
        Ok(())
    }

    /// Makes room for the line's turn: flushes a long tail where the turn logs a record, and refuses the turn
    /// where ids or the log's room are spent.
    fn make_room<V: Volume>(&mut self, volume: &mut V, line: &Line) -> Result<(), TurnFault>
        requires ready { IsReady self.old.session.core self.old.log self.old.inserts }
        requires durable { IsDurable Area.Log (V.content volume.old) (V.may_leave volume.old) }

        ensures room { OnOk result (HasRoom self.old.session.core self.new.log self.old.inserts line.now) }
        ensures exact { OnOk result ((end : ℕ) → LacksRoom self.old.log.limit self.old.session.core (used_of self.old.log self.old.inserts) line.now end → ⊥) }
        ensures full { (end : ℕ) → result ≡ Err (TurnFault.LogFull end) → LacksRoom self.old.log.limit self.old.session.core (used_of self.old.log self.old.inserts) line.now end }
        ensures spent { (last : Txns) → result ≡ Err (TurnFault.TxnsSpent last) → LacksIds self.old.session.core line.now last }

        ensures log { OnOk result (MakesRoom self.old.session.core line.now self.old.log self.new.log) }
        ensures session { self.new.session ≡ self.old.session }
        ensures under { self.new.under ≡ self.old.under }
        ensures inserts { self.new.inserts ≡ self.old.inserts }
        ensures ready { OnOk result (IsReady self.old.session.core self.new.log self.old.inserts) }
        ensures durable { OnOk result (IsDurable Area.Log (V.content volume.new) (V.may_leave volume.new)) }
        ensures limit { OnOk result (self.new.log.limit ≡ self.old.log.limit) }
        ensures at { OnOk result ((pages count : ℕ) (rows : Rows)
            → IsAt pages count rows self.old.session.core self.old.log self.old.under.0 self.old.inserts (V.may_leave volume.old)
            → IsAt pages count rows self.old.session.core self.new.log self.old.under.0 self.old.inserts (V.may_leave volume.new)) }
        ensures any_moment { (pages count : ℕ) (rows : Rows)
            → IsAt pages count rows self.old.session.core self.old.log self.old.under.0 self.old.inserts (V.may_leave volume.old)
            → LeavesOnly (V.moment volume.old) (V.moment volume.new) (V.left_since volume.old) (V.left_since volume.new) (Holds count rows) }

        ensures cause { (fault : Faults) → result ≡ Err (TurnFault.Fault fault) → IsFaultIn Area.Log (V.faults volume.old) (V.faults volume.new) fault }
        ensures writes { Writes V.Volume (KeepsOthers Area.Log) volume.old volume.new }
    {
        match line {
            Line::Begin => room_to_begin(&self.session, &self.log),
            Line::Insert(_, row) => self.room_to_insert(volume, row.as_slice().len()),
            Line::Read(_) => Ok(()),
            Line::Commit => self.room_to_commit(volume),
        }
    }

    /// Keeps what the line and its reply changed: notes a begin, logs an insert, logs a commit and makes it durable.
    fn keep<V: Volume>(
        &mut self,
        volume: &mut V,
        line: &Line,
        reply: &Reply,
        before: &Snapshot<Session>,
    ) -> Result<(), TurnFault>
        requires changed { Changes before.now.value.core line.now reply.now self.old.session.core }
        requires ready { IsReady before.now.value.core self.old.log self.old.inserts }
        requires room { HasRoom before.now.value.core self.old.log self.old.inserts line.now }
        requires durable { IsDurable Area.Log (V.content volume.old) (V.may_leave volume.old) }

        ensures used { OnOk result (used_of self.new.log self.new.inserts ≡ used_after line.now reply.now (used_of self.old.log self.old.inserts)) }
        ensures session { self.new.session ≡ self.old.session }
        ensures ready { OnOk result (IsReady self.new.session.core self.new.log self.new.inserts) }
        ensures durable { OnOk result (IsDurable Area.Log (V.content volume.new) (V.may_leave volume.new)) }
        ensures limit { OnOk result (self.new.log.limit ≡ self.old.log.limit) }
        ensures at { OnOk result ((pages count : ℕ) (rows : Rows)
            → IsAt pages count rows before.now.value.core self.old.log self.old.under.0 self.old.inserts (V.may_leave volume.old)
            → IsAt pages (count_after reply.now count) (committed_after reply.now (rows_of before.now.value.core.pages) rows) self.new.session.core self.new.log self.new.under.0 self.new.inserts (V.may_leave volume.new)) }
        ensures any_moment { (pages count : ℕ) (rows : Rows)
            → IsAt pages count rows before.now.value.core self.old.log self.old.under.0 self.old.inserts (V.may_leave volume.old)
            → LeavesOnly (V.moment volume.old) (V.moment volume.new) (V.left_since volume.old) (V.left_since volume.new) (LeftByTurn count rows before.now.value.core line.now) }

        ensures full { (end : ℕ) → result ≡ Err (TurnFault.LogFull end) → ⊥ }
        ensures spent { (last : Txns) → result ≡ Err (TurnFault.TxnsSpent last) → ⊥ }
        ensures cause { (fault : Faults) → result ≡ Err (TurnFault.Fault fault) → IsFaultIn Area.Log (V.faults volume.old) (V.faults volume.new) fault }
        ensures writes { Writes V.Volume (KeepsOthers Area.Log) volume.old volume.new }
    {
        let _ = before;
        match (line, reply) {
            (Line::Begin, Reply::Began(_)) => {
                self.under = Lsn(0);
                self.inserts = 0;
                Ok(())
            }
            (Line::Insert(_, row), Reply::Inserted(rid)) => {
                let lsn = log_insert(&mut self.log, self.session.next(), self.under, *rid, row)?;
                self.under = lsn;
                self.inserts += 1;
                Ok(())
            }
            (Line::Commit, Reply::Committed) => {
                log_commit(&mut self.log, volume, self.session.next())?;
                Ok(())
            }
            _ => Ok(()),
        }
    }

    /// Does a line, and answers its reply. What the line changed is in the log, and a commit is durable, before
    /// the reply is given.
    ///
    /// # Errors
    ///
    /// [`TurnFault::TxnsSpent`] exactly where a transaction would begin and every id was given.
    /// [`TurnFault::LogFull`] exactly where the line would change something for which the log has no room.
    /// [`TurnFault::Fault`] with area Log, where it failed. [`TurnFault::NoMemory`]. After an error the session has
    /// ended, and the volume is to be opened again.
    pub fn turn<V: Volume>(&mut self, volume: &mut V, line: &Line) -> Result<Reply, TurnFault>
        requires ready { IsReady self.old.session.core self.old.log self.old.inserts }
        requires durable { IsDurable Area.Log (V.content volume.old) (V.may_leave volume.old) }

        // The session makes a step.
        ensures step { IfOk result (λ reply. Step self.old.session line.now reply self.new.session) }
        ensures used { IfOk result (λ reply. used_of self.new.log self.new.inserts ≡ used_after line.now reply (used_of self.old.log self.old.inserts)) }
        ensures ready { OnOk result (IsReady self.new.session.core self.new.log self.new.inserts) }
        ensures durable { OnOk result (IsDurable Area.Log (V.content volume.new) (V.may_leave volume.new)) }
        ensures limit { OnOk result (self.new.log.limit ≡ self.old.log.limit) }

        // After a commit each image that a crash may leave has the transaction; and after every other reply what it had.
        ensures at { IfOk result (λ reply. (pages count : ℕ) (rows : Rows)
            → IsAt pages count rows self.old.session.core self.old.log self.old.under.0 self.old.inserts (V.may_leave volume.old)
            → IsAt pages (count_after reply count) (committed_after reply (rows_of self.old.session.core.pages) rows) self.new.session.core self.new.log self.new.under.0 self.new.inserts (V.may_leave volume.new)) }
        // A crash at any moment of the turn leaves what was committed, and maybe the transaction that the line commits.
        ensures any_moment { (pages count : ℕ) (rows : Rows)
            → IsAt pages count rows self.old.session.core self.old.log self.old.under.0 self.old.inserts (V.may_leave volume.old)
            → LeavesOnly (V.moment volume.old) (V.moment volume.new) (V.left_since volume.old) (V.left_since volume.new) (LeftByTurn count rows self.old.session.core line.now) }

        ensures room { OnOk result ((end : ℕ) → LacksRoom self.old.log.limit self.old.session.core (used_of self.old.log self.old.inserts) line.now end → ⊥) }
        ensures full { (end : ℕ) → result ≡ Err (TurnFault.LogFull end) → LacksRoom self.old.log.limit self.old.session.core (used_of self.old.log self.old.inserts) line.now end }
        ensures spent { (last : Txns) → result ≡ Err (TurnFault.TxnsSpent last) → LacksIds self.old.session.core line.now last }
        ensures cause { (fault : Faults) → result ≡ Err (TurnFault.Fault fault) → IsFaultIn Area.Log (V.faults volume.old) (V.faults volume.new) fault }
        ensures writes { Writes V.Volume (KeepsOthers Area.Log) volume.old volume.new }
    {
        self.make_room(volume, line)?;
        let before = Snapshot::of(&self.session);
        let lsn = Lsn(self.log.end());
        let reply = self.session.turn(line, lsn)?;
        self.keep(volume, line, &reply, &before)?;
        Ok(reply)
    }
}
