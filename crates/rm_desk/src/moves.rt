//! What a session does without a log record.

ghost use Rattle.std.specs.Prelude.{◌≡◌, ◌+◌, ◌<◌, ◌≤◌, ◌^◌, slice_set, false, None, Some, IfSome, IsSome, OnOk, OnErr};
ghost use Rattle.rm_types.specs.declared.numbers.TheConstants.{MAX_SESSIONS};
ghost use Rattle.rm_core.specs.Names.{IsInside, begin, finish, idle, save, target};
ghost use Rattle.rm_play.specs.Choosing.{blocker};
ghost use Rattle.rm_ops.specs.Stages.{stage_with};
ghost use Rattle.rm_ops.specs.Views.{HasSession, IsActive, IsOfFile, granted, is_alone, is_over, op_at, saved_in, seat_of, stood, turned};
ghost use Rattle.rm_txns.specs.Tables.{txn_of};

use crate::desk::Desk;
use crate::stacks::{SESSIONS, clear};
use rm_events::Op;
use rm_noted::Noted;
use rm_ops::{Aim, Stage};
use rm_txns::Txns;
use rm_types::{Lsn, MAX_SESSIONS, Mode, NoMemory, Rid, TxnId};

// Puts a stage at a session's place.
pub(crate) fn set(stages: &mut [Stage; SESSIONS], k: u8, stage: Stage)
    requires { k < MAX_SESSIONS }
    ensures { stages.new ≡ slice_set stages.old k stage }
{
    stages[k as usize] = stage;
}

// Puts an operation there.
fn put(ops: &mut [Op; SESSIONS], k: u8, op: Op)
    requires { k < MAX_SESSIONS }
    ensures { ops.new ≡ slice_set ops.old k op }
{
    ops[k as usize] = op;
}

// The transaction of a session that has one.
pub(crate) fn id_of(txns: &Txns, k: u8) -> TxnId
    requires known { k < MAX_SESSIONS }
    requires has { IsSome (txn_of txns.now (k + 1)) }
    ensures { IfSome (txn_of txns.now (k + 1)) (λ txn. result ≡ txn.id) }
{
    match txns.of(k + 1) {
        Some(txn) => txn,
        None => unreachable!(),
    }
}

impl Desk {
    /// The session, which has no operation under way, asks for one.
    pub fn ask(&mut self, k: u8, op: Op)
        requires known { HasSession self.old.view k }
        requires idle { (seat_of self.old.view k).stage ≡ idle }
        ensures { self.new.view ≡ record self.old.view { asked = slice_set self.old.view.asked k op } }
    {
        put(&mut self.ops, k, op);
    }

    /// The session goes to a stage, on the same side of its commit.
    pub fn stand(&mut self, k: u8, stage: Stage)
        requires known { HasSession self.old.view k }
        requires over { IsActive self.old.view k → is_over (stage_with (op_at self.old.view k) stage) ≡ is_over (seat_of self.old.view k).stage }
        requires inside { IsOfFile self.old.view.setting.pages (stage_with (op_at self.old.view k) stage) }
        ensures { self.new.view ≡ stood self.old.view k (stage_with (op_at self.old.view k) stage) }
    {
        self.sessions = Noted::of(&(&self.sessions, &self.ops, k, stage));
        set(&mut self.stages, k, stage);
    }

    /// Begins the session's transaction, with the next id. It takes no memory.
    pub fn begin(&mut self, k: u8)
        requires known { HasSession self.old.view k }
        requires none { (seat_of self.old.view k).txn ≡ 0 }
        requires left { self.old.view.state.next < 2 ^ 32 }
        ensures { self.new.view ≡ turned self.old.view k (begin self.old.view.state.next) }
    {
        match self.txns.begin(k + 1) {
            Ok(_id) => {}
            Err(_) => unreachable!(),
        }
        set(&mut self.stages, k, Stage::Idle);
        self.sessions = Noted::of(&(&self.sessions, k));
    }

    /// The session was told that its transaction is committed, and has none; its locks are released.
    pub fn leave(&mut self, k: u8)
        requires known { HasSession self.old.view k }
        requires active { IsActive self.old.view k }
        ensures { self.new.view ≡ turned self.old.view k finish }
    {
        let txn = id_of(&self.txns, k);
        self.txns.finish(k + 1);
        self.grants.release(txn);
        clear(&mut self.stacks, k);
        set(&mut self.stages, k, Stage::Idle);
        self.sessions = Noted::of(&(&self.sessions, k));
    }

    /// The session's transaction gets a lock on the row id in that mode, which no other's refuses, and the session goes to a
    /// stage.
    ///
    /// # Errors
    ///
    /// [`NoMemory`] leaves the view as it was.
    pub fn grant(&mut self, k: u8, rid: Rid, mode: Mode, stage: Stage) -> Result<(), NoMemory>
        requires known { HasSession self.old.view k }
        requires active { IsActive self.old.view k }
        requires inside { IsInside self.old.view.setting.pages rid }
        requires staged { IsOfFile self.old.view.setting.pages (stage_with (op_at self.old.view k) stage) }
        requires free { blocker self.old.view.state.grants (seat_of self.old.view k).txn rid (is_alone mode) ≡ None }
        requires over { is_over (stage_with (op_at self.old.view k) stage) ≡ is_over (seat_of self.old.view k).stage }
        ensures ok { OnOk result (self.new.view ≡ granted self.old.view k rid (is_alone mode) (stage_with (op_at self.old.view k) stage)) }
        ensures err { OnErr result (self.new.view ≡ self.old.view) }
    {
        let txn = id_of(&self.txns, k);
        self.grants.ready(txn, rid)?;
        self.grants.grant(txn, rid, mode);
        self.stand(k, stage);
        Ok(())
    }

    /// Sets a savepoint of that number at the transaction's newest pending change; an older one of that number is dropped.
    ///
    /// # Errors
    ///
    /// [`NoMemory`] leaves the view as it was.
    pub fn save(&mut self, k: u8, number: u8) -> Result<(), NoMemory>
        requires known { HasSession self.old.view k }
        requires active { IsActive self.old.view k }
        requires open { is_over (seat_of self.old.view k).stage ≡ false }
        ensures ok { OnOk result (self.new.view ≡ turned self.old.view k (save number)) }
        ensures err { OnErr result (self.new.view ≡ self.old.view) }
    {
        self.txns.save(k + 1, number)?;
        set(&mut self.stages, k, Stage::Idle);
        self.sessions = Noted::of(&(&self.sessions, k, number));
        Ok(())
    }

    /// Begins the rollback to the savepoint of that number, which stands there; the newer ones are dropped.
    pub fn rewind(&mut self, k: u8, number: u8, at: Lsn)
        requires known { HasSession self.old.view k }
        requires active { IsActive self.old.view k }
        requires open { is_over (seat_of self.old.view k).stage ≡ false }
        requires saved { saved_in (seat_of self.old.view k).saves number ≡ Some at }
        ensures { self.new.view ≡ turned self.old.view k (target number at.0) }
    {
        self.txns.back(k + 1, number);
        set(&mut self.stages, k, Stage::Rolls(Aim::Back(number, at)));
        self.sessions = Noted::of(&(&self.sessions, k, number, at));
    }
}
