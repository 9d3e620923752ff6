//! What a session has once a record of its transaction is logged. No call after it fails or takes memory.

ghost use Rattle.std.specs.Prelude.{◌≡◌, ◌-◌, ◌<◌, ◌⊎◌, length, slice_index_or, true, false, Some, IfSome, OnOk};
ghost use Rattle.rm_types.specs.declared.numbers.TheConstants.{MAX_SESSIONS};
ghost use Rattle.rm_core.specs.Below.{Slot, Vacant, row_length};
ghost use Rattle.rm_core.specs.Names.{IsNext, aborted, alter, commit, end, insert, sets, settle, tries};
ghost use Rattle.rm_play.specs.Choosing.{growth_fits, row_fits, slot_for};
ghost use Rattle.rm_ops.specs.Stages.{aim_with, new_slot, row_in};
ghost use Rattle.rm_ops.specs.Views.{HasSession, IsActive, has_room, is_over, length_in, op_at, pending_at, prepared, seat_of, slot_in, turned};
ghost use Rattle.rm_desk.specs.Desks.{IsReadyFor, compensated_by, undo_fits};
ghost use Rattle.rm_desk.specs.Stacks.{newest_in};

use crate::desk::{Desk, asked_at};
use crate::moves::{id_of, set};
use crate::stacks::{PendingChange, SESSIONS, clear, make_room, newest, pop, push, under};
use rm_events::Op;
use rm_noted::Noted;
use rm_ops::{Aim, Made, Stage};
use rm_types::{Lsn, MAX_SESSIONS, Mode, NoMemory, Rid};

// The bytes of the row that the session's operation brings; of the one that its change leaves in the slot, 0 for none.
#[tactic(auto, using(rm_ops::proofs::Looking::row_len_is))]
fn row_len(ops: &[Op; SESSIONS], k: u8) -> u16
    requires { k < MAX_SESSIONS }
    ensures { result ≡ length (row_in (slice_index_or ops.now k Op.Unbound)) }
{
    asked_at(ops, k).row_len()
}

#[tactic(auto, using(crate::proofs::Changing::new_length_is))]
fn new_len(ops: &[Op; SESSIONS], k: u8) -> u16
    requires { k < MAX_SESSIONS }
    ensures { result ≡ row_length (new_slot (slice_index_or ops.now k Op.Unbound)) }
{
    asked_at(ops, k).new_len().unwrap_or(0)
}

impl Desk {
    /// Makes room for a change of the session's transaction in that slot, so that [`Desk::inserted`] and
    /// [`Desk::altered`] take no memory.
    ///
    /// # Errors
    ///
    /// [`NoMemory`] leaves the view as it was.
    pub fn ready(&mut self, k: u8, rid: Rid) -> Result<(), NoMemory>
        requires known { HasSession self.old.view k }
        requires active { IsActive self.old.view k }
        ensures ok { OnOk result (IsReadyFor self.new k rid) }
        ensures view { self.new.view ≡ self.old.view }
    {
        let txn = id_of(&self.txns, k);
        self.grants.ready(txn, rid)?;
        make_room(&mut self.stacks, k)?;
        self.needs.ready(rid.page, txn)
    }

    /// The insert of the session's row at that place is logged.
    pub fn inserted(&mut self, k: u8, rid: Rid, lsn: Lsn)
        requires known { HasSession self.old.view k }
        requires active { IsActive self.old.view k }
        requires next { IsNext self.old.view.state.history lsn.0 }
        requires at { (seat_of self.old.view k).stage ≡ tries (row_in (op_at self.old.view k)) rid.page }
        requires inside { rid.page < self.old.view.setting.pages }
        requires slot { rid.slot ≡ slot_for self.old.view.state (seat_of self.old.view k) rid.page }
        requires fits { row_fits self.old.view.state (seat_of self.old.view k) rid.page rid.slot (length (row_in (op_at self.old.view k))) ≡ true }
        requires room { has_room self.old.view k (insert (row_in (op_at self.old.view k)) rid lsn.0) ≡ true }
        requires ready { IsReadyFor self.old k rid }
        ensures { self.new.view ≡ turned self.old.view k (insert (row_in (op_at self.old.view k)) rid lsn.0) }
    {
        let after = row_len(&self.ops, k);
        let txn = id_of(&self.txns, k);
        let need = self.needs.change(rid.page, txn, 0, after);
        let before = 0;
        push(
            &mut self.stacks,
            k,
            PendingChange {
                lsn,
                rid,
                need,
                before,
            },
        );
        self.txns.push(k + 1, lsn, before);
        self.grants.grant(txn, rid, Mode::Exclusive);
        self.sessions = Noted::of(&(&self.sessions, &self.ops, k, rid, lsn));
        set(&mut self.stages, k, Stage::Settles(Made::Inserted, rid));
    }

    /// The session's change of that slot, which held a row of `before` bytes, is logged.
    pub fn altered(&mut self, k: u8, rid: Rid, before: u16, lsn: Lsn)
        requires known { HasSession self.old.view k }
        requires active { IsActive self.old.view k }
        requires next { IsNext self.old.view.state.history lsn.0 }
        requires at { (seat_of self.old.view k).stage ≡ sets rid (new_slot (op_at self.old.view k)) }
        requires inside { rid.page < self.old.view.setting.pages }
        requires held { length_in (slot_in self.old.view.state.history rid) ≡ Some before }
        requires fits { (new_slot (op_at self.old.view k) ≡ Vacant) ⊎ (growth_fits self.old.view.state (seat_of self.old.view k) rid.page (length (row_in (op_at self.old.view k)) - before) ≡ true) }
        requires room { has_room self.old.view k (alter rid (new_slot (op_at self.old.view k)) lsn.0) ≡ true }
        requires ready { IsReadyFor self.old k rid }
        ensures { self.new.view ≡ turned self.old.view k (alter rid (new_slot (op_at self.old.view k)) lsn.0) }
    {
        let after = new_len(&self.ops, k);
        let txn = id_of(&self.txns, k);
        let need = self.needs.change(rid.page, txn, before, after);
        push(
            &mut self.stacks,
            k,
            PendingChange {
                lsn,
                rid,
                need,
                before,
            },
        );
        self.txns.push(k + 1, lsn, before);
        self.sessions = Noted::of(&(&self.sessions, &self.ops, k, rid, lsn));
        set(&mut self.stages, k, Stage::Settles(Made::Altered, rid));
    }

    /// The category of the page is logged; the session's operation is over.
    pub fn entered(&mut self, k: u8, page: u32, lsn: Lsn)
        requires known { HasSession self.old.view k }
        requires active { IsActive self.old.view k }
        requires next { IsNext self.old.view.state.history lsn.0 }
        requires open { is_over (seat_of self.old.view k).stage ≡ false }
        ensures { self.new.view ≡ turned self.old.view k (settle aborted page lsn.0) }
    {
        self.sessions = Noted::of(&(&self.sessions, self.format, k, page, lsn));
        set(&mut self.stages, k, Stage::Idle);
    }

    /// The category that the page of the newest pending change has once that is undone is logged, if there is one.
    pub fn prepared(&mut self, k: u8, aim: Aim, lsn: Lsn)
        requires known { HasSession self.old.view k }
        requires active { IsActive self.old.view k }
        requires next { IsNext self.old.view.state.history lsn.0 }
        requires open { is_over (seat_of self.old.view k).stage ≡ false }
        ensures { self.new.view ≡ prepared self.old.view k (aim_with (op_at self.old.view k) aim) lsn.0 (pending_at self.old.view k) }
    {
        match newest(&self.stacks, k) {
            Some(last) => {
                self.sessions = Noted::of(&(&self.sessions, &self.ops, self.format, k, aim, lsn));
                set(&mut self.stages, k, Stage::Compensates(aim, last.rid.page));
            }
            None => {}
        }
    }

    /// The undo of the newest pending change is logged, if there is one: its slot holds `back` again.
    pub fn undone(&mut self, k: u8, aim: Aim, lsn: Lsn)
        ghost back: { Slot }
        requires known { HasSession self.old.view k }
        requires active { IsActive self.old.view k }
        requires next { IsNext self.old.view.state.history lsn.0 }
        requires open { is_over (seat_of self.old.view k).stage ≡ false }
        requires fits { undo_fits self.old.view.state.history (pending_at self.old.view k) ≡ true }
        requires back { IfSome (newest_in (pending_at self.old.view k)) (λ last. row_length back ≡ last.before) }
        ensures { self.new.view ≡ compensated_by self.old.view k (aim_with (op_at self.old.view k) aim) lsn.0 back (pending_at self.old.view k) }
    {
        match newest(&self.stacks, k) {
            Some(last) => {
                let txn = id_of(&self.txns, k);
                self.needs.restore(last.rid.page, txn, last.need);
                let below = under(&self.stacks, k);
                self.txns.pop(k + 1, below, last.before);
                pop(&mut self.stacks, k);
                self.sessions = Noted::of(&(&self.sessions, &self.ops, k, aim, lsn));
                set(&mut self.stages, k, Stage::Rolls(aim));
            }
            None => {}
        }
    }

    /// The commit of the session's transaction is logged.
    pub fn committed(&mut self, k: u8, lsn: Lsn)
        requires known { HasSession self.old.view k }
        requires active { IsActive self.old.view k }
        requires next { IsNext self.old.view.state.history lsn.0 }
        requires open { is_over (seat_of self.old.view k).stage ≡ false }
        ensures { self.new.view ≡ turned self.old.view k (commit lsn.0) }
    {
        let txn = id_of(&self.txns, k);
        self.txns.commit(k + 1);
        self.needs.release(txn);
        clear(&mut self.stacks, k);
        set(&mut self.stages, k, Stage::Forces);
        self.sessions = Noted::of(&(&self.sessions, k, lsn));
    }

    /// The end of the session's transaction is logged: it has none, and its locks are released.
    pub fn ended(&mut self, k: u8, lsn: Lsn)
        requires known { HasSession self.old.view k }
        requires active { IsActive self.old.view k }
        requires next { IsNext self.old.view.state.history lsn.0 }
        requires open { is_over (seat_of self.old.view k).stage ≡ false }
        ensures { self.new.view ≡ turned self.old.view k (end aborted lsn.0) }
    {
        let txn = id_of(&self.txns, k);
        self.txns.finish(k + 1);
        self.needs.release(txn);
        self.grants.release(txn);
        clear(&mut self.stacks, k);
        set(&mut self.stages, k, Stage::Idle);
        self.sessions = Noted::of(&(&self.sessions, k, lsn));
    }
}
