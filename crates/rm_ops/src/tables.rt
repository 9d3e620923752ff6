//! What turns read and change, in the words of the machine.

use crate::stages::{Aim, Asked, LastChange, Place, Stage};
use rm_types::{Lsn, Mode, NoMemory, Rid, Slot, StoreFault, TxnId};

/// The state of the machine, with the operation that each session has asked for, as tables over a log and pages.
///
/// A session is named by its place, from 0. A call that looks leaves all as it was but for what is fixed in memory. A call
/// that fails leaves the view as it was. After a fault each call that can fail does, with the same fault.
pub trait Tables {
    ghost use Rattle.std.specs.Prelude.{◌≡◌, ◌<◌, ◌≤◌, ◌-◌, ◌^◌, ◌==◌, ◌⊎◌, ℕ, true, false, length, IfOk, IfErr, IfSome, OnOk, OnErr, None, Some};
    ghost use Rattle.rm_types.specs.declared.numbers.TheConstants.{MAX_PAGES};
    ghost use Rattle.rm_types.specs.declared.rows.TheConstants.{MAX_ROW};
    ghost use Rattle.rm_types.specs.declared.faults.StoreFault.{StoreFault as Fault};
    ghost use Rattle.rm_core.specs.Below.{History, slot_at, page_of, entry_of, category_of, unreserved, Vacant};
    ghost use Rattle.rm_core.specs.Names.{IsNext, part_end, IsInside, insert, alter, settle, commit, finish, end, save, target, begin, aborted, tries, sets, settles, finishes};
    ghost use Rattle.rm_play.specs.Choosing.{first_open, first_barring, slot_for, row_fits, growth_fits, blocker};
    ghost use Rattle.rm_ops.specs.Views.{View, HasSession, IsActive, IsOfFile, seat_of, op_at, number_of, number_in, is_over, length_in, slot_in, last_in, pending_at, is_entry_ready, saved_in, turned, has_room, has_room_to_begin, stood, granted, is_alone, prepared, compensated};
    ghost use Rattle.rm_ops.specs.Stages.{stage_with, asked_by, aim_with, row_in, new_slot};

    /// What the tables stand for.
    ghost view: { Self → View };

    /// The LSN that the next record has.
    ghost offset: { Self → ℕ };

    /// The part of the history that is durable.
    ghost durable: { Self → History };

    /// The volume models its content.
    ghost trusted: { Self → Type 0 };

    /// What has held of the volume since an earlier moment.
    ghost since: { Self → Self → Type 0 };

    /// The fault has its cause.
    ghost fails: { Self → Fault → Type 0 };

    // ---- looking

    /// The session's stage.
    fn stage(&self, k: u8) -> Stage
        requires { HasSession (view self.now) k }
        ensures value { stage_with (op_at (view self.now) k) result ≡ (seat_of (view self.now) k).stage }
        ensures of_file { IsOfFile (view self.now).setting.pages (seat_of (view self.now) k).stage };

    /// The operation that the session has asked for.
    fn asked(&self, k: u8) -> Asked
        requires { HasSession (view self.now) k }
        ensures { result ≡ asked_by (op_at (view self.now) k) };

    /// The session's transaction, if it has one.
    fn txn(&self, k: u8) -> Option<TxnId>
        requires { HasSession (view self.now) k }
        ensures value { number_of result ≡ (seat_of (view self.now) k).txn }
        ensures some { IfSome result (λ txn. txn.0 ≡ 0 → ⊥) };

    /// The number of the file's pages.
    fn pages(&self) -> u32
        ensures value { result ≡ (view self.now).setting.pages }
        ensures bound { (view self.now).setting.pages ≤ MAX_PAGES };

    /// The id of the next transaction, from 1; 2^32 says that none is left.
    fn next(&self) -> u64
        ensures value { result ≡ (view self.now).state.next }
        ensures bound { (view self.now).state.next ≤ 2 ^ 32 };

    /// The LSN that the next record has.
    fn end(&self) -> u64
        ensures { result ≡ offset self.now };

    /// The first page from `from` on whose entry does not exclude a row of `len` bytes, of those in the same block of the
    /// inventory.
    fn first_open(&mut self, from: u32, len: u16) -> Result<Option<u32>, StoreFault>
        requires { from < (view self.old).setting.pages }
        ensures value { IfOk result (λ found. found ≡ first_open (view self.old).setting.format (view self.old).state.history len from (part_end (view self.old).setting.pages from)) }
        ensures same { (view self.new ≡ view self.old) × (offset self.new ≡ offset self.old) }
        ensures since { since self.old self.new }
        ensures cause { IfErr result (fails self.new) };

    /// The first session whose latch on the page refuses the session's.
    fn barring(&self, k: u8, page: u32) -> Option<u8>
        requires { HasSession (view self.now) k }
        ensures value { result ≡ first_barring (view self.now).state k page }
        ensures bound { IfSome result (λ by. by < 255) };

    /// The slot of the page for a new row of `len` bytes, and whether it has room there.
    fn place(&mut self, k: u8, page: u32, len: u16) -> Result<Place, StoreFault>
        requires known { HasSession (view self.old) k }
        requires active { IsActive (view self.old) k }
        requires inside { page < (view self.old).setting.pages }
        ensures slot { IfOk result (λ place. place.slot ≡ slot_for (view self.old).state (seat_of (view self.old) k) page) }
        ensures fits { IfOk result (λ place. place.fits ≡ row_fits (view self.old).state (seat_of (view self.old) k) page place.slot len) }
        ensures same { (view self.new ≡ view self.old) × (offset self.new ≡ offset self.old) }
        ensures since { since self.old self.new }
        ensures cause { IfErr result (fails self.new) };

    /// The least other transaction whose locks refuse one on the row id in that mode.
    fn blocker(&self, k: u8, rid: Rid, mode: Mode) -> Option<TxnId>
        requires known { HasSession (view self.now) k }
        requires active { IsActive (view self.now) k }
        ensures { number_in result ≡ blocker (view self.now).state.grants (seat_of (view self.now) k).txn rid (is_alone mode) };

    /// What the slot holds, its row copied.
    fn slot(&mut self, rid: Rid) -> Result<Slot, StoreFault>
        requires { rid.page < (view self.old).setting.pages }
        ensures value { IfOk result (λ slot. slot ≡ slot_in (view self.old).state.history rid) }
        ensures same { (view self.new ≡ view self.old) × (offset self.new ≡ offset self.old) }
        ensures since { since self.old self.new }
        ensures cause { IfErr result (fails self.new) };

    /// The length of the row that the slot holds, if it holds one.
    fn held(&mut self, rid: Rid) -> Result<Option<u16>, StoreFault>
        requires { rid.page < (view self.old).setting.pages }
        ensures value { IfOk result (λ len. len ≡ length_in (slot_in (view self.old).state.history rid)) }
        ensures same { (view self.new ≡ view self.old) × (offset self.new ≡ offset self.old) }
        ensures since { since self.old self.new }
        ensures cause { IfErr result (fails self.new) };

    /// Whether the rows of a page may grow by `growth` bytes for the session's transaction.
    fn growth_fits(&mut self, k: u8, page: u32, growth: u16) -> Result<bool, StoreFault>
        requires known { HasSession (view self.old) k }
        requires active { IsActive (view self.old) k }
        requires inside { page < (view self.old).setting.pages }
        ensures value { IfOk result (λ fits. fits ≡ growth_fits (view self.old).state (seat_of (view self.old) k) page growth) }
        ensures same { (view self.new ≡ view self.old) × (offset self.new ≡ offset self.old) }
        ensures since { since self.old self.new }
        ensures cause { IfErr result (fails self.new) };

    /// The bytes of the page that neither its slots have nor the undo of other transactions needs.
    fn unreserved(&mut self, k: u8, page: u32) -> Result<u16, StoreFault>
        requires known { HasSession (view self.old) k }
        requires active { IsActive (view self.old) k }
        requires inside { page < (view self.old).setting.pages }
        ensures value { IfOk result (λ room. room ≡ unreserved (view self.old).state.history (seat_of (view self.old) k).txn page) }
        ensures same { (view self.new ≡ view self.old) × (offset self.new ≡ offset self.old) }
        ensures since { since self.old self.new }
        ensures cause { IfErr result (fails self.new) };

    /// Whether the page's entry is its category.
    fn is_entry_right(&mut self, page: u32) -> Result<bool, StoreFault>
        requires { page < (view self.old).setting.pages }
        ensures value { IfOk result (λ right. right ≡ (entry_of (view self.old).state.history page == category_of (view self.old).setting.format (page_of (view self.old).state.history page))) }
        ensures same { (view self.new ≡ view self.old) × (offset self.new ≡ offset self.old) }
        ensures since { since self.old self.new }
        ensures cause { IfErr result (fails self.new) };

    /// The newest pending change of the session's transaction.
    fn last(&self, k: u8) -> Option<LastChange>
        requires known { HasSession (view self.now) k }
        requires active { IsActive (view self.now) k }
        ensures value { result ≡ last_in (pending_at (view self.now) k) }
        ensures inside { IfSome result (λ last. last.page < (view self.now).setting.pages) };

    /// Whether that change's page has the entry that it is to have once the change is undone; also where there is none.
    fn is_entry_ready(&mut self, k: u8) -> Result<bool, StoreFault>
        requires known { HasSession (view self.old) k }
        requires active { IsActive (view self.old) k }
        ensures value { IfOk result (λ ready. ready ≡ is_entry_ready (view self.old).setting.format (view self.old).state.history (pending_at (view self.old) k)) }
        ensures same { (view self.new ≡ view self.old) × (offset self.new ≡ offset self.old) }
        ensures since { since self.old self.new }
        ensures cause { IfErr result (fails self.new) };

    /// Where the session's savepoint of that number stands, if there is one.
    fn savepoint(&self, k: u8, number: u8) -> Option<Lsn>
        requires known { HasSession (view self.now) k }
        requires active { IsActive (view self.now) k }
        ensures { result ≡ saved_in (seat_of (view self.now) k).saves number };

    /// Whether the log has room for a begin.
    fn has_room_to_begin(&self, k: u8) -> bool
        requires known { HasSession (view self.now) k }
        requires none { (seat_of (view self.now) k).txn ≡ 0 }
        ensures { result ≡ has_room_to_begin (view self.now) k (offset self.now) };

    /// Whether it has room for the insert of the session's row at that place.
    fn has_room_to_insert(&self, k: u8, rid: Rid) -> bool
        requires known { HasSession (view self.now) k }
        requires active { IsActive (view self.now) k }
        requires at { (seat_of (view self.now) k).stage ≡ tries (row_in (op_at (view self.now) k)) rid.page }
        ensures { result ≡ has_room (view self.now) k (insert (row_in (op_at (view self.now) k)) rid (offset self.now)) };

    /// Whether it has room for the session's change of that slot, which holds a row of `before` bytes.
    fn has_room_to_alter(&self, k: u8, rid: Rid, before: u16) -> bool
        requires known { HasSession (view self.now) k }
        requires active { IsActive (view self.now) k }
        requires at { (seat_of (view self.now) k).stage ≡ sets rid (new_slot (op_at (view self.now) k)) }
        requires held { length_in (slot_in (view self.now).state.history rid) ≡ Some before }
        ensures { result ≡ has_room (view self.now) k (alter rid (new_slot (op_at (view self.now) k)) (offset self.now)) };

    // ---- moving

    /// The session goes to a stage, on the same side of its commit.
    fn stand(&mut self, k: u8, stage: Stage)
        requires known { HasSession (view self.old) k }
        requires over { IsActive (view self.old) k → is_over (stage_with (op_at (view self.old) k) stage) ≡ is_over (seat_of (view self.old) k).stage }
        requires inside { IsOfFile (view self.old).setting.pages (stage_with (op_at (view self.old) k) stage) }
        ensures view { view self.new ≡ stood (view self.old) k (stage_with (op_at (view self.old) k) stage) }
        ensures durable { durable self.new ≡ durable self.old }
        ensures since { since self.old self.new };

    /// Begins the session's transaction, with the next id.
    fn begin(&mut self, k: u8) -> Result<(), NoMemory>
        requires known { HasSession (view self.old) k }
        requires none { (seat_of (view self.old) k).txn ≡ 0 }
        requires left { (view self.old).state.next < 2 ^ 32 }
        ensures ok { OnOk result (view self.new ≡ turned (view self.old) k (begin (view self.old).state.next)) }
        ensures err { OnErr result (view self.new ≡ view self.old) }
        ensures since { since self.old self.new };

    /// The session was told that its transaction is committed, and has none; its locks are released.
    fn leave(&mut self, k: u8)
        requires known { HasSession (view self.old) k }
        requires active { IsActive (view self.old) k }
        ensures view { view self.new ≡ turned (view self.old) k finish }
        ensures since { since self.old self.new };

    /// The session's transaction gets a lock on the row id in that mode, which no other's refuses, and the session goes to a
    /// stage.
    fn grant(&mut self, k: u8, rid: Rid, mode: Mode, stage: Stage) -> Result<(), NoMemory>
        requires known { HasSession (view self.old) k }
        requires active { IsActive (view self.old) k }
        requires inside { IsInside (view self.old).setting.pages rid }
        requires staged { IsOfFile (view self.old).setting.pages (stage_with (op_at (view self.old) k) stage) }
        requires free { blocker (view self.old).state.grants (seat_of (view self.old) k).txn rid (is_alone mode) ≡ None }
        requires over { is_over (stage_with (op_at (view self.old) k) stage) ≡ is_over (seat_of (view self.old) k).stage }
        ensures ok { OnOk result (view self.new ≡ granted (view self.old) k rid (is_alone mode) (stage_with (op_at (view self.old) k) stage)) }
        ensures err { OnErr result (view self.new ≡ view self.old) }
        ensures since { since self.old self.new };

    /// Sets a savepoint of that number at the transaction's newest pending change; an older one of that number is dropped.
    fn save(&mut self, k: u8, number: u8) -> Result<(), NoMemory>
        requires known { HasSession (view self.old) k }
        requires active { IsActive (view self.old) k }
        requires open { is_over (seat_of (view self.old) k).stage ≡ false }
        ensures ok { OnOk result (view self.new ≡ turned (view self.old) k (save number)) }
        ensures err { OnErr result (view self.new ≡ view self.old) }
        ensures since { since self.old self.new };

    /// Begins the rollback to the savepoint of that number, which stands there; the newer ones are dropped.
    fn rewind(&mut self, k: u8, number: u8, at: Lsn)
        requires known { HasSession (view self.old) k }
        requires active { IsActive (view self.old) k }
        requires open { is_over (seat_of (view self.old) k).stage ≡ false }
        requires saved { saved_in (seat_of (view self.old) k).saves number ≡ Some at }
        ensures view { view self.new ≡ turned (view self.old) k (target number at.0) }
        ensures since { since self.old self.new };

    // ---- logging: the tail of the log is flushed before, where it is long

    /// Logs and makes the insert of the session's row at that place, with an exclusive lock.
    fn log_insert(&mut self, k: u8, rid: Rid) -> Result<(), StoreFault>
        requires known { HasSession (view self.old) k }
        requires active { IsActive (view self.old) k }
        requires at { (seat_of (view self.old) k).stage ≡ tries (row_in (op_at (view self.old) k)) rid.page }
        requires inside { rid.page < (view self.old).setting.pages }
        requires slot { rid.slot ≡ slot_for (view self.old).state (seat_of (view self.old) k) rid.page }
        requires fits { row_fits (view self.old).state (seat_of (view self.old) k) rid.page rid.slot (length (row_in (op_at (view self.old) k))) ≡ true }
        requires room { has_room (view self.old) k (insert (row_in (op_at (view self.old) k)) rid (offset self.old)) ≡ true }
        ensures ok { OnOk result (view self.new ≡ turned (view self.old) k (insert (row_in (op_at (view self.old) k)) rid (offset self.old))) }
        ensures err { OnErr result (view self.new ≡ view self.old) }
        ensures since { since self.old self.new }
        ensures cause { IfErr result (fails self.new) };

    /// Logs and makes the session's change of that slot, which holds a row of `before` bytes.
    fn log_alter(&mut self, k: u8, rid: Rid, before: u16) -> Result<(), StoreFault>
        requires known { HasSession (view self.old) k }
        requires active { IsActive (view self.old) k }
        requires at { (seat_of (view self.old) k).stage ≡ sets rid (new_slot (op_at (view self.old) k)) }
        requires inside { rid.page < (view self.old).setting.pages }
        requires held { length_in (slot_in (view self.old).state.history rid) ≡ Some before }
        requires fits { (new_slot (op_at (view self.old) k) ≡ Vacant) ⊎ (growth_fits (view self.old).state (seat_of (view self.old) k) rid.page (length (row_in (op_at (view self.old) k)) - before) ≡ true) }
        requires room { has_room (view self.old) k (alter rid (new_slot (op_at (view self.old) k)) (offset self.old)) ≡ true }
        ensures ok { OnOk result (view self.new ≡ turned (view self.old) k (alter rid (new_slot (op_at (view self.old) k)) (offset self.old))) }
        ensures err { OnErr result (view self.new ≡ view self.old) }
        ensures since { since self.old self.new }
        ensures cause { IfErr result (fails self.new) };

    /// Logs and enters the page's category; the session's operation is over.
    fn log_entry(&mut self, k: u8, page: u32) -> Result<(), StoreFault>
        requires known { HasSession (view self.old) k }
        requires active { IsActive (view self.old) k }
        requires open { is_over (seat_of (view self.old) k).stage ≡ false }
        requires inside { page < (view self.old).setting.pages }
        ensures ok { OnOk result (view self.new ≡ turned (view self.old) k (settle aborted page (offset self.old))) }
        ensures err { OnErr result (view self.new ≡ view self.old) }
        ensures since { since self.old self.new }
        ensures cause { IfErr result (fails self.new) };

    /// Logs and enters the category that the page of the newest pending change has once that is undone, if there is one.
    fn log_entry_before_undo(&mut self, k: u8, aim: Aim) -> Result<(), StoreFault>
        requires known { HasSession (view self.old) k }
        requires active { IsActive (view self.old) k }
        requires open { is_over (seat_of (view self.old) k).stage ≡ false }
        ensures ok { OnOk result (view self.new ≡ prepared (view self.old) k (aim_with (op_at (view self.old) k) aim) (offset self.old) (pending_at (view self.old) k)) }
        ensures err { OnErr result (view self.new ≡ view self.old) }
        ensures since { since self.old self.new }
        ensures cause { IfErr result (fails self.new) };

    /// Logs and makes the undo of the newest pending change, if there is one. The row that it puts back is read from the log.
    fn log_undo(&mut self, k: u8, aim: Aim) -> Result<(), StoreFault>
        requires known { HasSession (view self.old) k }
        requires active { IsActive (view self.old) k }
        requires open { is_over (seat_of (view self.old) k).stage ≡ false }
        ensures ok { OnOk result (trusted self.new → view self.new ≡ compensated (view self.old) k (aim_with (op_at (view self.old) k) aim) (offset self.old) (pending_at (view self.old) k)) }
        ensures err { OnErr result (view self.new ≡ view self.old) }
        ensures since { since self.old self.new }
        ensures cause { IfErr result (fails self.new) };

    /// Logs the commit of the session's transaction.
    fn log_commit(&mut self, k: u8) -> Result<(), StoreFault>
        requires known { HasSession (view self.old) k }
        requires active { IsActive (view self.old) k }
        requires open { is_over (seat_of (view self.old) k).stage ≡ false }
        ensures ok { OnOk result (view self.new ≡ turned (view self.old) k (commit (offset self.old))) }
        ensures err { OnErr result (view self.new ≡ view self.old) }
        ensures since { since self.old self.new }
        ensures cause { IfErr result (fails self.new) };

    /// Logs the end of the session's transaction: it has none, and its locks are released.
    fn log_end(&mut self, k: u8) -> Result<(), StoreFault>
        requires known { HasSession (view self.old) k }
        requires active { IsActive (view self.old) k }
        requires open { is_over (seat_of (view self.old) k).stage ≡ false }
        ensures ok { OnOk result (view self.new ≡ turned (view self.old) k (end aborted (offset self.old))) }
        ensures err { OnErr result (view self.new ≡ view self.old) }
        ensures since { since self.old self.new }
        ensures cause { IfErr result (fails self.new) };

    /// Makes all that was logged durable.
    fn flush(&mut self) -> Result<(), StoreFault>
        ensures view { view self.new ≡ view self.old }
        ensures durable { OnOk result (durable self.new ≡ (view self.old).state.history) }
        ensures since { since self.old self.new }
        ensures cause { IfErr result (fails self.new) };

    // ---- laws

    ghost next_is: { (t : Self) → IsNext (view t).state.history (offset t) };

    ghost memory_fails: { (t : Self) → fails t Fault.NoMemory };

    ghost since_same: { (t : Self) → since t t };

    ghost since_both: { (old mid new : Self) → since old mid → since mid new → since old new };

    ghost since_trusts: { (old new : Self) → since old new → trusted new → trusted old };
}
