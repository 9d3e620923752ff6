//! Room on a page, whose slots are given, and in the log.

ghost use Rattle.std.specs.Prelude.{◌≡◌, ℕ, ◌+◌, ◌*◌, ◌-◌, ◌<◌, ◌≤◌, ◌^◌, nat_le, max, length, slice_index_or, Some, IfSome, MatchOption};
ghost use Rattle.rm_types.specs.declared.numbers.TheConstants.{MAX_SESSIONS};
ghost use Rattle.rm_types.specs.declared.slots.Slot.{Slot as Slots};
ghost use Rattle.rm_types.specs.declared.slots.TheConstants.{CAPACITY, SLOT_ENTRY};
ghost use Rattle.rm_core.specs.Below.{growth_for, page_of, row_length, set_slot, slot_at, unreserved, used};
ghost use Rattle.rm_core.specs.Names.{alter, insert, sets, tries};
ghost use Rattle.rm_play.specs.Choosing.{growth_fits, row_fits, slot_for};
ghost use Rattle.rm_ops.specs.Stages.{new_slot, row_in};
ghost use Rattle.rm_ops.specs.Views.{HasSession, IsActive, has_room, has_room_to_begin, last_in, length_in, op_at, pending_at, seat_of, slot_in};
ghost use Rattle.rm_desk.specs.Desks.{undo_fits};

use crate::desk::{Desk, asked_at};
use crate::stacks::SESSIONS;
use rm_events::Op;
use rm_page::Page;
use rm_txns::OWED;
use rm_types::{CAPACITY, MAX_SESSIONS, Rid, SLOT_ENTRY};

// The bytes of a change's record but for its rows, and of a row beside its own.
const CHANGE_FRONT: u64 = 21;

const LENGTH_SIZE: u64 = 2;

// What a change asks for beside its record and what its transaction owes: for the entry of its page, and the headers of
// batches.
const CHANGE_ROOM: u64 = 32;

// Whether so many bytes of a page are within its capacity together.
fn is_within(used: u64, others: u32, more: u16) -> bool
    requires { used < 2 ^ 32 }
    ensures { result ≡ nat_le (used + others + more) CAPACITY }
{
    used + u64::from(others) + u64::from(more) <= u64::from(CAPACITY)
}

// The bytes by which a page's directory grows for a slot.
fn growth_for(page: &Page, slot: u16) -> u64
    ensures value { result ≡ growth_for (length page.now.slots) slot }
    ensures bound { result < 2 ^ 20 }
{
    u64::from(SLOT_ENTRY) * (u64::from(slot) + 1).saturating_sub(u64::from(page.slots()))
}

// The bytes that a page uses once a slot has a row of `len` bytes, or none where that is 0.
fn used_with(page: &Page, slot: u16, len: u16) -> u64
    ensures value { (held : Slots) → row_length held ≡ len → result ≡ used (set_slot page.now.slots slot held) }
    ensures bound { result < 2 ^ 32 }
{
    let grown = u64::from(page.used()) + growth_for(page, slot) + u64::from(len);
    grown - u64::from(held_len(page, slot))
}

// Whether the log has room at the offset for that many bytes, beside what is owed.
fn has_room(limit: u64, owed: u64, offset: u64, bytes: u64) -> bool
    requires { (limit < 2 ^ 63) × (owed ≤ 2 ^ 63 + 2 ^ 20) × (bytes ≤ 2 ^ 20) }
    ensures { result ≡ nat_le (offset + (bytes + owed)) limit }
{
    offset.saturating_add(bytes + owed) <= limit
}

// The bytes in a change's record of the row that the session's change leaves in the slot.
#[tactic(auto, using(rm_ops::proofs::Looking::new_len_is))]
fn new_bytes(ops: &[Op; SESSIONS], k: u8) -> u64
    requires { k < MAX_SESSIONS }
    ensures value { MatchOption (length_in (new_slot (slice_index_or ops.now k Op.Unbound))) (result ≡ 0) (λ len. result ≡ 2 + len) }
    ensures bound { result < 2 ^ 17 }
{
    match asked_at(ops, k).new_len() {
        Some(len) => LENGTH_SIZE + u64::from(len),
        None => 0,
    }
}

// The bytes of the row in a slot, 0 for none.
#[tactic(auto, using(crate::proofs::Rooms::some_len, crate::proofs::Rooms::none_len))]
fn held_len(page: &Page, slot: u16) -> u16
    ensures { result ≡ row_length (slot_at page.now.slots slot) }
{
    match page.row(slot) {
        Some(row) => row.len() as u16,
        None => 0,
    }
}

impl Desk {
    /// The slot for a new row of the session on the page with that number: the first that is vacant, and that no other
    /// transaction has locked.
    pub fn slot_for(&self, k: u8, page: &Page, number: u32) -> u16
        requires known { HasSession self.now.view k }
        requires active { IsActive self.now.view k }
        requires page { page.now.slots ≡ page_of self.now.view.state.history number }
        ensures { result ≡ slot_for self.now.view.state (seat_of self.now.view k) number }
    {
        self.grants.slot_for(page, number, self.id(k))
    }

    /// Whether a row of `len` bytes has room in that slot, beside what the undo of others needs.
    pub fn fits(&self, k: u8, page: &Page, number: u32, slot: u16, len: u16) -> bool
        requires known { HasSession self.now.view k }
        requires active { IsActive self.now.view k }
        requires page { page.now.slots ≡ page_of self.now.view.state.history number }
        ensures { result ≡ row_fits self.now.view.state (seat_of self.now.view k) number slot len }
    {
        let txn = self.id(k);
        let used = u64::from(page.used()) + growth_for(page, slot);
        is_within(
            used,
            self.others(number, txn),
            len.max(self.need(number, txn)),
        )
    }

    /// Whether the rows of the page may grow by `growth` bytes for the session's transaction.
    pub fn growth_fits(&self, k: u8, page: &Page, number: u32, growth: u16) -> bool
        requires known { HasSession self.now.view k }
        requires active { IsActive self.now.view k }
        requires page { page.now.slots ≡ page_of self.now.view.state.history number }
        ensures { result ≡ growth_fits self.now.view.state (seat_of self.now.view k) number growth }
    {
        let txn = self.id(k);
        let used = u64::from(page.used());
        is_within(
            used,
            self.others(number, txn),
            growth.max(self.need(number, txn)),
        )
    }

    /// The bytes of the page that neither its slots have nor the undo of other transactions needs.
    pub fn unreserved(&self, k: u8, page: &Page, number: u32) -> u16
        requires known { HasSession self.now.view k }
        requires active { IsActive self.now.view k }
        requires page { page.now.slots ≡ page_of self.now.view.state.history number }
        ensures { result ≡ unreserved self.now.view.state.history (seat_of self.now.view k).txn number }
    {
        let taken = u64::from(page.used()) + u64::from(self.others(number, self.id(k)));
        u64::from(CAPACITY).saturating_sub(taken) as u16
    }

    /// Whether the newest pending change may be undone: its page, which is given, has room then, also for the rest of all
    /// undo. True where there is none. In a log that is in order it is true.
    pub fn undo_fits(&self, k: u8, page: &Page) -> bool
        requires known { HasSession self.now.view k }
        requires active { IsActive self.now.view k }
        requires page { IfSome (last_in (pending_at self.now.view k)) (λ last. page.now.slots ≡ page_of self.now.view.state.history last.page) }
        ensures { result ≡ undo_fits self.now.view.state.history (pending_at self.now.view k) }
    {
        match self.pending(k) {
            Some(last) => {
                let used = used_with(page, last.rid.slot, last.before);
                is_within(used, self.others(last.rid.page, self.id(k)), last.need)
            }
            None => true,
        }
    }

    /// Whether the log has room for a begin, at the offset that the next record has.
    pub fn has_room_to_begin(&self, k: u8, offset: u64) -> bool
        requires known { HasSession self.now.view k }
        requires none { (seat_of self.now.view k).txn ≡ 0 }
        ensures { result ≡ has_room_to_begin self.now.view k offset }
    {
        has_room(self.limit, self.txns.owed() + OWED, offset, 0)
    }

    /// Whether it has room for the insert of the session's row.
    pub fn has_room_to_insert(&self, k: u8, rid: Rid, offset: u64) -> bool
        requires known { HasSession self.now.view k }
        requires active { IsActive self.now.view k }
        requires at { (seat_of self.now.view k).stage ≡ tries (row_in (op_at self.now.view k)) rid.page }
        ensures { result ≡ has_room self.now.view k (insert (row_in (op_at self.now.view k)) rid offset) }
    {
        let len = u64::from(asked_at(&self.ops, k).row_len());
        let owed = self.txns.owed() + OWED;
        has_room(
            self.limit,
            owed,
            offset,
            CHANGE_FRONT + LENGTH_SIZE + len + CHANGE_ROOM,
        )
    }

    /// Whether it has room for the session's change of that slot, which holds a row of `before` bytes.
    pub fn has_room_to_alter(&self, k: u8, rid: Rid, before: u16, offset: u64) -> bool
        requires known { HasSession self.now.view k }
        requires active { IsActive self.now.view k }
        requires at { (seat_of self.now.view k).stage ≡ sets rid (new_slot (op_at self.now.view k)) }
        requires held { length_in (slot_in self.now.view.state.history rid) ≡ Some before }
        ensures { result ≡ has_room self.now.view k (alter rid (new_slot (op_at self.now.view k)) offset) }
    {
        let before = u64::from(before);
        let owed = self.txns.owed() + OWED + before;
        let rows = LENGTH_SIZE + before + new_bytes(&self.ops, k);
        has_room(self.limit, owed, offset, CHANGE_FRONT + rows + CHANGE_ROOM)
    }
}
