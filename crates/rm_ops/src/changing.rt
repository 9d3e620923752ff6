//! A read, an update, a delete, and the entry of a page that was changed.

ghost use Rattle.std.specs.Prelude.{◌≡◌, ◌-◌, ◌<◌, ◌==◌, if◌then◌else◌, true, false, length, Some, IfErr, ◌⊎◌};
ghost use Rattle.rm_core.specs.Below.{Vacant, entry_of, category_of, page_of, unreserved};
ghost use Rattle.rm_core.specs.Outcomes.{read_reply};
ghost use Rattle.rm_core.specs.Names.{turns, reply_of, fetch as fetches, lack as lacks, alter as alters, settle as settles, settled, sets};
ghost use Rattle.rm_play.specs.Choosing.{if_room, growth_fits, altering_to};
ghost use Rattle.rm_ops.specs.Views.{HasSession, seat_of, op_at, slot_in, length_in};
ghost use Rattle.rm_ops.specs.Stages.{row_in, new_slot, outcome_with};
ghost use Rattle.rm_ops.specs.Making.{Makes};
ghost use Rattle.rm_ops.specs.Looking.{IsOpen, altering_by};

use crate::latching::{close, refuse_room};
use crate::stages::Made;
use crate::tables::Tables;
use rm_events::{Reply, Turn};
use rm_types::{Rid, Slot, StoreFault};

// The reply to a read of a slot that holds this.
fn read_reply(held: Slot) -> Reply
    ensures { result ≡ read_reply held }
{
    match held {
        Slot::Vacant => Reply::NoRow,
        Slot::Row(row) => Reply::Row(row),
    }
}

/// Reads the row, whose page is latched.
pub(crate) fn fetch<T: Tables>(tables: &mut T, k: u8, rid: Rid) -> Result<Turn, StoreFault>
    requires open { IsOpen (T.view tables.old) k }
    requires inside { rid.page < (T.view tables.old).setting.pages }
    ensures makes { let v = T.view tables.old in Makes v (turns k (fetches rid (slot_in v.state.history rid))) result (T.view tables.new) }
    ensures since { T.since tables.old tables.new }
    ensures cause { IfErr result (T.fails tables.new) }
{
    let held = tables.slot(rid)?;
    Ok(close(tables, k, read_reply(held)))
}

// The length of the row that the session's update puts in the place of another; none for a delete.
#[tactic(auto, using(crate::proofs::Looking::new_len_is))]
fn new_len<T: Tables>(tables: &T, k: u8) -> Option<u16>
    requires { HasSession (T.view tables.now) k }
    ensures { result ≡ length_in (new_slot (op_at (T.view tables.now) k)) }
{
    tables.asked(k).new_len()
}

/// Changes the row as the session's update or delete asks, if there is one: its page is latched.
#[tactic(auto, using(crate::proofs::Looking::altering_is))]
pub(crate) fn change<T: Tables>(tables: &mut T, k: u8, rid: Rid) -> Result<Turn, StoreFault>
    requires open { IsOpen (T.view tables.old) k }
    requires at { (seat_of (T.view tables.old) k).stage ≡ sets rid (new_slot (op_at (T.view tables.old) k)) }
    requires inside { rid.page < (T.view tables.old).setting.pages }
    ensures makes { let v = T.view tables.old in Makes v (altering_to v.setting v.state k (T.offset tables.old) rid (slot_in v.state.history rid) (new_slot (op_at v k))) result (T.view tables.new) }
    ensures since { T.since tables.old tables.new }
    ensures cause { IfErr result (T.fails tables.new) }
{
    match tables.held(rid)? {
        Some(before) => change_row(tables, k, rid, before),
        None => Ok(close(tables, k, Reply::NoRow)),
    }
}

// Changes the row, which has `before` bytes.
#[tactic(auto, using(crate::proofs::Looking::vacant_is))]
fn change_row<T: Tables>(tables: &mut T, k: u8, rid: Rid, before: u16) -> Result<Turn, StoreFault>
    requires open { IsOpen (T.view tables.old) k }
    requires at { (seat_of (T.view tables.old) k).stage ≡ sets rid (new_slot (op_at (T.view tables.old) k)) }
    requires inside { rid.page < (T.view tables.old).setting.pages }
    requires held { length_in (slot_in (T.view tables.old).state.history rid) ≡ Some before }
    ensures makes { let v = T.view tables.old in Makes v (altering_by v.setting v.state k (T.offset tables.old) rid (op_at v k) (Some before) (length_in (new_slot (op_at v k)))) result (T.view tables.new) }
    ensures since { T.since tables.old tables.new }
    ensures cause { IfErr result (T.fails tables.new) }
{
    match new_len(tables, k) {
        Some(len) => replace(tables, k, rid, before, len),
        None => alter(tables, k, rid, before),
    }
}

// Replaces the row, which has `before` bytes, by the update's of `len` bytes, where its page has room for that.
#[tactic(auto, using(crate::proofs::Looking::new_row_is))]
fn replace<T: Tables>(
    tables: &mut T,
    k: u8,
    rid: Rid,
    before: u16,
    len: u16,
) -> Result<Turn, StoreFault>
    requires open { IsOpen (T.view tables.old) k }
    requires at { (seat_of (T.view tables.old) k).stage ≡ sets rid (new_slot (op_at (T.view tables.old) k)) }
    requires inside { rid.page < (T.view tables.old).setting.pages }
    requires held { length_in (slot_in (T.view tables.old).state.history rid) ≡ Some before }
    requires new { length_in (new_slot (op_at (T.view tables.old) k)) ≡ Some len }
    ensures makes { let v = T.view tables.old in Makes v (altering_by v.setting v.state k (T.offset tables.old) rid (op_at v k) (Some before) (Some len)) result (T.view tables.new) }
    ensures since { T.since tables.old tables.new }
    ensures cause { IfErr result (T.fails tables.new) }
{
    if tables.growth_fits(k, rid.page, len.saturating_sub(before))? {
        alter(tables, k, rid, before)
    } else {
        lack(tables, k, rid)
    }
}

// Changes the row as the operation asks, where the log has room for it.
fn alter<T: Tables>(tables: &mut T, k: u8, rid: Rid, before: u16) -> Result<Turn, StoreFault>
    requires open { IsOpen (T.view tables.old) k }
    requires at { (seat_of (T.view tables.old) k).stage ≡ sets rid (new_slot (op_at (T.view tables.old) k)) }
    requires inside { rid.page < (T.view tables.old).setting.pages }
    requires held { length_in (slot_in (T.view tables.old).state.history rid) ≡ Some before }
    requires fits { let v = T.view tables.old in (new_slot (op_at v k) ≡ Vacant) ⊎ (growth_fits v.state (seat_of v k) rid.page (length (row_in (op_at v k)) - before) ≡ true) }
    ensures makes { let v = T.view tables.old in Makes v (if_room v.setting v.state k (T.offset tables.old) (alters rid (new_slot (op_at v k)) (T.offset tables.old))) result (T.view tables.new) }
    ensures since { T.since tables.old tables.new }
    ensures cause { IfErr result (T.fails tables.new) }
{
    if tables.has_room_to_alter(k, rid, before) {
        tables.log_alter(k, rid, before)?;
        Ok(Turn::Advanced)
    } else {
        Ok(refuse_room(tables, k))
    }
}

// The update has no room in its page.
fn lack<T: Tables>(tables: &mut T, k: u8, rid: Rid) -> Result<Turn, StoreFault>
    requires open { IsOpen (T.view tables.old) k }
    requires inside { rid.page < (T.view tables.old).setting.pages }
    ensures makes { let v = T.view tables.old in Makes v (turns k (lacks rid (row_in (op_at v k)) (unreserved v.state.history (seat_of v k).txn rid.page))) result (T.view tables.new) }
    ensures since { T.since tables.old tables.new }
    ensures cause { IfErr result (T.fails tables.new) }
{
    let room = tables.unreserved(k, rid.page)?;
    Ok(close(tables, k, Reply::PageFull { room }))
}

// The reply to an operation that made this of the row.
#[tactic(auto, using(crate::proofs::Looking::altered_is))]
fn made_reply<T: Tables>(tables: &T, k: u8, made: Made, rid: Rid) -> Reply
    requires { HasSession (T.view tables.now) k }
    ensures { result ≡ reply_of (outcome_with (op_at (T.view tables.now) k) made rid) }
{
    match made {
        Made::Inserted => Reply::Inserted(rid),
        Made::Altered => match new_len(tables, k) {
            Some(_) => Reply::Updated,
            None => Reply::Deleted,
        },
    }
}

/// Enters the page's category in the inventory, where the change made its entry wrong. The operation is over.
pub(crate) fn settle<T: Tables>(
    tables: &mut T,
    k: u8,
    made: Made,
    rid: Rid,
) -> Result<Turn, StoreFault>
    requires open { IsOpen (T.view tables.old) k }
    requires inside { rid.page < (T.view tables.old).setting.pages }
    ensures makes { let v = T.view tables.old in let made_it = outcome_with (op_at v k) made rid in
        Makes v (turns k (if entry_of v.state.history rid.page == category_of v.setting.format (page_of v.state.history rid.page) then settled made_it rid.page else settles made_it rid.page (T.offset tables.old))) result (T.view tables.new) }
    ensures since { T.since tables.old tables.new }
    ensures cause { IfErr result (T.fails tables.new) }
{
    let reply = made_reply(tables, k, made, rid);
    if tables.is_entry_right(rid.page)? {
        Ok(close(tables, k, reply))
    } else {
        tables.log_entry(k, rid.page)?;
        Ok(Turn::Done(reply))
    }
}
