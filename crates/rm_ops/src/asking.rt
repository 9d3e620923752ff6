//! The first turn of an operation.

ghost use Rattle.std.specs.Prelude.{◌≡◌, ◌<◌, ◌≤◌, ◌^◌, ◌==◌, IfErr, false};
ghost use Rattle.rm_core.specs.Names.{turns, idle, save as saves, abort as aborts};
ghost use Rattle.rm_play.specs.Choosing.{outside, beginning, if_room_to_begin, asking, returning};
ghost use Rattle.rm_ops.specs.Views.{HasSession, IsActive, seat_of, op_at};
ghost use Rattle.rm_ops.specs.Making.{Makes};
ghost use Rattle.rm_ops.specs.Looking.{IsOpen};

use crate::ending::commit;
use crate::inserting::insert;
use crate::latching::{close, refuse_room};
use crate::locking::lock;
use crate::stages::{Aim, Asked, Stage};
use crate::tables::Tables;
use rm_events::{Reply, Turn};
use rm_types::{Mode, StoreFault, TxnId};

// The number that says that no id is left.
const NO_ID: u64 = 1 << 32;

/// The operation of a session without a transaction: a begin, or one that is skipped.
#[tactic(auto, using(crate::proofs::Looking::stays, crate::proofs::Looking::outside_is))]
pub(crate) fn outside<T: Tables>(tables: &mut T, k: u8) -> Result<Turn, StoreFault>
    requires known { HasSession (T.view tables.old) k }
    requires none { (seat_of (T.view tables.old) k).txn ≡ 0 }
    ensures makes { let v = T.view tables.old in Makes v (outside v.setting v.state k (T.offset tables.old) (op_at v k)) result (T.view tables.new) }
    ensures since { T.since tables.old tables.new }
    ensures cause { IfErr result (T.fails tables.new) }
{
    match tables.asked(k) {
        Asked::Begin => begin(tables, k),
        Asked::Unbound => Ok(Turn::Done(Reply::Unbound)),
        _ => Ok(Turn::Done(Reply::Skipped)),
    }
}

// Begins a transaction, if there is an id for it.
fn begin<T: Tables>(tables: &mut T, k: u8) -> Result<Turn, StoreFault>
    requires known { HasSession (T.view tables.old) k }
    requires none { (seat_of (T.view tables.old) k).txn ≡ 0 }
    ensures makes { let v = T.view tables.old in Makes v (beginning v.setting v.state k (T.offset tables.old)) result (T.view tables.new) }
    ensures since { T.since tables.old tables.new }
    ensures cause { IfErr result (T.fails tables.new) }
{
    let next = tables.next();
    if next == NO_ID {
        Ok(Turn::TxnsSpent {
            last: TxnId(u32::MAX),
        })
    } else {
        begin_with(tables, k, TxnId(next as u32))
    }
}

// Begins a transaction with the next id, where the log has room for its end.
fn begin_with<T: Tables>(tables: &mut T, k: u8, id: TxnId) -> Result<Turn, StoreFault>
    requires known { HasSession (T.view tables.old) k }
    requires none { (seat_of (T.view tables.old) k).txn ≡ 0 }
    requires next { id.0 ≡ (T.view tables.old).state.next }
    ensures makes { let v = T.view tables.old in Makes v (if_room_to_begin v.setting v.state k (T.offset tables.old)) result (T.view tables.new) }
    ensures since { T.since tables.old tables.new }
    ensures cause { IfErr result (T.fails tables.new) }
{
    if tables.has_room_to_begin(k) {
        tables.begin(k)?;
        Ok(Turn::Done(Reply::Began(id)))
    } else {
        Ok(refuse_room(tables, k))
    }
}

/// The first turn of an operation in a transaction.
#[tactic(auto, using(crate::proofs::Looking::stays, crate::proofs::Looking::asking_is, crate::proofs::Looking::read_grants, crate::proofs::Looking::update_grants, crate::proofs::Looking::delete_grants))]
pub(crate) fn ask<T: Tables>(tables: &mut T, k: u8) -> Result<Turn, StoreFault>
    requires open { IsOpen (T.view tables.old) k }
    requires at { (seat_of (T.view tables.old) k).stage ≡ idle }
    ensures makes { let v = T.view tables.old in Makes v (turns k (asking v.setting v.state k (T.offset tables.old) (op_at v k))) result (T.view tables.new) }
    ensures since { T.since tables.old tables.new }
    ensures cause { IfErr result (T.fails tables.new) }
{
    match tables.asked(k) {
        Asked::Unbound => Ok(Turn::Done(Reply::Unbound)),
        Asked::Begin => Ok(Turn::Done(Reply::Skipped)),
        Asked::Insert(_) => insert(tables, k),
        Asked::Read(rid) => lock(tables, k, rid, Mode::Shared, Stage::Reads(rid)),
        Asked::Update(rid, _) | Asked::Delete(rid) => {
            lock(tables, k, rid, Mode::Exclusive, Stage::Alters(rid))
        }
        Asked::Save(number) => save(tables, k, number),
        Asked::Back(number) => Ok(go_back(tables, k, number)),
        Asked::Commit => commit(tables, k),
        Asked::Abort => Ok(abort(tables, k)),
    }
}

// Sets a savepoint.
fn save<T: Tables>(tables: &mut T, k: u8, number: u8) -> Result<Turn, StoreFault>
    requires { IsOpen (T.view tables.old) k }
    ensures makes { let v = T.view tables.old in Makes v (turns k (saves number)) result (T.view tables.new) }
    ensures since { T.since tables.old tables.new }
    ensures cause { IfErr result (T.fails tables.new) }
{
    tables.save(k, number)?;
    Ok(Turn::Done(Reply::Saved(number)))
}

// Begins the rollback to a savepoint, if there is one of that number.
#[tactic(auto, using(crate::proofs::Looking::returning_is))]
fn go_back<T: Tables>(tables: &mut T, k: u8, number: u8) -> Turn
    requires { IsOpen (T.view tables.old) k }
    ensures makes { let v = T.view tables.old in Makes v (turns k (returning (seat_of v k) number)) (Ok result) (T.view tables.new) }
    ensures since { T.since tables.old tables.new }
{
    match tables.savepoint(k, number) {
        Some(at) => {
            tables.rewind(k, number, at);
            Turn::Advanced
        }
        None => close(tables, k, Reply::NoSavepoint(number)),
    }
}

// Begins the rollback of the transaction.
fn abort<T: Tables>(tables: &mut T, k: u8) -> Turn
    requires { IsOpen (T.view tables.old) k }
    ensures makes { let v = T.view tables.old in Makes v (turns k aborts) (Ok result) (T.view tables.new) }
    ensures since { T.since tables.old tables.new }
{
    tables.stand(k, Stage::Rolls(Aim::Abort));
    Turn::Advanced
}
