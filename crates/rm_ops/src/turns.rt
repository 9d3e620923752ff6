//! The next turn of a session's operation.

ghost use Rattle.std.specs.Prelude.{◌≡◌, IfErr, OnOk, OnErr};
ghost use Rattle.rm_core.specs.Names.{forces};
ghost use Rattle.rm_play.specs.Choosing.{chosen_at};
ghost use Rattle.rm_ops.specs.Views.{HasSession, IsActive, seat_of, op_at};
ghost use Rattle.rm_ops.specs.Making.{Makes, MakesChosen};

use crate::asking::{ask, outside};
use crate::changing::{change, fetch, settle};
use crate::ending::{finish, force};
use crate::inserting::{scan, try_page};
use crate::latching::latch;
use crate::stages::Stage;
use crate::tables::Tables;
use crate::undoing::{compensate, prepare, roll};
use rm_events::Turn;
use rm_types::StoreFault;

/// Makes the next turn of the operation that the session has asked for: the machine's move, where the volume models its
/// content.
///
/// # Errors
///
/// A fault of the volume, or out of memory. The view is as it was.
pub fn turn<T: Tables>(tables: &mut T, k: u8) -> Result<Turn, StoreFault>
    requires { HasSession (T.view tables.old) k }
    ensures chosen { T.trusted tables.new → MakesChosen (T.view tables.old) k result (T.view tables.new) }
    ensures still { OnErr result (T.view tables.new ≡ T.view tables.old) }
    ensures durable { OnOk result ((seat_of (T.view tables.old) k).stage ≡ forces → IsActive (T.view tables.old) k → T.durable tables.new ≡ (T.view tables.old).state.history) }
    ensures since { T.since tables.old tables.new }
    ensures cause { IfErr result (T.fails tables.new) }
{
    match tables.txn(k) {
        Some(_) => inside(tables, k),
        None => outside(tables, k),
    }
}

// The turn of a session with a transaction, by its stage.
fn inside<T: Tables>(tables: &mut T, k: u8) -> Result<Turn, StoreFault>
    requires known { HasSession (T.view tables.old) k }
    requires active { IsActive (T.view tables.old) k }
    ensures makes { let v = T.view tables.old in T.trusted tables.new → Makes v (chosen_at v.setting v.state k (T.offset tables.old) (op_at v k) (seat_of v k).stage) result (T.view tables.new) }
    ensures still { OnErr result (T.view tables.new ≡ T.view tables.old) }
    ensures durable { OnOk result ((seat_of (T.view tables.old) k).stage ≡ forces → T.durable tables.new ≡ (T.view tables.old).state.history) }
    ensures since { T.since tables.old tables.new }
    ensures cause { IfErr result (T.fails tables.new) }
{
    match tables.stage(k) {
        Stage::Idle => ask(tables, k),
        Stage::Seeks(from) => scan(tables, k, from),
        Stage::Wants(page) => Ok(latch(tables, k, page, Stage::Tries(page))),
        Stage::Tries(page) => try_page(tables, k, page),
        Stage::Reads(rid) => Ok(latch(tables, k, rid.page, Stage::Fetches(rid))),
        Stage::Fetches(rid) => fetch(tables, k, rid),
        Stage::Alters(rid) => Ok(latch(tables, k, rid.page, Stage::Sets(rid))),
        Stage::Sets(rid) => change(tables, k, rid),
        Stage::Settles(made, rid) => settle(tables, k, made, rid),
        Stage::Forces => force(tables, k),
        Stage::Finishes => Ok(finish(tables, k)),
        Stage::Rolls(aim) => roll(tables, k, aim),
        Stage::Prepares(aim, _) => prepare(tables, k, aim),
        Stage::Compensates(aim, _) => compensate(tables, k, aim),
    }
}
