//! A rollback: for each change that is undone a latch, the entry of its page, and the compensation.

ghost use Rattle.std.specs.Prelude.{◌≡◌, ◌<◌, nat_lt, if◌then◌else◌, Some, IfErr, OnErr};
ghost use Rattle.rm_core.specs.Names.{target_of, turns, rolls};
ghost use Rattle.rm_play.specs.Choosing.{reaching, rolling, preparing, compensating};
ghost use Rattle.rm_ops.specs.Views.{seat_of, op_at, pending_at, last_in};
ghost use Rattle.rm_ops.specs.Stages.{aim_with};
ghost use Rattle.rm_ops.specs.Making.{Makes};
ghost use Rattle.rm_ops.specs.Looking.{IsOpen, rolling_by};

use crate::latching::{close, latch};
use crate::stages::{Aim, LastChange, Stage};
use crate::tables::Tables;
use rm_events::{Reply, Turn};
use rm_types::StoreFault;

// All that was to be undone is: the transaction ends, or goes on from its savepoint.
fn reach<T: Tables>(tables: &mut T, k: u8, aim: Aim) -> Result<Turn, StoreFault>
    requires { IsOpen (T.view tables.old) k }
    ensures makes { let v = T.view tables.old in Makes v (turns k (reaching (aim_with (op_at v k) aim) (T.offset tables.old))) result (T.view tables.new) }
    ensures since { T.since tables.old tables.new }
    ensures cause { IfErr result (T.fails tables.new) }
{
    match aim {
        Aim::Back(number, _) => Ok(close(tables, k, Reply::BackTo(number))),
        Aim::Abort => {
            tables.log_end(k)?;
            Ok(Turn::Done(Reply::Aborted))
        }
        Aim::Die(holder) => {
            tables.log_end(k)?;
            Ok(Turn::Done(Reply::Died { holder }))
        }
    }
}

/// Latches the page of the change that is to be undone next, if there is one.
#[tactic(auto, using(crate::proofs::Looking::rolling_is))]
pub(crate) fn roll<T: Tables>(tables: &mut T, k: u8, aim: Aim) -> Result<Turn, StoreFault>
    requires open { IsOpen (T.view tables.old) k }
    requires at { (seat_of (T.view tables.old) k).stage ≡ rolls (aim_with (op_at (T.view tables.old) k) aim) }
    ensures makes { let v = T.view tables.old in Makes v (rolling v.state k (T.offset tables.old) (aim_with (op_at v k) aim) (pending_at v k)) result (T.view tables.new) }
    ensures since { T.since tables.old tables.new }
    ensures cause { IfErr result (T.fails tables.new) }
{
    match tables.last(k) {
        Some(last) => roll_to(tables, k, aim, last),
        None => reach(tables, k, aim),
    }
}

// Latches the page of the newest pending change, if it is above the target.
fn roll_to<T: Tables>(tables: &mut T, k: u8, aim: Aim, last: LastChange) -> Result<Turn, StoreFault>
    requires open { IsOpen (T.view tables.old) k }
    requires at { (seat_of (T.view tables.old) k).stage ≡ rolls (aim_with (op_at (T.view tables.old) k) aim) }
    requires inside { last.page < (T.view tables.old).setting.pages }
    ensures makes { let v = T.view tables.old in Makes v (rolling_by v.state k (T.offset tables.old) (aim_with (op_at v k) aim) (Some last)) result (T.view tables.new) }
    ensures since { T.since tables.old tables.new }
    ensures cause { IfErr result (T.fails tables.new) }
{
    if aim.target().0 < last.lsn.0 {
        Ok(latch(tables, k, last.page, Stage::Prepares(aim, last.page)))
    } else {
        reach(tables, k, aim)
    }
}

/// Enters the category that the latched page has once the newest pending change is undone, where its entry is another.
#[tactic(auto, using(crate::proofs::Looking::none_is))]
pub(crate) fn prepare<T: Tables>(tables: &mut T, k: u8, aim: Aim) -> Result<Turn, StoreFault>
    requires { IsOpen (T.view tables.old) k }
    ensures makes { let v = T.view tables.old in Makes v (turns k (preparing v.setting v.state (T.offset tables.old) (aim_with (op_at v k) aim) (pending_at v k))) result (T.view tables.new) }
    ensures since { T.since tables.old tables.new }
    ensures cause { IfErr result (T.fails tables.new) }
{
    match tables.last(k) {
        Some(last) => prepare_entry(tables, k, aim, last),
        None => reach(tables, k, aim),
    }
}

// Enters the category for the undo of that change.
#[tactic(auto, using(crate::proofs::Looking::prepared_makes, crate::proofs::Looking::prepare_makes))]
fn prepare_entry<T: Tables>(
    tables: &mut T,
    k: u8,
    aim: Aim,
    last: LastChange,
) -> Result<Turn, StoreFault>
    requires open { IsOpen (T.view tables.old) k }
    requires last { last_in (pending_at (T.view tables.old) k) ≡ Some last }
    requires inside { last.page < (T.view tables.old).setting.pages }
    ensures makes { let v = T.view tables.old in Makes v (turns k (preparing v.setting v.state (T.offset tables.old) (aim_with (op_at v k) aim) (pending_at v k))) result (T.view tables.new) }
    ensures since { T.since tables.old tables.new }
    ensures cause { IfErr result (T.fails tables.new) }
{
    if tables.is_entry_ready(k)? {
        tables.stand(k, Stage::Compensates(aim, last.page));
    } else {
        tables.log_entry_before_undo(k, aim)?;
    }
    Ok(Turn::Advanced)
}

/// Undoes the newest pending change, which is on the latched page.
#[tactic(auto, using(crate::proofs::Looking::none_is, crate::proofs::Looking::compensate_makes))]
pub(crate) fn compensate<T: Tables>(tables: &mut T, k: u8, aim: Aim) -> Result<Turn, StoreFault>
    requires { IsOpen (T.view tables.old) k }
    ensures makes { let v = T.view tables.old in T.trusted tables.new → Makes v (turns k (compensating (T.offset tables.old) (aim_with (op_at v k) aim) (pending_at v k))) result (T.view tables.new) }
    ensures still { OnErr result (T.view tables.new ≡ T.view tables.old) }
    ensures since { T.since tables.old tables.new }
    ensures cause { IfErr result (T.fails tables.new) }
{
    match tables.last(k) {
        Some(_) => {
            tables.log_undo(k, aim)?;
            Ok(Turn::Advanced)
        }
        None => reach(tables, k, aim),
    }
}
