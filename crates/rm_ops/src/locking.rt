//! Row locks. A transaction waits for a younger one, and dies where an older one has the lock.

ghost use Rattle.std.specs.Prelude.{◌≡◌, ◌<◌, ◌≤◌, nat_lt, nat_le, ◌&&◌, if◌then◌else◌, Bool, true, false, None, IfErr, IsTrue};
ghost use Rattle.rm_types.specs.declared.numbers.TheConstants.{MAX_SLOT};
ghost use Rattle.rm_core.specs.Below.{Rid};
ghost use Rattle.rm_core.specs.Names.{turns, wait as waits, die as dies, IsInside};
ghost use Rattle.rm_play.specs.Choosing.{locking, locking_against, lock_of, blocker};
ghost use Rattle.rm_ops.specs.Views.{HasSession, IsOfFile, seat_of, op_at, is_over, is_alone, number_of};
ghost use Rattle.rm_ops.specs.Stages.{stage_with};
ghost use Rattle.rm_ops.specs.Making.{Makes};
ghost use Rattle.rm_ops.specs.Looking.{IsOpen, Grants};

use crate::stages::{Aim, Stage};
use crate::tables::Tables;
use rm_events::{Reply, Turn};
use rm_types::{MAX_SLOT, Mode, Rid, StoreFault, TxnId};

// Whether a file of that many pages has the place.
fn is_inside(rid: Rid, pages: u32) -> bool
    ensures value { result ≡ (nat_lt rid.page pages && nat_le rid.slot MAX_SLOT) }
    ensures inside { IsTrue result → IsInside pages rid }
{
    rid.page < pages && rid.slot <= MAX_SLOT
}

// The number of a transaction, 0 for none.
fn number_of(txn: Option<TxnId>) -> u32
    ensures { result ≡ number_of txn }
{
    match txn {
        Some(txn) => txn.0,
        None => 0,
    }
}

/// Locks the row that the operation names, and goes to a stage; or waits for the lock, or dies. A place that the file does
/// not have is refused.
#[tactic(auto, using(crate::proofs::Looking::stays))]
pub(crate) fn lock<T: Tables>(
    tables: &mut T,
    k: u8,
    rid: Rid,
    mode: Mode,
    next: Stage,
) -> Result<Turn, StoreFault>
    requires open { IsOpen (T.view tables.old) k }
    requires next { is_over (stage_with (op_at (T.view tables.old) k) next) ≡ false }
    requires staged { IsInside (T.view tables.old).setting.pages rid → IsOfFile (T.view tables.old).setting.pages (stage_with (op_at (T.view tables.old) k) next) }
    requires grants { let v = T.view tables.old in Grants v k rid (is_alone mode) (stage_with (op_at v k) next) (lock_of (op_at v k) rid) }
    ensures makes { let v = T.view tables.old in Makes v (turns k (locking v.setting v.state (seat_of v k) (op_at v k) rid (is_alone mode))) result (T.view tables.new) }
    ensures since { T.since tables.old tables.new }
    ensures cause { IfErr result (T.fails tables.new) }
{
    if is_inside(rid, tables.pages()) {
        lock_inside(tables, k, rid, mode, next)
    } else {
        Ok(Turn::Done(Reply::BadRid))
    }
}

// Locks a row id of the file, or waits, or dies.
fn lock_inside<T: Tables>(
    tables: &mut T,
    k: u8,
    rid: Rid,
    mode: Mode,
    next: Stage,
) -> Result<Turn, StoreFault>
    requires open { IsOpen (T.view tables.old) k }
    requires inside { IsInside (T.view tables.old).setting.pages rid }
    requires next { is_over (stage_with (op_at (T.view tables.old) k) next) ≡ false }
    requires staged { IsOfFile (T.view tables.old).setting.pages (stage_with (op_at (T.view tables.old) k) next) }
    requires grants { let v = T.view tables.old in Grants v k rid (is_alone mode) (stage_with (op_at v k) next) (lock_of (op_at v k) rid) }
    ensures makes { let v = T.view tables.old in Makes v (turns k (locking_against v.state (seat_of v k) (op_at v k) rid (is_alone mode) (blocker v.state.grants (seat_of v k).txn rid (is_alone mode)))) result (T.view tables.new) }
    ensures since { T.since tables.old tables.new }
    ensures cause { IfErr result (T.fails tables.new) }
{
    match tables.blocker(k, rid, mode) {
        Some(holder) => Ok(wait(tables, k, holder)),
        None => {
            tables.grant(k, rid, mode, next)?;
            Ok(Turn::Advanced)
        }
    }
}

// Waits for the transaction that has the lock, if that is the younger one; or dies.
#[tactic(auto, using(crate::proofs::Looking::stays))]
fn wait<T: Tables>(tables: &mut T, k: u8, holder: TxnId) -> Turn
    requires { IsOpen (T.view tables.old) k }
    ensures makes { let v = T.view tables.old in (rid : Rid) (alone : Bool) → Makes v (turns k (if nat_lt (seat_of v k).txn holder.0 then waits (op_at v k) rid alone holder.0 else dies (op_at v k) rid alone holder.0)) (Ok result) (T.view tables.new) }
    ensures since { T.since tables.old tables.new }
{
    if number_of(tables.txn(k)) < holder.0 {
        Turn::Waits { holder }
    } else {
        tables.stand(k, Stage::Rolls(Aim::Die(holder)));
        Turn::Advanced
    }
}
