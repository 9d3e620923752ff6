//! A commit: its record, the flush, and the answer.

ghost use Rattle.std.specs.Prelude.{◌≡◌, IfErr, OnOk};
ghost use Rattle.rm_core.specs.Names.{turns, commit as commits, force as forces_it, finish as finished, forces};
ghost use Rattle.rm_ops.specs.Views.{HasSession, IsActive, seat_of};
ghost use Rattle.rm_ops.specs.Making.{Makes};
ghost use Rattle.rm_ops.specs.Looking.{IsOpen};

use crate::stages::Stage;
use crate::tables::Tables;
use rm_events::{Reply, Turn};
use rm_types::StoreFault;

/// Logs the commit.
pub(crate) fn commit<T: Tables>(tables: &mut T, k: u8) -> Result<Turn, StoreFault>
    requires { IsOpen (T.view tables.old) k }
    ensures makes { let v = T.view tables.old in Makes v (turns k (commits (T.offset tables.old))) result (T.view tables.new) }
    ensures since { T.since tables.old tables.new }
    ensures cause { IfErr result (T.fails tables.new) }
{
    tables.log_commit(k)?;
    Ok(Turn::Advanced)
}

/// Makes the log durable, with the commit.
pub(crate) fn force<T: Tables>(tables: &mut T, k: u8) -> Result<Turn, StoreFault>
    requires known { HasSession (T.view tables.old) k }
    requires at { (seat_of (T.view tables.old) k).stage ≡ forces }
    ensures makes { let v = T.view tables.old in Makes v (turns k (forces_it (T.offset tables.old))) result (T.view tables.new) }
    ensures durable { OnOk result (T.durable tables.new ≡ (T.view tables.old).state.history) }
    ensures since { T.since tables.old tables.new }
    ensures cause { IfErr result (T.fails tables.new) }
{
    tables.flush()?;
    tables.stand(k, Stage::Finishes);
    Ok(Turn::Advanced)
}

/// The session is told that its transaction is committed.
pub(crate) fn finish<T: Tables>(tables: &mut T, k: u8) -> Turn
    requires known { HasSession (T.view tables.old) k }
    requires active { IsActive (T.view tables.old) k }
    ensures makes { let v = T.view tables.old in Makes v (turns k finished) (Ok result) (T.view tables.new) }
    ensures since { T.since tables.old tables.new }
{
    tables.leave(k);
    Turn::Done(Reply::Committed)
}
