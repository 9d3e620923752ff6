//! Latches of pages, and the ends of operations that need none.

ghost use Rattle.std.specs.Prelude.{◌≡◌, false};
ghost use Rattle.rm_core.specs.Names.{idle, latched, log_full, answered};
ghost use Rattle.rm_play.specs.Choosing.{latching_at};
ghost use Rattle.rm_ops.specs.Views.{HasSession, IsActive, IsOfFile, seat_of, op_at, is_over, stood};
ghost use Rattle.rm_ops.specs.Stages.{stage_with};
ghost use Rattle.rm_ops.specs.Making.{Makes};

use crate::stages::Stage;
use crate::tables::Tables;
use rm_events::{Reply, Turn};

/// The session gets the page's latch and goes to the stage after it, or is told which session has the latch.
pub(crate) fn latch<T: Tables>(tables: &mut T, k: u8, page: u32, next: Stage) -> Turn
    requires known { HasSession (T.view tables.old) k }
    requires next { stage_with (op_at (T.view tables.old) k) next ≡ latched (seat_of (T.view tables.old) k).stage page }
    requires over { is_over (latched (seat_of (T.view tables.old) k).stage page) ≡ is_over (seat_of (T.view tables.old) k).stage }
    requires inside { IsOfFile (T.view tables.old).setting.pages (latched (seat_of (T.view tables.old) k).stage page) }
    ensures makes { Makes (T.view tables.old) (latching_at (T.view tables.old).state k page) (Ok result) (T.view tables.new) }
    ensures since { T.since tables.old tables.new }
{
    match tables.barring(k, page) {
        None => {
            tables.stand(k, next);
            Turn::Advanced
        }
        Some(by) => Turn::Again { by: by + 1 },
    }
}

/// The operation is over, with that reply, and its latch is free.
pub(crate) fn close<T: Tables>(tables: &mut T, k: u8, reply: Reply) -> Turn
    requires known { HasSession (T.view tables.old) k }
    requires over { IsActive (T.view tables.old) k → is_over (seat_of (T.view tables.old) k).stage ≡ false }
    ensures view { T.view tables.new ≡ stood (T.view tables.old) k idle }
    ensures answer { result ≡ Turn.Done reply }
    ensures since { T.since tables.old tables.new }
{
    tables.stand(k, Stage::Idle);
    Turn::Done(reply)
}

/// The operation is closed, since the log has no room for it, and its latch is free.
pub(crate) fn refuse_room<T: Tables>(tables: &mut T, k: u8) -> Turn
    requires known { HasSession (T.view tables.old) k }
    requires over { IsActive (T.view tables.old) k → is_over (seat_of (T.view tables.old) k).stage ≡ false }
    ensures makes { Makes (T.view tables.old) (answered k (log_full (T.offset tables.old))) (Ok result) (T.view tables.new) }
    ensures since { T.since tables.old tables.new }
{
    let end = tables.end();
    tables.stand(k, Stage::Idle);
    Turn::LogFull { end }
}
