//! The laws: what holds of every run of the machine.

ghost use Rattle.rm_core.specs.Laws.{AcknowledgedIsDurable, MovesRun, RoomIsKept, RunsAreKept, RunsAreSerial, TracesTellLogs, UndoHasSpace};
ghost use Rattle.rm_core.specs.Searches.{NoSpaceIsExact, ReadsAreExact};

/// One more move of a run is a run.
#[tactic(auto, using(crate::proofs::Runs::moves_run))]
pub fn moves_run()
    ensures { MovesRun }
{}

/// The history is legal, locks and latches are apart, and each page's entry is right or a session will set it right.
#[tactic(auto, using(crate::proofs::Runs::run_kept))]
pub fn runs_are_kept()
    ensures { RunsAreKept }
{}

/// Committed transactions were told what one user alone may be told who makes them in the order of their commits,
/// unfinished ones what he may be told on the rows that are committed now; and the rows of each prefix of the log are
/// those after its first commits.
pub fn runs_are_serial()
    ensures { RunsAreSerial }
{}

/// The events tell the records past the opened log, in order.
#[tactic(auto, using(crate::proofs::Told::traces_tell_logs))]
pub fn traces_tell_logs()
    ensures { TracesTellLogs }
{}

/// A transaction that was told that it is committed has a durable commit record.
#[tactic(auto, using(crate::proofs::Told::acknowledged_is_durable))]
pub fn acknowledged_is_durable()
    ensures { AcknowledgedIsDurable }
{}

/// Settling, committing, rolling back and ending always have their room in the log, and so has restart's undo of each
/// prefix of it.
#[tactic(auto, using(crate::proofs::RestartRoom::room_is_kept))]
pub fn room_is_kept()
    ensures { RoomIsKept }
{}

/// No undo lacks space in its row's own page.
pub fn undo_has_space()
    ensures { UndoHasSpace }
{}

/// An insert is told that there is no space where it handled each page of the file, and always where none is left.
#[tactic(auto, using(crate::proofs::Told::no_space_is_exact))]
pub fn no_space_is_exact()
    ensures { NoSpaceIsExact }
{}

/// A read is told what the slot of the page holds.
#[tactic(auto, using(crate::proofs::Told::reads_are_exact))]
pub fn reads_are_exact()
    ensures { ReadsAreExact }
{}
