//! Log room (docs/DEFINITIONS.md, "Log room"): what a turn costs, what a transaction owes, and who is refused.

ghost use Rattle.std.specs.Prelude.{◌≡◌, ℕ, ◌+◌, ◌*◌, ◌^◌, ◌<◌, ◌≤◌, length, OnOk, Err, true};
ghost use Rattle.rm_types.specs.declared.numbers.TxnId.{TxnId as Txns};
ghost use Rattle.rm_types.specs.declared.faults.Fault.{Fault as Faults};
ghost use Rattle.rm_types.specs.declared.rows.TheConstants.{MAX_ROW};
ghost use Rattle.rm_engine.specs.Numbers.{IsReady, HasRoom, used_of, LacksRoom, LacksIds, owed_by, cost_of};

use crate::faults::TurnFault;
use rm_plain::Line;
use rm_session::Session;
use rm_types::{Fault, TxnId};
use rm_wal::Log;

/// What a transaction owes the log in bytes, and what each of its pending inserts owes.
pub const OWED: u64 = 64;

/// What a change costs beside its record, in bytes.
pub const CHANGE_COST: u64 = 32;

/// What an insert's record has beside its row, in bytes.
pub const INSERT_SIZE: u64 = 23;

/// A commit's record, in bytes.
pub const COMMIT_SIZE: u64 = 5;

/// What a transaction with this many pending inserts owes.
pub fn owed(inserts: u64) -> u64
    requires { inserts < 2 ^ 50 }
    ensures { result ≡ owed_by inserts }
{
    OWED + OWED * inserts
}

/// What an insert of this many bytes costs.
pub fn insert_cost(len: usize) -> u64
    requires { len ≤ MAX_ROW }
    ensures { result ≡ cost_of len }
{
    INSERT_SIZE + len as u64 + CHANGE_COST
}

/// Whether a transaction may begin: there is an id left, and room for what it owes.
///
/// # Errors
///
/// [`TurnFault::TxnsSpent`] exactly where every id was given; else [`TurnFault::LogFull`] exactly where the
/// log lacks the room.
pub fn room_to_begin(session: &Session, log: &Log) -> Result<(), TurnFault>
    requires { session.now.core.next ≤ 2 ^ 32 }
    ensures room { OnOk result (HasRoom session.now.core log.now 0 Line.Begin) }
    ensures full { (end : ℕ) → result ≡ Err (TurnFault.LogFull end) → LacksRoom log.now.limit session.now.core (used_of log.now 0) Line.Begin end }
    ensures spent { (last : Txns) → result ≡ Err (TurnFault.TxnsSpent last) → LacksIds session.now.core Line.Begin last }
    ensures only { (fault : Faults) → result ≡ Err (TurnFault.Fault fault) → ⊥ }
    ensures memory { result ≡ Err TurnFault.NoMemory → ⊥ }
{
    if session.is_active() {
        return Ok(());
    }
    if session.next() > u64::from(u32::MAX) {
        return Err(TurnFault::TxnsSpent {
            last: TxnId(u32::MAX),
        });
    }
    log.room(0, OWED)?;
    Ok(())
}
