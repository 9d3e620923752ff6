//! Why a turn was not made.

ghost use Rattle.std.specs.Prelude.{◌≡◌};
ghost use Rattle.rm_engine.specs.declared.faults.TurnFault.TheVariants.{Fault as turn_fault, LogFull as log_full, NoMemory as no_memory};

use rm_types::{Fault, NoMemory, TxnId};
use rm_wal::LogFull;
use thiserror::Error;

/// Why a turn was not made. The session ends there.
#[derive(Clone, Copy, Debug, PartialEq, Eq, Error)]
pub enum TurnFault {
    /// The volume failed. It is to be opened again.
    #[error("{0}")]
    Fault(Fault),
    /// The log has no room for the turn; it would go on at `end`.
    #[error("the log has no room after byte {end}")]
    LogFull { end: u64 },
    /// Every id was given; `last` was the last.
    #[error("every transaction id up to {} was given", .last.0)]
    TxnsSpent { last: TxnId },
    #[error("out of memory")]
    NoMemory,
}

impl From<Fault> for TurnFault {
    ghost from_gives = { λ fault turn. turn ≡ turn_fault fault };

    fn from(fault: Fault) -> TurnFault {
        TurnFault::Fault(fault)
    }
}

impl From<LogFull> for TurnFault {
    ghost from_gives = { λ full turn. turn ≡ log_full full.end };

    fn from(full: LogFull) -> TurnFault {
        TurnFault::LogFull { end: full.end }
    }
}

impl From<NoMemory> for TurnFault {
    ghost from_gives = { λ _ turn. turn ≡ no_memory };

    fn from(_e: NoMemory) -> TurnFault {
        TurnFault::NoMemory
    }
}
