//! Why a lock was not granted.

ghost use Rattle.std.specs.Prelude.{◌≡◌};
ghost use Rattle.rm_locks.specs.declared.refusals.LockRefused.TheVariants.{NoMemory as no_memory};

use rm_types::{NoMemory, TxnId};
use thiserror::Error;

/// Why a lock was not granted.
#[derive(Clone, Copy, Debug, PartialEq, Eq, Error)]
pub enum LockRefused {
    /// The least of the other transactions that have an incompatible lock on the row id.
    #[error("transaction {} has an incompatible lock on the row: try again when it is finished", .holder.0)]
    Held { holder: TxnId },
    /// Memory ran out.
    #[error("out of memory")]
    NoMemory,
}

impl From<NoMemory> for LockRefused {
    ghost from_gives = { λ _ refused. refused ≡ no_memory };

    fn from(_e: NoMemory) -> LockRefused {
        LockRefused::NoMemory
    }
}
