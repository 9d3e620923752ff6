//! Why bytes are not read as a record.

ghost use Rattle.std.specs.Prelude.{◌≡◌};
ghost use Rattle.rm_record.specs.declared.refused.DecodeRefused.TheVariants as refused;

use std::alloc::{AllocError, AllocFailed};
use thiserror::Error;

/// Why bytes are not read as a record.
#[derive(Clone, Copy, Debug, PartialEq, Eq, Error)]
pub enum DecodeRefused {
    /// No prefix of the bytes is a record.
    #[error("the bytes begin with no log record")]
    Bad,
    /// Memory for the record's rows and lists ran out.
    #[error("out of memory")]
    NoMemory,
}

impl From<AllocError> for DecodeRefused {
    ghost from_gives = { λ _ e. e ≡ refused.NoMemory };

    fn from(_e: AllocError) -> DecodeRefused {
        DecodeRefused::NoMemory
    }
}

impl<T: Drop> From<AllocFailed<T>> for DecodeRefused {
    ghost from_gives = { λ _ e. e ≡ refused.NoMemory };

    fn from(_e: AllocFailed<T>) -> DecodeRefused {
        DecodeRefused::NoMemory
    }
}

impl From<rm_types::NoMemory> for DecodeRefused {
    ghost from_gives = { λ _ e. e ≡ refused.NoMemory };

    fn from(_e: rm_types::NoMemory) -> DecodeRefused {
        DecodeRefused::NoMemory
    }
}
