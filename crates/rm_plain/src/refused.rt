//! Why a script is refused.

ghost use Rattle.std.specs.Prelude.{◌≡◌};
ghost use Rattle.rm_plain.specs.declared.refused.ScriptRefused.TheVariants as refused;

use crate::lines::Which;
use std::alloc::{AllocError, AllocFailed};
use thiserror::Error;

/// Why bytes are no script in the form that was asked for.
#[derive(Clone, Copy, Debug, PartialEq, Eq, Error)]
pub enum ScriptRefused {
    /// That line, from 1, is the first that is wrong, or that is lacking where the script ends too early.
    #[error("line {line} of the script is wrong or lacking")]
    Bad { line: u64 },
    /// The script has more of that than its limit.
    #[error("the script has too many {which}")]
    Limit { which: Which },
    #[error("out of memory")]
    NoMemory,
}

impl From<Which> for ScriptRefused {
    ghost from_gives = { λ which e. e ≡ refused.Limit which };

    fn from(which: Which) -> ScriptRefused {
        ScriptRefused::Limit { which }
    }
}

impl From<AllocError> for ScriptRefused {
    ghost from_gives = { λ _ e. e ≡ refused.NoMemory };

    fn from(_e: AllocError) -> ScriptRefused {
        ScriptRefused::NoMemory
    }
}

impl<T: Drop> From<AllocFailed<T>> for ScriptRefused {
    ghost from_gives = { λ _ e. e ≡ refused.NoMemory };

    fn from(_e: AllocFailed<T>) -> ScriptRefused {
        ScriptRefused::NoMemory
    }
}

impl From<rm_types::NoMemory> for ScriptRefused {
    ghost from_gives = { λ _ e. e ≡ refused.NoMemory };

    fn from(_e: rm_types::NoMemory) -> ScriptRefused {
        ScriptRefused::NoMemory
    }
}
