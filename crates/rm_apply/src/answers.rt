//! The answers of redo.

ghost use Rattle.std.specs.Prelude.{◌≡◌};
ghost use Rattle.rm_apply.specs.declared.answers.ApplyRefused.TheVariants as refused;

use thiserror::Error;

/// What redo of a record did.
#[derive(Clone, Copy, Debug, PartialEq, Eq)]
pub enum Applied {
    /// The record was applied.
    Changed,
    /// The page or the block has the record already, or a later one: its LSN is not below the record's.
    Older,
}

/// Why a record was not applied.
#[derive(Clone, Copy, Debug, PartialEq, Eq, Error)]
pub enum ApplyRefused {
    /// The page cannot have what the record sets: it would use more than [`rm_types::CAPACITY`] bytes, or a slot past
    /// its end would become vacant.
    #[error("the log record does not fit its page: the log or the page is damaged, restore them from a copy")]
    Unfit,
    #[error("out of memory")]
    NoMemory,
}

impl From<rm_types::NoMemory> for ApplyRefused {
    ghost from_gives = { λ _ e. e ≡ refused.NoMemory };

    fn from(_e: rm_types::NoMemory) -> ApplyRefused {
        ApplyRefused::NoMemory
    }
}
