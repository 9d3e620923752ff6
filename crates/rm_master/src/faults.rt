//! Why the master was not read, or not made.

ghost use Rattle.std.specs.Prelude.{◌≡◌};
ghost use Rattle.rm_master.specs.declared.faults.MasterFault.TheVariants.{Fault as read_fault};
ghost use Rattle.rm_master.specs.declared.faults.CreateFault.TheVariants.{Fault as create_fault};

use thiserror::Error;

/// Why the master was not read.
#[derive(Clone, Copy, Debug, PartialEq, Eq, Error)]
pub enum MasterFault {
    /// The volume is not made.
    #[error("the volume is not made: create it first")]
    NotMade,
    /// The volume failed, or its current slot is damaged.
    #[error("{0}")]
    Fault(rm_types::Fault),
}

impl From<rm_types::Fault> for MasterFault {
    ghost from_gives = { λ fault read. read ≡ read_fault fault };

    fn from(fault: rm_types::Fault) -> MasterFault {
        MasterFault::Fault(fault)
    }
}

/// Why the volume was not made.
#[derive(Clone, Copy, Debug, PartialEq, Eq, Error)]
pub enum CreateFault {
    /// The volume is made already.
    #[error("the volume is made already: it was left as it was")]
    AlreadyMade,
    /// The volume failed.
    #[error("the volume may be made in part: {0}")]
    Fault(rm_types::Fault),
}

impl From<rm_types::Fault> for CreateFault {
    ghost from_gives = { λ fault made. made ≡ create_fault fault };

    fn from(fault: rm_types::Fault) -> CreateFault {
        CreateFault::Fault(fault)
    }
}
