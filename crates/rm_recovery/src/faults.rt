//! Why a volume was not opened.

ghost use Rattle.std.specs.Prelude.{◌≡◌};
ghost use Rattle.rm_recovery.specs.declared.faults.RestartFault.TheVariants as restart;
ghost use Rattle.rm_recovery.specs.Outcomes.{of_master, of_redo, of_store};

use crate::redo::RedoRefused;
use rm_master::MasterFault;
use rm_types::{Area, Fault, StoreFault};
use thiserror::Error;

/// Why a volume was not opened.
#[derive(Clone, Copy, Debug, PartialEq, Eq, Error)]
pub enum RestartFault {
    /// The made byte is not 1.
    #[error("the volume is not made: create it first")]
    NotMade,
    /// An area failed, or it is damaged at that byte.
    #[error("{0}")]
    Fault(Fault),
    #[error("out of memory")]
    NoMemory,
}

impl From<Fault> for RestartFault {
    ghost from_gives = { λ fault opened. opened ≡ restart.Fault fault };

    fn from(fault: Fault) -> RestartFault {
        RestartFault::Fault(fault)
    }
}

impl From<MasterFault> for RestartFault {
    ghost from_gives = { λ fault opened. opened ≡ of_master fault };

    fn from(fault: MasterFault) -> RestartFault {
        match fault {
            MasterFault::NotMade => RestartFault::NotMade,
            MasterFault::Fault(fault) => RestartFault::Fault(fault),
        }
    }
}

impl From<StoreFault> for RestartFault {
    ghost from_gives = { λ fault opened. opened ≡ of_store fault };

    fn from(fault: StoreFault) -> RestartFault {
        match fault {
            StoreFault::Fault(fault) => RestartFault::Fault(fault),
            StoreFault::NoMemory => RestartFault::NoMemory,
        }
    }
}

impl From<RedoRefused> for RestartFault {
    ghost from_gives = { λ refused opened. opened ≡ of_redo refused };

    fn from(refused: RedoRefused) -> RestartFault {
        match refused {
            RedoRefused::Misfit { at } => RestartFault::Fault(Fault::Damaged {
                area: Area::Log,
                at: at.0,
            }),
            RedoRefused::NoMemory => RestartFault::NoMemory,
        }
    }
}
