//! Why work on a volume stopped.

ghost use Rattle.std.specs.Prelude.{◌≡◌};
ghost use Rattle.rm_types.specs.declared.faults.StoreFault.TheVariants.{Fault as store_fault, NoMemory as no_memory};

use crate::areas::Area;
use crate::memory::NoMemory;
use std::alloc::{AllocError, AllocFailed};
use thiserror::Error;

/// A fault of the volume.
#[derive(Clone, Copy, Debug, PartialEq, Eq, Error)]
pub enum Fault {
    /// That area of the volume failed.
    #[error("area {area} of the volume failed: check the device, then open the volume again")]
    Volume { area: Area },
    /// The area is damaged at that byte.
    #[error("area {area} of the volume is damaged at byte {at}: restore it from a copy")]
    Damaged { area: Area, at: u64 },
}

/// A fault of the volume, or out of memory.
#[derive(Clone, Copy, Debug, PartialEq, Eq, Error)]
pub enum StoreFault {
    #[error("{0}")]
    Fault(Fault),
    #[error("out of memory")]
    NoMemory,
}

impl From<Fault> for StoreFault {
    ghost from_gives = { λ fault stored. stored ≡ store_fault fault };

    fn from(fault: Fault) -> StoreFault {
        StoreFault::Fault(fault)
    }
}

impl From<NoMemory> for StoreFault {
    ghost from_gives = { λ _ stored. stored ≡ no_memory };

    fn from(_e: NoMemory) -> StoreFault {
        StoreFault::NoMemory
    }
}

impl From<AllocError> for StoreFault {
    ghost from_gives = { λ _ stored. stored ≡ no_memory };

    fn from(_e: AllocError) -> StoreFault {
        StoreFault::NoMemory
    }
}

impl<T: Drop> From<AllocFailed<T>> for StoreFault {
    ghost from_gives = { λ _ stored. stored ≡ no_memory };

    fn from(_e: AllocFailed<T>) -> StoreFault {
        StoreFault::NoMemory
    }
}
