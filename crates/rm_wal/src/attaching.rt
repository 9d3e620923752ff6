//! Attaching a log: reading the batches that stand in area Log.

ghost use Rattle.std.specs.Prelude.{◌≡◌, ℕ, ◌≤◌, IfOk, Err};
ghost use Rattle.rm_types.specs.declared.areas.Area.{Area as Areas};
ghost use Rattle.rm_types.specs.declared.numbers.TheConstants.{MAX_LOG};
ghost use Rattle.rm_outside.specs.Calls.{OnlyReads, StoreFailsIn};
ghost use Rattle.rm_history.specs.Logs.{IsDamagedAt};
ghost use Rattle.rm_wal.specs.Attaching.{Attaches};
ghost use Rattle.rm_wal.specs.Batches.{ReadsAllBatches};

use crate::log::Log;
use crate::reading::read_batch;
use rm_outside::Volume;
use rm_record::Logged;
use rm_types::{Area, Fault, StoreFault};
use std::alloc::Global;

/// A log that was attached, and its records with their LSNs, the oldest first.
#[derive(Debug, Drop)]
pub struct Attached {
    pub log: Log,
    pub records: Vec<Logged>,
}

// The records of all batches before the first gate that is closed, and that gate.
fn read_batches<V: Volume>(alloc: Global, volume: &mut V) -> Result<(Vec<Logged>, u64), StoreFault>
    ensures found { IfOk result (λ found. ReadsAllBatches (V.models_content volume.new) (V.content volume.old Area.Log) found.1 found.0.items) }
    ensures bound { IfOk result (λ found. found.1 ≤ MAX_LOG) }
    ensures damaged { (area : Areas) (at : ℕ) → result ≡ Err (StoreFault.Fault (Fault.Damaged area at)) → (area ≡ Area.Log) × (V.models_content volume.new → IsDamagedAt (V.content volume.old Area.Log) at) }
    ensures cause { StoreFailsIn V.Volume Area.Log volume.old volume.new result }
    ensures reads { OnlyReads V.Volume Area.Log volume.old volume.new }
{
    let mut records = Vec::new(alloc);
    let mut gate = 0;
    while let Some(next) = read_batch(alloc, volume, gate, &mut records)? {
        gate = next;
    }
    Ok((records, gate))
}

impl Log {
    /// Reads the batches of area Log up to the first gate that is closed: the log that comes after them with an
    /// empty tail, which grows up to `limit` (at most 2^48), and their records. It writes nothing.
    ///
    /// # Errors
    ///
    /// [`Fault::Damaged`] with area Log: after an open gate, the offset of a length that is out of range, or else of the
    /// first place within the length at which no record stands. [`Fault::Volume`] with area Log, where it failed.
    /// [`StoreFault::NoMemory`].
    pub fn attach<V: Volume>(
        alloc: Global,
        volume: &mut V,
        limit: u64,
    ) -> Result<Attached, StoreFault>
        requires { limit ≤ MAX_LOG }
        ensures attached { IfOk result (λ attached. Attaches (V.models_content volume.new) (V.content volume.old Area.Log) limit attached.log attached.records.items) }
        ensures damaged { (area : Areas) (at : ℕ) → result ≡ Err (StoreFault.Fault (Fault.Damaged area at)) → (area ≡ Area.Log) × (V.models_content volume.new → IsDamagedAt (V.content volume.old Area.Log) at) }
        ensures cause { StoreFailsIn V.Volume Area.Log volume.old volume.new result }
        ensures reads { OnlyReads V.Volume Area.Log volume.old volume.new }
    {
        let (records, gate) = read_batches(alloc, volume)?;
        let log = Log::new(alloc, gate, limit)?;
        Ok(Attached { log, records })
    }
}
