//! The four calls of a flush.

ghost use Rattle.std.specs.Prelude.{◌≡◌, ℕ, ◌+◌, ◌^◌, ◌≤◌, length, OnOk};
ghost use Rattle.rm_outside.specs.Images.{Image};
ghost use Rattle.rm_outside.specs.Calls.{FailsIn, IsSynced, WritesIn};
ghost use Rattle.rm_wal.specs.Flushing.{FlushStep, IsFlushed};

use rm_outside::{Volume, sync_area, write_area};
use rm_types::{Area, Fault};

/// The byte of a gate that is open.
pub(crate) const OPEN: u8 = 1;

// Writes the bytes after the gate, syncs, opens the gate, and syncs.
pub(crate) fn write_batch<V: Volume>(volume: &mut V, gate: u64, bytes: &[u8]) -> Result<(), Fault>
    requires range { gate + (1 + length bytes.now) ≤ 2 ^ 49 }
    requires synced { IsSynced V.Volume Area.Log volume.old }
    ensures flushed { OnOk result ((c : Image) → V.may_leave volume.new c → IsFlushed gate bytes.now c) }
    ensures synced { OnOk result (IsSynced V.Volume Area.Log volume.new) }
    ensures writes { WritesIn V.Volume Area.Log (FlushStep gate bytes.now) volume.old volume.new }
    ensures cause { FailsIn V.Volume Area.Log volume.old volume.new result }
{
    write_area(volume, Area::Log, gate + 1, bytes)?;
    sync_area(volume, Area::Log)?;
    write_area(volume, Area::Log, gate, &[OPEN])?;
    sync_area(volume, Area::Log)
}
