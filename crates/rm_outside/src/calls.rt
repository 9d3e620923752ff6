//! The calls on a volume, with faults that name the area.

ghost use Rattle.std.specs.Prelude.{OnOk, length};
ghost use Rattle.rm_outside.specs.Areas.{CanReach};
ghost use Rattle.rm_outside.specs.Images.{Torn};
ghost use Rattle.rm_outside.specs.Calls.{HasBytes, IsSynced, IsAllSynced, OnlyReads, OnlySyncs, Writes, FailsIn, Fails};

use crate::volume::Volume;
use rm_types::{Area, Fault};

/// Fills `into` with the bytes of the area at `at`, in bytes from its start.
///
/// # Errors
///
/// [`Fault::Volume`] with the area, where it failed.
pub fn read_area<V: Volume>(
    volume: &mut V,
    area: Area,
    at: u64,
    into: &mut [u8],
) -> Result<(), Fault>
    requires { CanReach area at (length into.old) }
    ensures bytes { OnOk result (HasBytes V.Volume volume.old volume.new area at into.new) }
    ensures reads { OnlyReads V.Volume area volume.old volume.new }
    ensures cause { FailsIn V.Volume area volume.old volume.new result }
{
    match volume.read(area, at, into) {
        Ok(()) => Ok(()),
        Err(_) => Err(Fault::Volume { area }),
    }
}

/// Writes the bytes to the area at `at`, in bytes from its start. Until the area's next sync a crash may leave a
/// part of them.
///
/// # Errors
///
/// [`Fault::Volume`] with the area, where it failed. A part of the bytes may be written then.
pub fn write_area<V: Volume>(volume: &mut V, area: Area, at: u64, from: &[u8]) -> Result<(), Fault>
    requires { CanReach area at (length from.now) }
    ensures bytes { OnOk result (HasBytes V.Volume volume.new volume.new area at from.now) }
    ensures writes { Writes V.Volume (Torn area at from.now) volume.old volume.new }
    ensures cause { FailsIn V.Volume area volume.old volume.new result }
{
    match volume.write(area, at, from) {
        Ok(()) => Ok(()),
        Err(_) => Err(Fault::Volume { area }),
    }
}

/// Makes what was written to the area durable.
///
/// # Errors
///
/// [`Fault::Volume`] with the area, where it failed. Nothing is durable for certain then.
pub fn sync_area<V: Volume>(volume: &mut V, area: Area) -> Result<(), Fault>
    ensures synced { OnOk result (IsSynced V.Volume area volume.new) }
    ensures reads { OnlySyncs V.Volume volume.old volume.new }
    ensures cause { FailsIn V.Volume area volume.old volume.new result }
{
    match volume.sync(area) {
        Ok(()) => Ok(()),
        Err(_) => Err(Fault::Volume { area }),
    }
}

/// Makes what was written to Log, Data and Space durable, in this order.
///
/// # Errors
///
/// [`Fault::Volume`] with the area that failed. Nothing is durable for certain then.
pub fn sync_content<V: Volume>(volume: &mut V) -> Result<(), Fault>
    ensures synced { OnOk result (IsSynced V.Volume Area.Log volume.new × IsSynced V.Volume Area.Data volume.new × IsSynced V.Volume Area.Space volume.new) }
    ensures reads { OnlySyncs V.Volume volume.old volume.new }
    ensures cause { Fails V.Volume volume.old volume.new result }
{
    sync_area(volume, Area::Log)?;
    sync_area(volume, Area::Data)?;
    sync_area(volume, Area::Space)
}

/// Makes what was written to each area durable, in the order Master, Log, Data, Space, Copy. Then a crash leaves the
/// content and nothing else.
///
/// # Errors
///
/// [`Fault::Volume`] with the area that failed. Nothing is durable for certain then.
pub fn sync_areas<V: Volume>(volume: &mut V) -> Result<(), Fault>
    ensures synced { OnOk result (IsAllSynced V.Volume volume.new) }
    ensures reads { OnlySyncs V.Volume volume.old volume.new }
    ensures cause { Fails V.Volume volume.old volume.new result }
{
    sync_area(volume, Area::Master)?;
    sync_content(volume)?;
    sync_area(volume, Area::Copy)
}
