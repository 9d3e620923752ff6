//! What a restart reads of a volume before it undoes anything.

ghost use Rattle.std.specs.Prelude.{◌≡◌, ◌≤◌, IfErr, IfOk, OnOk};
ghost use Rattle.rm_types.specs.declared.numbers.TheConstants.{MAX_LOG};
ghost use Rattle.rm_outside.specs.Calls.{facts_of, IsAllSynced, OnlyReads};
ghost use Rattle.rm_recovery.specs.Opening.{Finds, HasRead};
ghost use Rattle.rm_recovery.specs.Outcomes.{Explains};

use crate::faults::RestartFault;
use crate::redo::{Redone, redo_all};
use rm_master::{Fields, Master};
use rm_outside::{Volume, sync_areas};
use rm_record::Logged;
use rm_types::{Area, Fault};
use rm_wal::Log;
use std::alloc::Global;

/// The log of a volume, its records, the oldest first, and what their redo gave.
#[derive(Drop)]
pub struct Found {
    pub log: Log,
    pub records: Vec<Logged>,
    pub redone: Redone,
}

// The fields of a master that names no checkpoint, after a sync of all areas.
fn read_fields<V: Volume>(volume: &mut V) -> Result<Fields, RestartFault>
    ensures read { IfOk result (HasRead (V.models_content volume.new) (V.content volume.old)) }
    ensures synced { OnOk result (IsAllSynced V.Volume volume.new) }
    ensures cause { IfErr result (Explains (facts_of V.Volume volume.old) (facts_of V.Volume volume.new)) }
    ensures reads { OnlyReads V.Volume Area.Log volume.old volume.new }
{
    sync_areas(volume)?;
    let fields = Master::read(volume)?.fields;
    if fields.checkpoint != 0 {
        return Err(RestartFault::Fault(Fault::Damaged {
            area: Area::Log,
            at: fields.checkpoint,
        }));
    }
    Ok(fields)
}

// Attaches the log of a file with these fields, and redoes it.
fn read_log<V: Volume>(
    alloc: Global,
    volume: &mut V,
    fields: &Fields,
    limit: u64,
) -> Result<Found, RestartFault>
    requires limit { limit ≤ MAX_LOG }
    requires read { HasRead (V.models_content volume.old) (V.content volume.old) fields.now }
    requires synced { IsAllSynced V.Volume volume.old }
    ensures found { IfOk result (Finds (V.models_content volume.new) (V.content volume.old) limit) }
    ensures cause { IfErr result (Explains (facts_of V.Volume volume.old) (facts_of V.Volume volume.new)) }
    ensures reads { OnlyReads V.Volume Area.Log volume.old volume.new }
{
    let attached = Log::attach(alloc, volume, limit)?;
    let redone = redo_all(alloc, fields.pages, &attached.records)?;
    Ok(Found {
        log: attached.log,
        records: attached.records,
        redone,
    })
}

/// Syncs the areas of a volume, reads its master, and redoes its log from the start. It writes nothing.
pub fn read_volume<V: Volume>(
    alloc: Global,
    volume: &mut V,
    limit: u64,
) -> Result<Found, RestartFault>
    requires { limit ≤ MAX_LOG }
    ensures found { IfOk result (Finds (V.models_content volume.new) (V.content volume.old) limit) }
    ensures synced { OnOk result (IsAllSynced V.Volume volume.new) }
    ensures cause { IfErr result (Explains (facts_of V.Volume volume.old) (facts_of V.Volume volume.new)) }
    ensures reads { OnlyReads V.Volume Area.Log volume.old volume.new }
{
    let fields = read_fields(volume)?;
    read_log(alloc, volume, &fields, limit)
}
