//! Opening a volume.

ghost use Rattle.std.specs.Prelude.{◌≡◌, ◌+◌, ◌^◌, ◌≤◌, map, IfOk, OnOk, IfErr};
ghost use Rattle.rm_types.specs.declared.numbers.TheConstants.{MAX_LOG};
ghost use Rattle.rm_outside.specs.Calls.{facts_of, IsAllSynced, OnlyReads};
ghost use Rattle.rm_master.specs.Fields.{IsFields};
ghost use Rattle.rm_master.specs.Slots.{HasFields};
ghost use Rattle.rm_restart.specs.Opening.{Opens};
ghost use Rattle.rm_restart.specs.Outcomes.{Explains, IsNone, IsUndo};
ghost use Rattle.rm_model.specs.Files.{slots_of};

use crate::faults::RestartFault;
use crate::replay::{Replay, replayed};
use rm_master::{Fields, Master};
use rm_outside::{Volume, sync_areas};
use rm_page::Page;
use rm_types::{Area, Fault};
use rm_wal::Log;
use std::alloc::Global;

/// What restart did: how many changes of the log it read from its redo point on, how many of them it
/// applied, and how many it undid.
#[derive(Clone, Copy, Debug, PartialEq, Eq)]
pub struct Report {
    /// The gate offset from which the log was replayed.
    pub redo: u64,
    pub records: u64,
    pub applied: u64,
    pub undone: u64,
}

/// An opened volume: the pages of its file, the id of the next transaction, and its log.
#[derive(Debug, Drop)]
pub struct Opened {
    pub pages: Vec<Page>,
    pub next: u64,
    pub log: Log,
    pub report: Report,
}

// The fields of a master that names no checkpoint, after a sync of all areas.
fn read_fields<V: Volume>(volume: &mut V) -> Result<Fields, RestartFault>
    ensures rules { IfOk result IsFields }
    ensures none { IfOk result (λ fields. fields.checkpoint ≡ 0) }
    ensures fields { IfOk result (λ fields. V.models_content volume.new → HasFields (V.content volume.old Area.Master) fields) }
    ensures synced { OnOk result (IsAllSynced V.Volume volume.new) }
    ensures cause { IfErr result (Explains (facts_of V.Volume volume.old) (facts_of V.Volume volume.new)) }
    ensures reads { OnlyReads V.Volume Area.Log volume.old volume.new }
{
    sync_areas(volume)?;
    let fields = Master::read(volume)?.fields;
    if fields.checkpoint != 0 {
        return Err(RestartFault::Fault(Fault::Damaged {
            area: Area::Log,
            at: fields.checkpoint,
        }));
    }
    Ok(fields)
}

// The volume that a replay of its whole log opens, if it left nothing pending.
fn finished(replay: Replay, log: Log) -> Result<Opened, RestartFault>
    ensures none { OnOk result (IsNone replay.pending) }
    ensures pages { IfOk result (λ opened. opened.pages.items ≡ replay.pages.items) }
    ensures next { IfOk result (λ opened. opened.next ≡ replay.greatest + 1) }
    ensures log { IfOk result (λ opened. opened.log ≡ log) }
    ensures report { IfOk result (λ opened. opened.report ≡ record { redo = 0; records = replay.inserts; applied = replay.inserts; undone = 0 }) }
    ensures pends { IfErr result (IsUndo replay.pending) }
{
    if let Some(txn) = replay.least_pending() {
        return Err(RestartFault::NeedsUndo { txn });
    }
    let Replay {
        pages,
        greatest,
        inserts,
        ..
    } = replay;
    Ok(Opened {
        pages,
        next: greatest as u64 + 1,
        log,
        report: Report {
            redo: 0,
            records: inserts,
            applied: inserts,
            undone: 0,
        },
    })
}

// Attaches the log of a file with these fields, and replays it.
fn read_log<V: Volume>(
    alloc: Global,
    volume: &mut V,
    fields: &Fields,
    limit: u64,
) -> Result<Opened, RestartFault>
    requires limit { limit ≤ MAX_LOG }
    requires rules { IsFields fields.now }
    requires none { fields.now.checkpoint ≡ 0 }
    requires fields { V.models_content volume.old → HasFields (V.content volume.old Area.Master) fields.now }
    requires synced { IsAllSynced V.Volume volume.old }
    ensures opened { IfOk result (λ opened. Opens (V.models_content volume.new) (V.content volume.old) limit (slots_of opened.pages.items) opened.next opened.log opened.report.records) }
    ensures next { IfOk result (λ opened. opened.next ≤ 2 ^ 32) }
    ensures report { IfOk result (λ opened. opened.report ≡ record { redo = 0; records = opened.report.records; applied = opened.report.records; undone = 0 }) }
    ensures cause { IfErr result (Explains (facts_of V.Volume volume.old) (facts_of V.Volume volume.new)) }
    ensures reads { OnlyReads V.Volume Area.Log volume.old volume.new }
{
    let attached = Log::attach(alloc, volume, limit)?;
    let replay = replayed(alloc, fields.pages, &attached.records)?;
    finished(replay, attached.log)
}

/// Opens a volume: syncs its areas, reads its master, and replays its log from the start into pages in memory.
/// The log grows up to `limit` bytes, at most 2^48. It writes nothing.
///
/// # Errors
///
/// But for a fault of the volume, and where memory runs out, all areas were synced.
///
/// - [`RestartFault::NotMade`] where the made byte is not 1.
/// - [`Fault::Damaged`] on a volume that is made: the master's place, where it has no fields; the log's first place that
///   is out of its grammar; the checkpoint that the master names, since no log has one yet; or the LSN of the first
///   record that names no page of the file, or whose page has no room for it, or that is of a kind that no log has yet.
/// - [`RestartFault::NeedsUndo`] with the least transaction that has a record in the log and did not commit.
/// - [`Fault::Volume`] with the area that failed.
/// - [`RestartFault::NoMemory`].
pub fn restart<V: Volume>(alloc: Global, volume: &mut V, limit: u64) -> Result<Opened, RestartFault>
    requires { limit ≤ MAX_LOG }
    ensures opened { IfOk result (λ opened. Opens (V.models_content volume.new) (V.content volume.old) limit (map (λ page. page.slots) opened.pages.items) opened.next opened.log opened.report.records) }
    ensures next { IfOk result (λ opened. (1 ≤ opened.next) × (opened.next ≤ 2 ^ 32)) }
    ensures report { IfOk result (λ opened. opened.report ≡ record { redo = 0; records = opened.report.records; applied = opened.report.records; undone = 0 }) }
    ensures synced { OnOk result (IsAllSynced V.Volume volume.new) }
    ensures cause { IfErr result (Explains (facts_of V.Volume volume.old) (facts_of V.Volume volume.new)) }
    ensures reads { OnlyReads V.Volume Area.Log volume.old volume.new }
{
    let fields = read_fields(volume)?;
    read_log(alloc, volume, &fields, limit)
}
