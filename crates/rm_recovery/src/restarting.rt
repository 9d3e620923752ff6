//! Restart of a volume.

ghost use Rattle.std.specs.Prelude.{◌≡◌, ◌≤◌, ◌^◌, IfErr, IfOk};
ghost use Rattle.rm_types.specs.declared.formats.Format.TheVariants.{One};
ghost use Rattle.rm_types.specs.declared.numbers.TheConstants.{MAX_LOG};
ghost use Rattle.rm_outside.specs.Calls.{facts_of, IsAllSynced, OnlyReads};
ghost use Rattle.rm_pool.specs.Journals.{JournalValue};
ghost use Rattle.rm_recovery.specs.Opening.{Finds, Opens, Stops, StopsFrom};
ghost use Rattle.rm_recovery.specs.Outcomes.{Explains};

use crate::faults::RestartFault;
use crate::opening::{Found, read_volume};
use crate::undo::undo_losers;
use rm_outside::Volume;
use rm_pool::{Journal, Store};
use rm_types::{Area, Format};
use std::alloc::Global;

/// What a restart did: from which offset on it repeated the log, how many changes it read from there on, how many of
/// them it applied, and how many it undid.
#[derive(Clone, Copy, Debug, PartialEq, Eq)]
pub struct Report {
    pub redo: u64,
    pub records: u64,
    pub applied: u64,
    pub undone: u64,
}

/// An opened volume: its pages and its log, its format, the id of the next transaction, and what the restart did.
#[derive(Drop)]
pub struct Opened<V: Volume> {
    pub store: Store<V>,
    pub format: Format,
    pub next: u64,
    pub report: Report,
}

/// A volume that was not opened, and why.
#[derive(Drop)]
pub struct Refused<V: Volume> {
    pub volume: V,
    pub fault: RestartFault,
}

// Undoes what is pending in the log that was found on the volume.
fn finish<V: Volume>(
    alloc: Global,
    volume: V,
    found: Found,
    limit: u64,
) -> Result<Opened<V>, Refused<V>>
    requires found { Finds (V.models_content volume) (V.content volume) limit found }
    requires synced { IsAllSynced V.Volume volume }
    ensures opens { IfOk result (λ opened. Opens (V.models_content opened.store.journal.volume) (V.content volume) limit opened.store opened.next opened.report) }
    ensures opened { IfOk result (λ opened. opened.store.journal.opened ≡ volume) }
    ensures next { IfOk result (λ opened. (1 ≤ opened.next) × (opened.next ≤ 2 ^ 32)) }
    ensures format { IfOk result (λ opened. opened.format ≡ One) }
    ensures stops { IfErr result (λ refused. (it : JournalValue V) × StopsFrom V.Volume volume refused.volume it) }
    ensures cause { IfErr result (λ refused. Explains (facts_of V.Volume volume) (facts_of V.Volume refused.volume) refused.fault) }
{
    let Found {
        log,
        records,
        redone,
    } = found;
    let journal = Journal::over(volume, log, &records);
    let mut store = Store::over(journal, redone.frames);
    let next = u64::from(redone.losers.greatest) + 1;
    match undo_losers(&mut store, alloc, redone.losers) {
        Ok(undone) => Ok(Opened {
            store,
            format: Format::One,
            next,
            report: Report {
                redo: 0,
                records: redone.count,
                applied: redone.count,
                undone,
            },
        }),
        Err(fault) => Err(Refused {
            volume: store.into_volume(),
            fault: RestartFault::from(fault),
        }),
    }
}

/// Opens a volume: syncs its areas, reads its master, repeats its log from the start on pages in memory, undoes what is
/// pending, the newest change first, ends each transaction that is not finished, and makes that durable. The log grows
/// up to `limit` bytes, at most 2^48; the undo may pass the limit, since the log of a sound volume was left room for it.
///
/// # Errors
///
/// The volume comes back.
///
/// - [`RestartFault::NotMade`] where the made byte is not 1.
/// - [`Fault::Damaged`](rm_types::Fault::Damaged) on a volume that is made: the master's place, where it has no fields;
///   the log's first place that is out of its grammar; the checkpoint that the master names, since no log has one yet;
///   the LSN of the first record that names no page of the file, whose page cannot have what it sets, that enters what
///   is no category, or that is a checkpoint; or the LSN of a pending change that cannot be undone, or where the end of
///   a transaction finds no room in the log.
/// - [`Fault::Volume`](rm_types::Fault::Volume) with the area that failed.
/// - [`RestartFault::NoMemory`].
pub fn restart<V: Volume>(alloc: Global, volume: V, limit: u64) -> Result<Opened<V>, Refused<V>>
    requires { limit ≤ MAX_LOG }
    ensures opens { IfOk result (λ opened. Opens (V.models_content opened.store.journal.volume) (V.content volume) limit opened.store opened.next opened.report) }
    ensures reads { IfOk result (λ opened. OnlyReads V.Volume Area.Log volume opened.store.journal.opened) }
    ensures synced { IfOk result (λ opened. IsAllSynced V.Volume opened.store.journal.opened) }
    ensures next { IfOk result (λ opened. (1 ≤ opened.next) × (opened.next ≤ 2 ^ 32)) }
    ensures format { IfOk result (λ opened. opened.format ≡ One) }
    ensures stops { IfErr result (λ refused. Stops V.Volume volume refused.volume) }
    ensures cause { IfErr result (λ refused. Explains (facts_of V.Volume volume) (facts_of V.Volume refused.volume) refused.fault) }
{
    let mut volume = volume;
    match read_volume(alloc, &mut volume, limit) {
        Ok(found) => finish(alloc, volume, found, limit),
        Err(fault) => Err(Refused { volume, fault }),
    }
}
