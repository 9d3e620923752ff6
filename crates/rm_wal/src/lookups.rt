//! Finding a record by its LSN, as an undo does.

ghost use Rattle.std.specs.Prelude.{◌≡◌, ℕ, ◌<◌, ◌≤◌, vec_len, IfOk, Err};
ghost use Rattle.rm_types.specs.declared.areas.Area.{Area as Areas};
ghost use Rattle.rm_types.specs.declared.numbers.TheConstants.{MAX_LOG};
ghost use Rattle.rm_outside.specs.Calls.{HasBytes, OnlyReads, StoreFailsIn};
ghost use Rattle.rm_record.specs.Records.{IsRecord, spelling};
ghost use Rattle.rm_wal.specs.Lookups.{AreWithin, HasNoneAt, StandsInTail, HasNoneInTail};
ghost use Rattle.rm_wal.specs.Tails.{end_of};

use crate::log::Log;
use crate::parsing::{damaged, decode_at};
use crate::reading::read_bytes;
use rm_history::BATCH_HEADER;
use rm_outside::Volume;
use rm_record::{LogRecord, MAX_CHANGE};
use rm_types::{Area, Fault, Lsn, StoreFault};
use std::alloc::Global;

// Bytes of area Log from that offset on: enough for any record that stands there. A record that is no checkpoint is read
// by one call, and a short one.
fn read_enough<V: Volume>(alloc: Global, volume: &mut V, at: u64) -> Result<Vec<u8>, StoreFault>
    requires { at ≤ MAX_LOG }
    ensures bytes { IfOk result (λ bytes. HasBytes V.Volume volume.old volume.new Area.Log at bytes.items) }
    ensures enough { IfOk result (λ bytes. V.models_content volume.new → AreWithin (V.content volume.old Area.Log) at (vec_len bytes)) }
    ensures damaged { (area : Areas) (place : ℕ) → result ≡ Err (StoreFault.Fault (Fault.Damaged area place)) → ⊥ }
    ensures cause { StoreFailsIn V.Volume Area.Log volume.old volume.new result }
    ensures reads { OnlyReads V.Volume Area.Log volume.old volume.new }
{
    let front = read_bytes(alloc, volume, at, MAX_CHANGE)?;
    let most = LogRecord::most_bytes(front[0]);
    if most <= MAX_CHANGE {
        return Ok(front);
    }
    read_bytes(alloc, volume, at, most)
}

// The record that stands at that offset of area Log.
fn read_at<V: Volume>(alloc: Global, volume: &mut V, at: u64) -> Result<LogRecord, StoreFault>
    requires { at ≤ MAX_LOG }
    ensures is_record { IfOk result (λ found. IsRecord found) }
    ensures found { IfOk result (λ found. HasBytes V.Volume volume.old volume.new Area.Log at (spelling found)) }
    ensures damaged { (area : Areas) (place : ℕ) → result ≡ Err (StoreFault.Fault (Fault.Damaged area place)) → (area ≡ Area.Log) × (place ≡ at) × (V.models_content volume.new → HasNoneAt (V.content volume.old Area.Log) at) }
    ensures cause { StoreFailsIn V.Volume Area.Log volume.old volume.new result }
    ensures reads { OnlyReads V.Volume Area.Log volume.old volume.new }
{
    let bytes = read_enough(alloc, volume, at)?;
    let (found, _) = decode_at(alloc, at, &bytes)?;
    Ok(found)
}

impl Log {
    // The record that stands in the tail, at that offset of the log.
    fn in_tail(&self, alloc: Global, at: u64) -> Result<LogRecord, StoreFault>
        requires from { self.now.batch ≤ at }
        requires below { at < end_of self.now }
        ensures is_record { IfOk result (λ found. IsRecord found) }
        ensures found { IfOk result (λ found. StandsInTail self.now at found) }
        ensures damaged { (area : Areas) (place : ℕ) → result ≡ Err (StoreFault.Fault (Fault.Damaged area place)) → (area ≡ Area.Log) × (place ≡ at) × HasNoneInTail self.now at }
        ensures volume { (area : Areas) → result ≡ Err (StoreFault.Fault (Fault.Volume area)) → ⊥ }
    {
        let first = self.batch() + BATCH_HEADER;
        if at < first {
            return Err(damaged(at));
        }
        let bytes = self.tail_bytes().split_at((at - first) as usize).1;
        let (found, _) = decode_at(alloc, at, bytes)?;
        Ok(found)
    }

    /// The record with that LSN, which has to be below the log's end: from the volume where it is durable, else from the
    /// tail, with no call of the volume.
    ///
    /// # Errors
    ///
    /// [`Fault::Damaged`] with area Log and the LSN: no record stands there. [`Fault::Volume`] with area Log, where it
    /// failed. [`StoreFault::NoMemory`].
    pub fn at<V: Volume>(
        &self,
        alloc: Global,
        volume: &mut V,
        lsn: Lsn,
    ) -> Result<LogRecord, StoreFault>
        requires { lsn.0 < end_of self.now }
        ensures is_record { IfOk result (λ found. IsRecord found) }
        ensures durable { IfOk result (λ found. lsn.0 < self.now.batch → HasBytes V.Volume volume.old volume.new Area.Log lsn.0 (spelling found)) }
        ensures in_tail { IfOk result (λ found. self.now.batch ≤ lsn.0 → StandsInTail self.now lsn.0 found) }
        ensures damaged { (area : Areas) (at : ℕ) → result ≡ Err (StoreFault.Fault (Fault.Damaged area at)) → (area ≡ Area.Log) × (at ≡ lsn.0)
            × (lsn.0 < self.now.batch → V.models_content volume.new → HasNoneAt (V.content volume.old Area.Log) lsn.0) × (self.now.batch ≤ lsn.0 → HasNoneInTail self.now lsn.0) }
        ensures cause { StoreFailsIn V.Volume Area.Log volume.old volume.new result }
        ensures unread { self.now.batch ≤ lsn.0 → volume.new ≡ volume.old }
        ensures reads { OnlyReads V.Volume Area.Log volume.old volume.new }
    {
        if lsn.0 < self.batch() {
            return read_at(alloc, volume, lsn.0);
        }
        self.in_tail(alloc, lsn.0)
    }
}
