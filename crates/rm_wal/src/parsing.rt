//! Reading records from bytes.

ghost use Rattle.std.specs.Prelude.{◌≡◌, ℕ, ◌+◌, ◌<◌, ◌≤◌, ◌++◌, length, drop, IfOk, OnOk, Err};
ghost use Rattle.rm_types.specs.declared.areas.Area.{Area as Areas};
ghost use Rattle.rm_types.specs.declared.numbers.TheConstants.{MAX_LOG};
ghost use Rattle.rm_record.specs.Records.{IsRecord, spelling};
ghost use Rattle.rm_wal.specs.Batches.{BeginsWithNone, ReadsRecord, ReadsAll, StopsAt};

use rm_record::{DecodeRefused, LogRecord, Logged};
use rm_types::{Area, Fault, Lsn, StoreFault};
use std::alloc::Global;

/// The log is damaged at that offset.
pub(crate) fn damaged(at: u64) -> StoreFault
    ensures { result ≡ StoreFault.Fault (Fault.Damaged Area.Log at) }
{
    StoreFault::Fault(Fault::Damaged {
        area: Area::Log,
        at,
    })
}

/// The record that the bytes of the log at that offset begin with, and its length.
pub(crate) fn decode_at(
    alloc: Global,
    at: u64,
    bytes: &[u8],
) -> Result<(LogRecord, usize), StoreFault>
    ensures found { IfOk result (λ found. IsRecord found.0 × (found.1 ≡ length (spelling found.0)) × (bytes.now ≡ spelling found.0 ++ drop found.1 bytes.now)) }
    ensures within { IfOk result (λ found. (0 < found.1) × (found.1 ≤ length bytes.now)) }
    ensures damaged { (area : Areas) (place : ℕ) → result ≡ Err (StoreFault.Fault (Fault.Damaged area place)) → (area ≡ Area.Log) × (place ≡ at) × BeginsWithNone bytes.now }
    ensures volume { (area : Areas) → result ≡ Err (StoreFault.Fault (Fault.Volume area)) → ⊥ }
{
    match LogRecord::decode(alloc, bytes) {
        Ok(found) => Ok(found),
        Err(DecodeRefused::Bad) => Err(damaged(at)),
        Err(DecodeRefused::NoMemory) => Err(StoreFault::NoMemory),
    }
}

// Appends the record that the bytes begin with, and gives its length.
fn read_record(
    alloc: Global,
    at: u64,
    bytes: &[u8],
    records: &mut Vec<Logged>,
) -> Result<usize, StoreFault>
    ensures found { IfOk result (λ size. ReadsRecord at bytes.now size records.old.items records.new.items) }
    ensures within { IfOk result (λ size. (0 < size) × (size ≤ length bytes.now)) }
    ensures damaged { (area : Areas) (place : ℕ) → result ≡ Err (StoreFault.Fault (Fault.Damaged area place)) → (area ≡ Area.Log) × (place ≡ at) × BeginsWithNone bytes.now }
    ensures volume { (area : Areas) → result ≡ Err (StoreFault.Fault (Fault.Volume area)) → ⊥ }
{
    let (what, size) = decode_at(alloc, at, bytes)?;
    let lsn = Lsn(at);
    records.push(Logged { lsn, what })?;
    Ok(size)
}

/// Appends the records whose spellings are the bytes; the first has the LSN `base`. What an error leaves is no log.
#[tactic(auto, using(crate::proofs::RecordSteps::reads_no_record, crate::proofs::RecordSteps::reads_to_end, crate::proofs::RecordSteps::stops_there))]
pub(crate) fn read_records(
    alloc: Global,
    base: u64,
    bytes: &[u8],
    records: &mut Vec<Logged>,
) -> Result<(), StoreFault>
    requires { base + length bytes.now ≤ MAX_LOG }
    ensures found { OnOk result (ReadsAll base bytes.now records.old.items records.new.items) }
    ensures damaged { (area : Areas) (at : ℕ) → result ≡ Err (StoreFault.Fault (Fault.Damaged area at)) → (area ≡ Area.Log) × StopsAt base bytes.now at }
    ensures volume { (area : Areas) → result ≡ Err (StoreFault.Fault (Fault.Volume area)) → ⊥ }
{
    let mut rest = bytes;
    let mut at = base;
    while !rest.is_empty() {
        let size = read_record(alloc, at, rest, records)?;
        rest = rest.split_at(size).1;
        at += size as u64;
    }
    Ok(())
}
