//! Reading area Log: a batch at a time.

ghost use Rattle.std.specs.Prelude.{◌≡◌, ℕ, ◌+◌, ◌^◌, ◌<◌, ◌≤◌, ◌↔◌, ◌∷◌, IsTrue, length, vec_len, IfOk, IfSome, slice_index, Ok, Err, Some, None};
ghost use Rattle.std.specs.Int.{w32, to_be_bytes};
ghost use Rattle.rm_types.specs.declared.areas.Area.{Area as Areas};
ghost use Rattle.rm_types.specs.declared.numbers.TheConstants.{MAX_LOG};
ghost use Rattle.rm_outside.specs.Calls.{HasBytes, OnlyReads, StoreFailsIn};
ghost use Rattle.rm_history.specs.declared.TheConstants.{BATCH_HEADER};
ghost use Rattle.rm_history.specs.Logs.{IsInRange, IsWrongAfter};
ghost use Rattle.rm_wal.specs.Batches.{IsOutOfRange, ReadsHeader, ReadsGate};

use crate::flushing::OPEN;
use crate::parsing::{damaged, read_records};
use rm_history::{BATCH_HEADER, MAX_BATCH};
use rm_outside::{Volume, read_area};
use rm_record::Logged;
use rm_types::{Area, Fault, MAX_LOG, StoreFault};
use std::alloc::Global;

/// How many bytes stand before a batch's records: the gate byte and the length.
const HEADER: usize = BATCH_HEADER as usize;

/// `count` bytes of area Log from that offset on.
pub(crate) fn read_bytes<V: Volume>(
    alloc: Global,
    volume: &mut V,
    at: u64,
    count: usize,
) -> Result<Vec<u8>, StoreFault>
    requires { at + count ≤ 2 ^ 49 }
    ensures bytes { IfOk result (λ bytes. HasBytes V.Volume volume.old volume.new Area.Log at bytes.items) }
    ensures len { IfOk result (λ bytes. vec_len bytes ≡ count) }
    ensures damaged { (area : Areas) (place : ℕ) → result ≡ Err (StoreFault.Fault (Fault.Damaged area place)) → ⊥ }
    ensures cause { StoreFailsIn V.Volume Area.Log volume.old volume.new result }
    ensures reads { OnlyReads V.Volume Area.Log volume.old volume.new }
{
    let mut bytes = vec![in alloc; 0; count]?;
    read_area(volume, Area::Log, at, bytes.as_mut_slice())?;
    Ok(bytes)
}

// Whether `len` bytes of records may stand after the gate.
fn is_in_range(gate: u64, len: u32) -> bool
    requires { gate ≤ MAX_LOG }
    ensures { IsTrue result ↔ IsInRange gate len }
{
    let len = len as u64;
    0 < len && len <= MAX_BATCH && gate + (BATCH_HEADER + len) <= MAX_LOG
}

// The length of the batch's records, None where the gate is closed.
fn length_of(gate: u64, header: [u8; HEADER]) -> Result<Option<u32>, StoreFault>
    requires { gate ≤ MAX_LOG }
    ensures closed { result ≡ Ok None → slice_index header 0 ≡ 1 → ⊥ }
    ensures opened { IfOk result (λ found. IfSome found (λ len. IsInRange gate len × (header ≡ 1 ∷ to_be_bytes w32 len))) }
    ensures damaged { (area : Areas) (at : ℕ) → result ≡ Err (StoreFault.Fault (Fault.Damaged area at)) → (area ≡ Area.Log) × IsOutOfRange gate header at }
    ensures volume { (area : Areas) → result ≡ Err (StoreFault.Fault (Fault.Volume area)) → ⊥ }
{
    let [gate_byte, a, b, c, d] = header;
    if gate_byte != OPEN {
        return Ok(None);
    }
    let len = u32::from_be_bytes([a, b, c, d]);
    if !is_in_range(gate, len) {
        return Err(damaged(gate + 1));
    }
    Ok(Some(len))
}

// The length of the records after the gate, None where the gate is closed.
fn read_header<V: Volume>(volume: &mut V, gate: u64) -> Result<Option<u32>, StoreFault>
    requires { gate ≤ MAX_LOG }
    ensures found { IfOk result (ReadsHeader (V.models_content volume.new) (V.content volume.old Area.Log) gate) }
    ensures damaged { (area : Areas) (at : ℕ) → result ≡ Err (StoreFault.Fault (Fault.Damaged area at)) → (area ≡ Area.Log) × (V.models_content volume.new → IsWrongAfter (V.content volume.old Area.Log) gate at) }
    ensures cause { StoreFailsIn V.Volume Area.Log volume.old volume.new result }
    ensures reads { OnlyReads V.Volume Area.Log volume.old volume.new }
{
    let mut header = [0; HEADER];
    read_area(volume, Area::Log, gate, &mut header)?;
    length_of(gate, header)
}

/// Appends the records of the batch after that gate and gives the next gate; None where the gate is closed.
pub(crate) fn read_batch<V: Volume>(
    alloc: Global,
    volume: &mut V,
    gate: u64,
    records: &mut Vec<Logged>,
) -> Result<Option<u64>, StoreFault>
    requires { gate ≤ MAX_LOG }
    ensures found { IfOk result (ReadsGate (V.models_content volume.new) (V.content volume.old Area.Log) gate records.old.items records.new.items) }
    ensures damaged { (area : Areas) (at : ℕ) → result ≡ Err (StoreFault.Fault (Fault.Damaged area at)) → (area ≡ Area.Log) × (V.models_content volume.new → IsWrongAfter (V.content volume.old Area.Log) gate at) }
    ensures cause { StoreFailsIn V.Volume Area.Log volume.old volume.new result }
    ensures reads { OnlyReads V.Volume Area.Log volume.old volume.new }
{
    let Some(len) = read_header(volume, gate)? else {
        return Ok(None);
    };
    let body = read_bytes(alloc, volume, gate + BATCH_HEADER, len as usize)?;
    read_records(alloc, gate + BATCH_HEADER, &body, records)?;
    Ok(Some(gate + BATCH_HEADER + len as u64))
}
