//! The log in memory: its tail, and how it is made durable.

ghost use Rattle.std.specs.Prelude.{◌≡◌, ◌+◌, ◌<◌, ◌≤◌, [], ◌∷◌, ◌++◌, length, drop, vec_len, vec_capacity, IfOk, IsOk, OnOk, OnErr, MatchResult};
ghost use Rattle.std.specs.Int.{w32, to_be_bytes};
ghost use Rattle.rm_types.specs.declared.numbers.TheConstants.{MAX_LOG};
ghost use Rattle.rm_outside.specs.Calls.{FailsIn, IsSynced};
ghost use Rattle.rm_record.specs.Records.{spelling, IsRecord};
ghost use Rattle.rm_history.specs.declared.TheConstants.{BATCH_HEADER, MAX_BATCH};
ghost use Rattle.rm_history.specs.Logs.{IsInRange};
ghost use Rattle.rm_wal.specs.Tails.{end_of};
ghost use Rattle.rm_wal.specs.Flushing.{Flushes, HasFlushed, written_tail};

use crate::flushing::write_batch;
use rm_history::{BATCH_HEADER, MAX_BATCH};
use rm_outside::Volume;
use rm_record::{LogRecord, MAX_RECORD};
use rm_types::{Area, Fault, Lsn, NoMemory};
use std::alloc::Global;
use std::marker::Model;
use thiserror::Error;

/// A tail that is longer, in bytes, is flushed before a record is appended. So a batch has room for any record.
pub const LONG_TAIL: u64 = 1_048_576;

const _: () = prove!(LONG_TAIL + MAX_RECORD as u64 <= MAX_BATCH);

/// How many bytes of a batch's header stand in the buffer before its records: the length.
const LENGTH_BYTES: usize = 4;

/// The log has no room.
#[derive(Clone, Copy, Debug, PartialEq, Eq, Error)]
#[error("the log is full: the next record would stand at byte {end}")]
pub struct LogFull {
    /// The offset that the next record would have, in bytes.
    pub end: u64,
}

/// The log in memory: what comes after the batches of the area that are durable.
#[derive(Debug, Drop)]
pub struct Log {
    // Four bytes for the length of the records, and the records; with room for one byte more.
    buffer: Vec<u8>,
    batch: u64,
    limit: u64,
}

impl Model for Log {
    ghost use Rattle.std.specs.Prelude.{ℕ, ◌+◌, ◌≤◌, ◌<◌, drop, vec_len, vec_capacity};
    ghost use Rattle.rm_types.specs.declared.numbers.TheConstants.{MAX_LOG};
    ghost use Rattle.rm_history.specs.declared.TheConstants.{MAX_BATCH};
    ghost use Rattle.rm_wal.specs.Tails.{LogValue};

    ghost Value = { LogValue };

    ghost view = { λ log. record { batch = log.batch; tail = drop 4 log.buffer.items; limit = log.limit } };

    ghost invariant = { λ log. (4 ≤ vec_len log.buffer) × (vec_len log.buffer ≤ 4 + MAX_BATCH) × (vec_len log.buffer < vec_capacity log.buffer)
        × (log.batch ≤ MAX_LOG) × (4 < vec_len log.buffer → log.batch + (1 + vec_len log.buffer) ≤ MAX_LOG) × (log.limit ≤ MAX_LOG) };
}

// Puts the length of the records into the first four bytes.
fn put_length(bytes: &mut [u8], records: u32)
    requires { 4 ≤ length bytes.old }
    ensures { bytes.new ≡ to_be_bytes w32 records ++ drop 4 bytes.old }
{
    let [a, b, c, d] = records.to_be_bytes();
    bytes[0] = a;
    bytes[1] = b;
    bytes[2] = c;
    bytes[3] = d;
}

// Puts the length of the records before them, and a closed gate after them.
fn close(buffer: &mut Vec<u8>)
    requires from { 4 ≤ vec_len buffer.old }
    requires short { vec_len buffer.old ≤ 4 + MAX_BATCH }
    requires room { vec_len buffer.old < vec_capacity buffer.old }
    ensures items { buffer.new.items ≡ written_tail (drop 4 buffer.old.items) }
    ensures len { vec_len buffer.new ≡ vec_len buffer.old + 1 }
    ensures capacity { vec_capacity buffer.new ≡ vec_capacity buffer.old }
{
    let records = buffer.len() - LENGTH_BYTES;
    put_length(buffer.as_mut_slice(), records as u32);
    buffer.push_reserved(0);
}

impl Log {
    /// A log with an empty tail after the gate at `batch`, which grows up to `limit`; both are at most 2^48.
    ///
    /// # Errors
    ///
    /// [`NoMemory`] alone.
    pub(crate) fn new(alloc: Global, batch: u64, limit: u64) -> Result<Log, NoMemory>
        requires batch { batch ≤ MAX_LOG }
        requires limit { limit ≤ MAX_LOG }
        ensures { IfOk result (λ log. log ≡ record { batch = batch; tail = []; limit = limit }) }
    {
        let mut buffer = Vec::with_capacity(alloc, LENGTH_BYTES + 1)?;
        buffer.extend_from_slice(&[0; LENGTH_BYTES])?;
        Ok(Log {
            buffer,
            batch,
            limit,
        })
    }

    /// The offset of the gate of the batch that is being filled.
    pub fn batch(&self) -> u64
        ensures value { result ≡ self.now.batch }
        ensures bound { self.now.batch ≤ MAX_LOG }
    {
        self.batch
    }

    /// The first offset that is not durable: that of the gate of the batch that is being filled.
    pub fn durable(&self) -> u64
        ensures { result ≡ self.now.batch }
    {
        self.batch
    }

    /// How many bytes of records are not durable, at most 2,097,152.
    pub fn tail(&self) -> u64
        ensures value { result ≡ length self.now.tail }
        ensures bound { length self.now.tail ≤ MAX_BATCH }
    {
        (self.buffer.len() - LENGTH_BYTES) as u64
    }

    /// The bytes of the records that are not durable.
    pub(crate) fn tail_bytes(&self) -> &[u8]
        ensures { result.now ≡ self.now.tail }
    {
        self.buffer.split_at(LENGTH_BYTES).1
    }

    /// The offset that the next record has, at most 5 more than 2^48.
    pub fn end(&self) -> u64
        ensures value { result ≡ end_of self.now }
        ensures bound { end_of self.now ≤ MAX_LOG + BATCH_HEADER }
    {
        self.batch + BATCH_HEADER + self.tail()
    }

    /// Whether `cost` more bytes fit beside `owed` ones, up to the log's limit.
    ///
    /// # Errors
    ///
    /// [`LogFull`] exactly where the end, `cost` and `owed` are together over the limit.
    pub fn room(&self, cost: u64, owed: u64) -> Result<(), LogFull>
        ensures { MatchResult result (λ _. end_of self.now + cost + owed ≤ self.now.limit)
            (λ full. (full.end ≡ end_of self.now) × (self.now.limit < end_of self.now + cost + owed)) }
    {
        let end = self.end();
        if end.saturating_add(cost).saturating_add(owed) > self.limit {
            return Err(LogFull { end });
        }
        Ok(())
    }

    /// Appends a record, which is not durable yet, and gives its LSN.
    ///
    /// # Errors
    ///
    /// [`NoMemory`] leaves the log as it was.
    pub fn append(&mut self, next: &LogRecord) -> Result<Lsn, NoMemory>
        requires is_record { IsRecord next.now }
        requires in_log { end_of self.old + length (spelling next.now) ≤ MAX_LOG }
        requires short { length self.old.tail + length (spelling next.now) ≤ MAX_BATCH }
        ensures lsn { IfOk result (λ lsn. lsn.0 ≡ end_of self.old) }
        ensures ok { OnOk result (self.new ≡ record self.old { tail = self.old.tail ++ spelling next.now }) }
        ensures err { OnErr result (self.new ≡ self.old) }
    {
        let lsn = Lsn(self.end());
        // One byte more, so that a flush takes no memory.
        self.buffer.reserve(next.size() as usize + 1)?;
        next.encode(&mut self.buffer)?;
        Ok(lsn)
    }

    /// Makes the tail durable: writes it after its closed gate with a closed gate after it, syncs, opens
    /// the gate, and syncs (docs/FORMATS.md, "Log"). An empty tail makes no call of the volume. It takes no memory.
    ///
    /// # Errors
    ///
    /// [`Fault::Volume`] with area Log, where it failed. Nothing is known of the log then: attach it again.
    pub fn flush<V: Volume>(&mut self, volume: &mut V) -> Result<(), Fault>
        requires { IsSynced V.Volume Area.Log volume.old }
        ensures empty { self.old.tail ≡ [] → IsOk result × (self.new ≡ self.old) × (volume.new ≡ volume.old) }
        ensures ok { OnOk result (0 < length self.old.tail → self.new ≡ record self.old { batch = end_of self.old; tail = [] }) }
        ensures done { OnOk result (HasFlushed V.Volume self.old volume.old volume.new) }
        ensures steps { Flushes V.Volume self.old volume.old volume.new }
        ensures range { 0 < length self.old.tail → IsInRange self.old.batch (length self.old.tail) }
        ensures cause { FailsIn V.Volume Area.Log volume.old volume.new result }
    {
        let records = self.buffer.len() - LENGTH_BYTES;
        if records == 0 {
            return Ok(());
        }
        close(&mut self.buffer);
        let written = write_batch(volume, self.batch, &self.buffer);
        self.buffer.truncate(LENGTH_BYTES);
        written?;
        self.batch += BATCH_HEADER + records as u64;
        Ok(())
    }
}
