//! A source and a sink in memory.

ghost use Rattle.std.specs.Prelude.{◌≡◌, ℕ, ◌+◌, ◌<◌, ◌≤◌, ◌++◌, List, [], Some, IsTrue, take, drop, length, min, is_err, IsErr, IfOk, OnOk, OnErr, if◌then◌else◌, vec_len};
ghost use Rattle.rm_outside.specs.Faults.{HasCause, Rises};
ghost use Rattle.rm_outside.specs.Counts.{raised};
ghost use Rattle.rm_outside.specs.Streams.{Gives, Takes};
ghost use Rattle.rm_memory.specs.Calls.{lists};

use crate::calls::count_call;
use rm_outside::{Failed, Sink, Source};
use std::alloc::Global;

/// A source of bytes that models what is left. It gives as many bytes as there is room for, and fails at the
/// reads that it was given.
#[derive(Debug, Drop)]
pub struct MemSource {
    bytes: Vec<u8>,
    at: usize,
    fails: Vec<u64>,
    faults: u64,
    ghost inside: { at ≤ vec_len bytes },
}

impl MemSource {
    ghost use Rattle.rm_memory.specs.Streams.{left_in, source_lists};

    /// A source of these bytes, of which the reads with these numbers fail, counted from 1.
    pub fn new(bytes: Vec<u8>, fails: Vec<u64>) -> MemSource
        ensures left { left_in result ≡ bytes.items }
        ensures listed { (n : ℕ) → source_lists result n ≡ lists fails.items n }
        ensures faults { result.faults ≡ 0 }
    {
        MemSource {
            bytes,
            at: 0,
            fails,
            faults: 0,
        }
    }
}

impl Source for MemSource {
    ghost use Rattle.rm_memory.specs.Streams.{left_in, source_lists};

    ghost faults = { λ source. source.faults };

    ghost left = { λ source. Some (left_in source) };

    fn read(&mut self, into: &mut [u8]) -> Result<usize, Failed>
        ensures bound { IfOk result (λ count. count ≤ length into.new) }
        ensures bytes { IfOk result (λ count. Gives (Some (left_in self.old)) (Some (left_in self.new)) (take count into.new)) }
        ensures end { IfOk result (λ count. count ≡ 0 → 0 < length into.new → (bytes : List ℕ) → Some (left_in self.old) ≡ Some bytes → bytes ≡ []) }
        ensures cause { HasCause self.old.faults self.new.faults result }
        ensures fails { IsTrue (source_lists self.old 1) → IsErr result }
        ensures only { IsErr result → IsTrue (source_lists self.old 1) }
        ensures all { IfOk result (λ count. count ≡ min (length (left_in self.old)) (length into.new)) }
        ensures err { OnErr result (left_in self.new ≡ left_in self.old) }
        ensures nears { (n : ℕ) → 1 ≤ n → source_lists self.new n ≡ source_lists self.old (n + 1) }
        ensures faults { self.new.faults ≡ (if is_err result then raised self.old.faults 1 else self.old.faults) }
    {
        let due = count_call(&mut self.fails);
        if due {
            self.faults = self.faults.saturating_add(1);
            return Err(Failed);
        }
        let rest = &self.bytes[self.at..];
        let count = rest.len().min(into.len());
        into[..count].copy_from_slice(&rest[..count]);
        self.at += count;
        Ok(count)
    }
}

/// A sink that keeps what it takes, and models it. It takes all that it is given; it fails at the writes that it
/// was asked for, and where memory runs out.
#[derive(Debug, Drop)]
pub struct MemSink {
    bytes: Vec<u8>,
    fails: Vec<u64>,
    faults: u64,
}

impl MemSink {
    ghost use Rattle.rm_memory.specs.Streams.{taken_by, sink_lists};

    /// A sink that has taken nothing, of which the writes with these numbers fail, counted from 1.
    pub fn new(alloc: Global, fails: Vec<u64>) -> MemSink
        ensures taken { taken_by result ≡ [] }
        ensures listed { (n : ℕ) → sink_lists result n ≡ lists fails.items n }
        ensures faults { result.faults ≡ 0 }
    {
        MemSink {
            bytes: Vec::new(alloc),
            fails,
            faults: 0,
        }
    }

    /// What it took.
    pub fn bytes(&self) -> &[u8]
        ensures { result.now ≡ taken_by self.now }
    {
        &self.bytes
    }
}

impl Sink for MemSink {
    ghost use Rattle.rm_memory.specs.Streams.{taken_by, sink_lists, HasRoomIn};

    ghost faults = { λ sink. sink.faults };

    ghost taken = { λ sink. Some (taken_by sink) };

    fn write(&mut self, from: &[u8]) -> Result<usize, Failed>
        ensures bound { IfOk result (λ count. count ≤ length from.now) }
        ensures bytes { IfOk result (λ count. Takes (Some (taken_by self.old)) (Some (taken_by self.new)) (take count from.now)) }
        ensures stuck { IfOk result (λ count. count ≡ 0 → 0 < length from.now → Rises self.old.faults self.new.faults) }
        ensures failed { OnErr result ((count : ℕ) × Takes (Some (taken_by self.old)) (Some (taken_by self.new)) (take count from.now)) }
        ensures cause { HasCause self.old.faults self.new.faults result }
        ensures fails { IsTrue (sink_lists self.old 1) → IsErr result }
        ensures only { HasRoomIn self.old (length from.now) → IsErr result → IsTrue (sink_lists self.old 1) }
        ensures all { OnOk result (taken_by self.new ≡ taken_by self.old ++ from.now) }
        ensures count { IfOk result (λ count. count ≡ length from.now) }
        ensures err { OnErr result (taken_by self.new ≡ taken_by self.old) }
        ensures nears { (n : ℕ) → 1 ≤ n → sink_lists self.new n ≡ sink_lists self.old (n + 1) }
        ensures faults { self.new.faults ≡ (if is_err result then raised self.old.faults 1 else self.old.faults) }
    {
        let due = count_call(&mut self.fails);
        if due || self.bytes.extend_from_slice(from).is_err() {
            self.faults = self.faults.saturating_add(1);
            return Err(Failed);
        }
        Ok(from.len())
    }
}
