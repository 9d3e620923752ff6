//! Which calls of a volume fail.

ghost use Rattle.std.specs.Prelude.{◌≡◌, ℕ, ◌+◌, ◌-◌, ◌<◌, ◌≤◌, ◌==◌, ◌||◌, [], map, false, vec_len, vec_capacity, IsOk, OnOk, OnErr};
ghost use Rattle.rm_outside.specs.Counts.{raised};
ghost use Rattle.rm_memory.specs.Plans.{lists_call, fails_call, fails_write};

use crate::calls::count_call;
use rm_types::NoMemory;
use std::alloc::Global;

/// The calls that fail, each by how many calls from now it is, from 1; those that are past are 0. Which write
/// from now stops the volume, from 1, or 0 for none; whether one has. The writes so far.
#[derive(Debug, Drop)]
pub struct Plan {
    pub fails: Vec<u64>,
    pub stops_in: u64,
    pub stopped: bool,
    pub writes: u64,
}

impl Plan {
    /// No call fails.
    pub fn new(alloc: Global) -> Plan
        ensures none { (n : ℕ) → lists_call result n ≡ false }
        ensures stops { result.stops_in ≡ 0 }
        ensures stopped { result.stopped ≡ false }
        ensures writes { result.writes ≡ 0 }
    {
        Plan {
            fails: Vec::new(alloc),
            stops_in: 0,
            stopped: false,
            writes: 0,
        }
    }

    /// The n-th call from now fails too.
    pub fn fail_call(&mut self, n: u64) -> Result<(), NoMemory>
        ensures ok { OnOk result ((k : ℕ) → lists_call self.new k ≡ (lists_call self.old k || (n == k))) }
        ensures err { OnErr result ((k : ℕ) → lists_call self.new k ≡ lists_call self.old k) }
        ensures room { vec_len self.old.fails < vec_capacity self.old.fails → IsOk result }
        ensures stops { self.new.stops_in ≡ self.old.stops_in }
        ensures stopped { self.new.stopped ≡ self.old.stopped }
        ensures writes { self.new.writes ≡ self.old.writes }
    {
        self.fails.push(n)?;
        Ok(())
    }

    /// The n-th write from now stops the volume, or none does where n is 0.
    pub fn stop_at(&mut self, n: u64)
        ensures listed { (k : ℕ) → lists_call self.new k ≡ lists_call self.old k }
        ensures stops { self.new.stops_in ≡ n }
        ensures stopped { self.new.stopped ≡ self.old.stopped }
        ensures writes { self.new.writes ≡ 0 }
    {
        self.stops_in = n;
        self.writes = 0;
    }

    /// Counts a call, and returns whether it fails.
    pub fn call(&mut self) -> bool
        ensures due { result ≡ fails_call self.old }
        ensures listed { (n : ℕ) → 1 ≤ n → lists_call self.new n ≡ lists_call self.old (n + 1) }
        ensures stops { self.new.stops_in ≡ self.old.stops_in }
        ensures stopped { self.new.stopped ≡ self.old.stopped }
        ensures writes { self.new.writes ≡ self.old.writes }
    {
        let listed = count_call(&mut self.fails);
        self.stopped || listed
    }

    /// Counts a write, and returns whether it fails.
    pub fn write_call(&mut self) -> bool
        ensures due { result ≡ fails_write self.old }
        ensures listed { (n : ℕ) → 1 ≤ n → lists_call self.new n ≡ lists_call self.old (n + 1) }
        ensures stops { self.new.stops_in ≡ self.old.stops_in - 1 }
        ensures stopped { self.new.stopped ≡ (self.old.stopped || (self.old.stops_in == 1)) }
        ensures writes { self.new.writes ≡ raised self.old.writes 1 }
    {
        let due = self.call();
        let stops = self.stops_in == 1;
        self.stops_in = self.stops_in.saturating_sub(1);
        self.stopped = self.stopped || stops;
        self.writes = self.writes.saturating_add(1);
        due || stops
    }
}
