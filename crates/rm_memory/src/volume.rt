//! A volume in memory.

ghost use Rattle.std.specs.Prelude.{◌≡◌, ◌⊎◌, ℕ, ◌+◌, ◌≤◌, ◌<◌, ◌^◌, ◌==◌, ◌||◌, ◌∷◌, [], true, false, not, Bool, IsTrue, length, is_ok, IsOk, IsErr, IfOk, OnOk, OnErr};
ghost use Rattle.rm_types.specs.declared.areas.Area.{Area};
ghost use Rattle.rm_outside.specs.Areas.{CanReach};
ghost use Rattle.rm_outside.specs.Images.{Image, Shows, Torn};
ghost use Rattle.rm_outside.specs.Moments.{AddsNone, Follows, IsDurable, Elapses};
ghost use Rattle.rm_outside.specs.Faults.{HasCause};
ghost use Rattle.rm_outside.specs.Counts.{CountsBlock, CountsBytes, CountsAtMost, raised};
ghost use Rattle.rm_outside.specs.History.{Write, Sync, content, may_leave, left_since};
ghost use Rattle.rm_memory.specs.Volumes.{events_of, base_of, content_of, may_leave_of, left_by, faults_of, is_listed, has_stopped, stops_in, writes_of, is_due, is_due_write, HasRoomFor, HasRoomToSync, HasRoomToList, Nears, KeepsWrites, CountsWrite, CountsFault, KeepsImages, KeepsOthers, IsFresh};
ghost use Rattle.rm_memory.specs.Mediums.{events, base_image};

use crate::counts::{count_block, count_bytes};
use crate::medium::Medium;
use crate::plan::Plan;
use rm_outside::{Failed, PerArea, Volume};
use rm_types::{Area, NoMemory};
use std::alloc::Global;

/// A volume in memory that models its content. It notes each write and each sync, so that it can give any image
/// that a crash may leave. Calls fail where that was asked for ([`MemVolume::fail_call`], [`MemVolume::stop_at`]),
/// and a write or a sync also where memory runs out.
///
/// A write that fails is an unsynced write, of which a read gives nothing, unless memory ran out for it or the
/// volume had stopped before.
#[derive(Debug, Drop)]
pub struct MemVolume {
    medium: Medium,
    plan: Plan,
    faults: PerArea<u64>,
    data_reads: u64,
    log_reads: u64,
}

impl MemVolume {
    /// Areas of zeros. No call fails, unless memory runs out.
    pub fn new(alloc: Global) -> MemVolume
        ensures content { content_of result ≡ (λ _ _. 0) }
        ensures fresh { IsFresh result }
    {
        MemVolume::over(alloc, Medium::new(alloc))
    }

    // A volume of what the medium holds.
    fn over(alloc: Global, medium: Medium) -> MemVolume
        requires { events medium ≡ [] }
        ensures content { content_of result ≡ base_image medium }
        ensures fresh { IsFresh result }
    {
        MemVolume {
            medium,
            plan: Plan::new(alloc),
            faults: PerArea::all(0),
            data_reads: 0,
            log_reads: 0,
        }
    }

    /// The n-th call of `read`, `write` or `sync` from now, counted from 1, fails once. Several may be listed.
    ///
    /// # Errors
    ///
    /// [`NoMemory`] leaves the volume as it was.
    pub fn fail_call(&mut self, n: u64) -> Result<(), NoMemory>
        requires { 1 ≤ n }
        ensures ok { OnOk result ((k : ℕ) → is_listed self.new k ≡ (is_listed self.old k || (n == k))) }
        ensures err { OnErr result ((k : ℕ) → is_listed self.new k ≡ is_listed self.old k) }
        ensures room { HasRoomToList self.old → IsOk result }
        ensures writes { writes_of self.new ≡ writes_of self.old }
        ensures stops { stops_in self.new ≡ stops_in self.old }
        ensures others { KeepsOthers self.old self.new }
    {
        self.plan.fail_call(n)
    }

    /// The n-th write from now, counted from 1, becomes an unsynced write and fails, and so does every later call.
    /// 0 means never, and clears a stop that has not come yet.
    pub fn stop_at(&mut self, n: u64)
        ensures stops { stops_in self.new ≡ n }
        ensures writes { writes_of self.new ≡ 0 }
        ensures listed { (k : ℕ) → is_listed self.new k ≡ is_listed self.old k }
        ensures others { KeepsOthers self.old self.new }
    {
        self.plan.stop_at(n);
    }

    /// The writes since the last `stop_at`, or since the start; also those that failed. At its last value the
    /// count stays.
    pub fn writes(&self) -> u64
        ensures { result ≡ writes_of self.now }
    {
        self.plan.writes
    }

    /// One image that a crash may leave now, as a volume of its own, in which all is synced and no call fails.
    ///
    /// The unsynced writes of all areas, numbered from 0 in the order in which they were made, are applied in that
    /// order to what is synced: write i where bit `i mod 63` of `outcome` is set. Where bit 63 is set, the range in
    /// Log or Master of one that is not applied is filled with [`crate::FILLING`] in its place.
    ///
    /// # Errors
    ///
    /// [`NoMemory`], where memory for the image runs out.
    pub fn crash(&self, outcome: u64) -> Result<MemVolume, NoMemory>
        ensures content { IfOk result (λ volume. content_of volume ≡ left_by outcome self.now) }
        ensures image { IfOk result (λ volume. may_leave_of self.now (content_of volume)) }
        ensures synced { IfOk result (λ volume. (c : Image) → may_leave_of volume c → c ≡ content_of volume) }
        ensures fresh { IfOk result (λ volume. IsFresh volume) }
    {
        let alloc = self.medium.allocator();
        let image = self.medium.left(outcome)?;
        let medium = Medium::of_image(alloc, image)?;
        Ok(MemVolume::over(alloc, medium))
    }
}

impl Volume for MemVolume {
    ghost use Rattle.rm_outside.specs.Laws.{content_may_stay};
    ghost use Rattle.rm_outside.specs.Since as since;

    ghost models_content = { λ _. Unit {0} };

    ghost content = { content_of };

    ghost may_leave = { may_leave_of };

    ghost moment = { λ volume. length (events_of volume) };

    ghost left_since = { λ volume. left_since (base_of volume) (events_of volume) };

    ghost faults = { faults_of };

    ghost data_reads = { λ volume. volume.data_reads };

    ghost log_reads = { λ volume. volume.log_reads };

    ghost reference = { λ _. [] };

    ghost counts_now = { λ volume t c _ now. since.counts_now (may_leave (base_of volume)) (events_of volume) t c now };

    ghost only_now = { λ volume c left. since.only_now (may_leave (base_of volume)) (events_of volume) c left };

    ghost only_modelled = { λ _ _ _. tt };

    ghost content_may_stay = { λ volume _. content_may_stay (base_of volume) (events_of volume) };

    fn read(&mut self, area: Area, at: u64, into: &mut [u8]) -> Result<(), Failed>
        requires { CanReach area at (length into.old) }
        ensures bytes { OnOk result (Shows (content_of self.old area) at into.new) }
        ensures content { content_of self.new ≡ content_of self.old }
        ensures crash { AddsNone (may_leave_of self.old) (may_leave_of self.new) }
        ensures time { Elapses (length (events_of self.old)) (length (events_of self.new)) (left_since (base_of self.old) (events_of self.old)) (left_since (base_of self.new) (events_of self.new)) (may_leave_of self.new) }
        ensures counts { (other : Area) → faults_of self.old other ≤ faults_of self.new other }
        ensures cause { HasCause (faults_of self.old area) (faults_of self.new area) result }
        ensures blocks { CountsBlock area self.old.data_reads self.new.data_reads }
        ensures log_bytes { OnOk result (CountsBytes area (length into.old) self.old.log_reads self.new.log_reads) }
        ensures log_bytes_err { OnErr result (CountsAtMost area (length into.old) self.old.log_reads self.new.log_reads) }
        ensures fails { IsTrue (is_due self.old) → IsErr result }
        ensures only { IsErr result → IsTrue (is_due self.old) }
        ensures nears { Nears self.old self.new }
        ensures writes { KeepsWrites self.old self.new }
        ensures images { KeepsImages self.old self.new }
        ensures faults { CountsFault area self.old self.new result }
    {
        let log_reads = self.log_reads;
        let due = self.plan.call();
        self.data_reads = count_block(area, self.data_reads);
        if due {
            self.faults.raise(area);
            return Err(Failed);
        }
        self.medium.read(area, at, into);
        self.log_reads = count_bytes(area, into.len(), log_reads);
        Ok(())
    }

    fn write(&mut self, area: Area, at: u64, from: &[u8]) -> Result<(), Failed>
        requires { CanReach area at (length from.now) }
        ensures written { OnOk result (Shows (content_of self.new area) at from.now) }
        ensures content { Torn area at from.now (content_of self.old) (content_of self.new) }
        ensures crash { Follows (Torn area at from.now) (may_leave_of self.old) (may_leave_of self.new) }
        ensures time { Elapses (length (events_of self.old)) (length (events_of self.new)) (left_since (base_of self.old) (events_of self.old)) (left_since (base_of self.new) (events_of self.new)) (may_leave_of self.new) }
        ensures counts { (other : Area) → faults_of self.old other ≤ faults_of self.new other }
        ensures cause { HasCause (faults_of self.old area) (faults_of self.new area) result }
        ensures blocks { self.new.data_reads ≡ self.old.data_reads }
        ensures log_bytes { self.new.log_reads ≡ self.old.log_reads }
        ensures fails { IsTrue (is_due_write self.old) → IsErr result }
        ensures only { HasRoomFor self.old area at (length from.now) → IsErr result → IsTrue (is_due_write self.old) }
        ensures noted { OnOk result (events_of self.new ≡ Write area at from.now true ∷ events_of self.old) }
        ensures noted_err { OnErr result ((events_of self.new ≡ Write area at from.now false ∷ events_of self.old) ⊎ (events_of self.new ≡ events_of self.old)) }
        ensures unsynced { HasRoomFor self.old area at (length from.now) → has_stopped self.old ≡ false → events_of self.new ≡ Write area at from.now (not (is_due_write self.old)) ∷ events_of self.old }
        ensures dead { has_stopped self.old ≡ true → events_of self.new ≡ events_of self.old }
        ensures base { base_of self.new ≡ base_of self.old }
        ensures nears { Nears self.old self.new }
        ensures writes { CountsWrite self.old self.new }
        ensures faults { CountsFault area self.old self.new result }
    {
        let stopped = self.plan.stopped;
        let due = self.plan.write_call();
        if stopped {
            self.faults.raise(area);
            return Err(Failed);
        }
        let noted = self.medium.write(area, at, from, !due).is_ok();
        if due || !noted {
            self.faults.raise(area);
            return Err(Failed);
        }
        Ok(())
    }

    fn sync(&mut self, area: Area) -> Result<(), Failed>
        ensures durable { OnOk result (IsDurable area (content_of self.old) (may_leave_of self.new)) }
        ensures content { content_of self.new ≡ content_of self.old }
        ensures crash { AddsNone (may_leave_of self.old) (may_leave_of self.new) }
        ensures time { Elapses (length (events_of self.old)) (length (events_of self.new)) (left_since (base_of self.old) (events_of self.old)) (left_since (base_of self.new) (events_of self.new)) (may_leave_of self.new) }
        ensures counts { (other : Area) → faults_of self.old other ≤ faults_of self.new other }
        ensures cause { HasCause (faults_of self.old area) (faults_of self.new area) result }
        ensures blocks { self.new.data_reads ≡ self.old.data_reads }
        ensures log_bytes { self.new.log_reads ≡ self.old.log_reads }
        ensures fails { IsTrue (is_due self.old) → IsErr result }
        ensures only { HasRoomToSync self.old → IsErr result → IsTrue (is_due self.old) }
        ensures noted { OnOk result (events_of self.new ≡ Sync area ∷ events_of self.old) }
        ensures noted_err { OnErr result (events_of self.new ≡ events_of self.old) }
        ensures base { base_of self.new ≡ base_of self.old }
        ensures nears { Nears self.old self.new }
        ensures writes { KeepsWrites self.old self.new }
        ensures faults { CountsFault area self.old self.new result }
    {
        let due = self.plan.call();
        if due {
            self.faults.raise(area);
            return Err(Failed);
        }
        if self.medium.sync(area).is_err() {
            self.faults.raise(area);
            return Err(Failed);
        }
        Ok(())
    }
}
