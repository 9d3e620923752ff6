//! The pages and the inventory of a file, and the log that says what they hold.

ghost use Rattle.std.specs.Prelude.{◌≡◌, ℕ, ◌*◌, ◌+◌, ◌<◌, ◌≤◌, [], ◌⊎◌, IsOk, IfErr, IfOk, IfSome, IsSome, IsTrue, MatchResult, OnErr, OnOk, Err};
ghost use Rattle.rm_types.specs.declared.areas.Area.{Area as Areas};
ghost use Rattle.rm_types.specs.declared.numbers.TheConstants.{BLOCK_PAGES, MAX_LOG, MAX_PAGES};
ghost use Rattle.rm_outside.specs.Calls.{FailsIn, OnlyReads, StoreFailsIn};
ghost use Rattle.rm_record.specs.Records.{IsRecord};
ghost use Rattle.rm_history.specs.declared.TheConstants.{BATCH_HEADER};
ghost use Rattle.rm_apply.specs.declared.answers.ApplyRefused.TheVariants as refused;
ghost use Rattle.rm_pool.specs.Frames.{IsBlockOf, IsPageOf};
ghost use Rattle.rm_pool.specs.Journals.{EndsNext, HasNoRecordAt, IsRecordAt, Stands};
ghost use Rattle.rm_pool.specs.Stores.{CannotWrite, HasShortTail, IsCurrent, IsStill, made_durable, next_of, on_volume, with_block, with_page, written};

use crate::frames::Frames;
use crate::journal::Journal;
use rm_apply::ApplyRefused;
use rm_inventory::Inventory;
use rm_outside::Volume;
use rm_page::Page;
use rm_record::LogRecord;
use rm_types::{Area, Fault, Lsn, MAX_LOG, StoreFault};
use rm_wal::{LONG_TAIL, LogFull};
use std::alloc::Global;
use std::marker::Model;

/// The pages and the inventory of a file, and the log on its volume. Each page and each entry is as the log says.
#[derive(Drop)]
pub struct Store<V: Volume> {
    journal: Journal<V>,
    frames: Frames,
}

impl<V: Volume> Model for Store<V> {
    ghost use Rattle.rm_pool.specs.Stores.{IsCurrent, StoreValue};

    ghost Value = { StoreValue V };

    ghost view = { λ store. record { journal = store.journal; frames = store.frames } };

    ghost invariant = { λ store. IsCurrent (record { journal = store.journal; frames = store.frames }) };
}

impl<V: Volume> Store<V> {
    /// The store of a log and of frames to which all of its records were applied.
    pub fn over(journal: Journal<V>, frames: Frames) -> Store<V>
        requires { frames.applied ≡ journal.history }
        ensures { result ≡ record { journal = journal; frames = frames } }
    {
        Store { journal, frames }
    }

    /// The number of pages, at most [`MAX_PAGES`](rm_types::MAX_PAGES).
    pub fn size(&self) -> u32
        ensures value { result ≡ self.now.frames.size }
        ensures bound { self.now.frames.size ≤ MAX_PAGES }
    {
        self.frames.size()
    }

    /// The offset that the next record has, at most 5 more than 2^48.
    pub fn end(&self) -> u64
        ensures value { result ≡ next_of self.now }
        ensures bound { next_of self.now ≤ MAX_LOG + BATCH_HEADER }
        ensures next { EndsNext self.now.journal }
    {
        self.journal.end()
    }

    /// The first offset of the log that is not durable.
    pub fn durable(&self) -> u64
        ensures value { result ≡ self.now.journal.log.batch }
        ensures bound { self.now.journal.log.batch ≤ MAX_LOG }
    {
        self.journal.durable()
    }

    /// Whether `cost` more bytes fit in the log beside `owed` ones, up to its limit.
    ///
    /// # Errors
    ///
    /// [`LogFull`] exactly where the end, `cost` and `owed` are together over the limit.
    pub fn room(&self, cost: u64, owed: u64) -> Result<(), LogFull>
        ensures next { EndsNext self.now.journal }
        ensures fits { MatchResult result (λ _. next_of self.now + cost + owed ≤ self.now.journal.log.limit)
            (λ full. (full.end ≡ next_of self.now) × (self.now.journal.log.limit < next_of self.now + cost + owed)) }
    {
        self.journal.room(cost, owed)
    }

    /// Fixes a page, and releases the one that was fixed before.
    ///
    /// # Errors
    ///
    /// None while all pages are in memory.
    pub fn fix(&mut self, page: u32) -> Result<(), StoreFault>
        requires { page < self.old.frames.size }
        ensures ok { OnOk result (self.new ≡ with_page (on_volume self.old self.new.journal.volume) page) }
        ensures done { IsOk result }
        ensures modelled { V.models_content self.new.journal.volume → V.models_content self.old.journal.volume }
    {
        self.frames.fix(page);
        Ok(())
    }

    /// The fixed page.
    pub fn page(&self) -> &Page
        requires { IsSome self.now.frames.page }
        ensures { IfSome self.now.frames.page (λ number. IsPageOf self.now.journal.history number result.now) }
    {
        self.frames.page()
    }

    /// Fixes the block of the inventory with this number, and releases the one that was fixed before.
    ///
    /// # Errors
    ///
    /// None while all blocks are in memory.
    pub fn fix_block(&mut self, block: u32) -> Result<(), StoreFault>
        requires { BLOCK_PAGES * block < self.old.frames.size }
        ensures ok { OnOk result (self.new ≡ with_block (on_volume self.old self.new.journal.volume) block) }
        ensures done { IsOk result }
        ensures modelled { V.models_content self.new.journal.volume → V.models_content self.old.journal.volume }
    {
        self.frames.fix_block(block);
        Ok(())
    }

    /// The fixed block of the inventory.
    pub fn inventory(&self) -> &Inventory
        requires { IsSome self.now.frames.block }
        ensures { IfSome self.now.frames.block (λ number. IsBlockOf self.now.journal.history number result.now) }
    {
        self.frames.inventory()
    }

    /// Appends a record to the log, and applies it to the fixed page or block that it names. Its row is moved to the
    /// page. The record is not durable yet.
    ///
    /// # Errors
    ///
    /// The store is left as it was.
    ///
    /// - [`ApplyRefused::Unfit`]: the record is for another page or block than the fixed one, the file cannot have what it
    ///   sets, or the log would pass 2^48 bytes.
    /// - [`ApplyRefused::NoMemory`].
    pub fn write(&mut self, what: LogRecord) -> Result<Lsn, ApplyRefused>
        requires is_record { IsRecord what }
        requires short { HasShortTail self.old }
        ensures next { EndsNext self.old.journal }
        ensures lsn { IfOk result (λ lsn. lsn.0 ≡ next_of self.old) }
        ensures ok { OnOk result (self.new ≡ written self.old what) }
        ensures unfit { IfErr result (λ e. e ≡ refused.Unfit → CannotWrite self.old what) }
        ensures memory { IfErr result (λ e. e ≡ refused.NoMemory → CannotWrite self.old what → ⊥) }
        ensures err { OnErr result (self.new ≡ self.old) }
    {
        if self.end() + u64::from(what.size()) > MAX_LOG {
            return Err(ApplyRefused::Unfit);
        }
        let spare = self.frames.ready(&what)?;
        let lsn = self.journal.append(&what)?;
        self.frames.put(what, spare, lsn);
        Ok(lsn)
    }

    /// Makes all that was written durable.
    ///
    /// # Errors
    ///
    /// [`Fault::Volume`] with area Log, where it failed. How much is durable is not known then: open the volume again.
    pub fn flush(&mut self) -> Result<(), Fault>
        requires { IsTrue self.old.journal.is_known }
        ensures ok { OnOk result (self.new ≡ made_durable self.old self.new.journal.volume) }
        ensures modelled { V.models_content self.new.journal.volume → V.models_content self.old.journal.volume }
        ensures empty { self.old.journal.log.tail ≡ [] → IsOk result × (self.new ≡ self.old) }
        ensures err { OnErr result (IsStill self.old self.new) }
        ensures cause { FailsIn V.Volume Area.Log self.old.journal.opened self.new.journal.volume result }
    {
        self.journal.flush()
    }

    /// The same where the tail of the log is long: then there is room in it for any record.
    ///
    /// # Errors
    ///
    /// As [`Store::flush`].
    pub fn flush_long(&mut self) -> Result<(), Fault>
        requires { IsTrue self.old.journal.is_known }
        ensures free { HasShortTail self.old → IsOk result × (self.new ≡ self.old) }
        ensures short { OnOk result (HasShortTail self.new) }
        ensures ok { OnOk result ((self.new ≡ self.old) ⊎ (self.new ≡ made_durable self.old self.new.journal.volume)) }
        ensures modelled { V.models_content self.new.journal.volume → V.models_content self.old.journal.volume }
        ensures current { IsCurrent self.old }
        ensures err { OnErr result (IsStill self.old self.new) }
        ensures cause { FailsIn V.Volume Area.Log self.old.journal.opened self.new.journal.volume result }
    {
        if self.journal.tail() > LONG_TAIL {
            return self.journal.flush();
        }
        Ok(())
    }

    /// The record with that LSN.
    ///
    /// # Errors
    ///
    /// [`Fault::Damaged`] with area Log and the LSN: no record has it. [`Fault::Volume`] with area Log, where it failed.
    /// [`StoreFault::NoMemory`].
    pub fn at(&mut self, alloc: Global, lsn: Lsn) -> Result<LogRecord, StoreFault>
        requires { IsTrue self.old.journal.is_known }
        ensures is_record { IfOk result IsRecord }
        ensures found { IfOk result (λ found. V.models_content self.new.journal.volume → IsRecordAt self.old.journal.history lsn.0 found) }
        ensures damaged { (area : Areas) (at : ℕ) → result ≡ Err (StoreFault.Fault (Fault.Damaged area at)) → (area ≡ Area.Log) × (at ≡ lsn.0) × (V.models_content self.new.journal.volume → HasNoRecordAt self.old.journal.history lsn.0) }
        ensures modelled { V.models_content self.new.journal.volume → V.models_content self.old.journal.volume }
        ensures cause { StoreFailsIn V.Volume Area.Log self.old.journal.opened self.new.journal.volume result }
        ensures same { self.new ≡ on_volume self.old self.new.journal.volume }
    {
        self.journal.at(alloc, lsn)
    }

    /// The volume.
    pub fn into_volume(self) -> V
        ensures volume { result ≡ self.journal.volume }
        ensures stands { Stands V.Volume self.journal }
    {
        let Store {
            journal,
            frames: _frames,
        } = self;
        journal.into_volume()
    }
}
