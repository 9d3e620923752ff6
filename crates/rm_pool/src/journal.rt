//! A volume and the log on it, owned together.

ghost use Rattle.std.specs.Prelude.{◌≡◌, ℕ, ◌+◌, ◌<◌, ◌≤◌, true, false, [], ◌∷◌, ◌++◌, length, IsTrue, IfOk, IsOk, OnOk, OnErr, MatchResult, Err};
ghost use Rattle.rm_types.specs.declared.areas.Area.{Area as Areas};
ghost use Rattle.rm_types.specs.declared.numbers.TheConstants.{MAX_LOG};
ghost use Rattle.rm_outside.specs.Calls.{AtEachMoment, FailsIn, IsSynced, OnlyReads, ReadsNothing, StoreFailsIn};
ghost use Rattle.rm_record.specs.Records.{spelling, IsRecord};
ghost use Rattle.rm_history.specs.declared.TheConstants.{BATCH_HEADER, MAX_BATCH};
ghost use Rattle.rm_history.specs.Acts.{act_at, acts_of};
ghost use Rattle.rm_wal.specs.Attaching.{Attaches};
ghost use Rattle.rm_wal.specs.Tails.{end_of};
ghost use Rattle.rm_pool.specs.Journals.{EndsNext, HasNoRecordAt, IsBetween, IsRecordAt, Stands, flushed};

use rm_noted::Noted;
use rm_outside::Volume;
use rm_record::{LogRecord, Logged};
use rm_types::{Area, Fault, Lsn, NoMemory, StoreFault};
use rm_wal::{Log, LogFull};
use std::alloc::Global;
use std::marker::Model;

// What is noted of a log. None is ever made.
struct Past {}

impl Model for Past {
    ghost use Rattle.std.specs.Prelude.{[], false};
    ghost use Rattle.rm_pool.specs.Journals.{PastValue};

    ghost Value = { PastValue };

    ghost view = { λ _. record { history = []; first = []; durable = []; is_known = false } };
}

impl Past {
    // The log was attached.
    fn attached(records: &[Logged]) -> Noted<Past>
        ensures { result ≡ record { history = acts_of records.now; first = acts_of records.now; durable = acts_of records.now; is_known = true } }
    {
        Noted::of(&records)
    }

    // A record was appended.
    fn logged(past: &Noted<Past>, lsn: Lsn, next: &LogRecord) -> Noted<Past>
        ensures { result ≡ record past.now { history = act_at lsn.0 next.now ∷ past.now.history } }
    {
        Noted::of(&(past, lsn, next))
    }

    // A flush was done.
    fn flushed(past: &Noted<Past>) -> Noted<Past>
        ensures { result ≡ record past.now { durable = past.now.history } }
    {
        Noted::of(past)
    }

    // A flush failed.
    fn lost(past: &Noted<Past>) -> Noted<Past>
        ensures { result ≡ record past.now { is_known = false } }
    {
        Noted::of(past)
    }
}

/// A volume and the log on it. Clauses alone read the rest: the volume as it was opened, what was logged then and since,
/// how much of that is durable, and whether a flush has failed.
#[derive(Drop)]
pub struct Journal<V: Volume> {
    volume: V,
    log: Log,
    opened: Noted<V>,
    past: Noted<Past>,
}

impl<V: Volume> Model for Journal<V> {
    ghost use Rattle.rm_pool.specs.Journals.{JournalValue, Standing, Stands, view_of};

    ghost Value = { JournalValue V };

    ghost view = { λ journal. view_of journal.volume journal.opened journal.log journal.past };

    ghost invariant = { λ journal. Stands V.Volume (view_of journal.volume journal.opened journal.log journal.past) };
}

impl<V: Volume> Journal<V> {
    /// The journal of a volume and the log that was attached on it, with the records that were read then.
    pub fn over(volume: V, log: Log, records: &[Logged]) -> Journal<V>
        requires synced { IsSynced V.Volume Area.Log volume }
        requires attached { Attaches (V.models_content volume) (V.content volume Area.Log) log.limit log records.now }
        ensures { result ≡ record { volume = volume; opened = volume; log = log; history = acts_of records.now; first = acts_of records.now; durable = acts_of records.now; is_known = true } }
    {
        let opened = Noted::of(&volume);
        Journal {
            volume,
            log,
            opened,
            past: Past::attached(records),
        }
    }

    /// The offset that the next record has, at most 5 more than 2^48.
    pub fn end(&self) -> u64
        ensures value { result ≡ end_of self.now.log }
        ensures bound { end_of self.now.log ≤ MAX_LOG + BATCH_HEADER }
        ensures next { EndsNext self.now }
    {
        self.log.end()
    }

    /// How many bytes of records are not durable, at most 2,097,152.
    pub fn tail(&self) -> u64
        ensures value { result ≡ length self.now.log.tail }
        ensures bound { length self.now.log.tail ≤ MAX_BATCH }
    {
        self.log.tail()
    }

    /// The first offset that is not durable.
    pub fn durable(&self) -> u64
        ensures value { result ≡ self.now.log.batch }
        ensures bound { self.now.log.batch ≤ MAX_LOG }
    {
        self.log.batch()
    }

    /// Whether `cost` more bytes fit beside `owed` ones, up to the log's limit.
    ///
    /// # Errors
    ///
    /// [`LogFull`] exactly where the end, `cost` and `owed` are together over the limit.
    pub fn room(&self, cost: u64, owed: u64) -> Result<(), LogFull>
        ensures next { EndsNext self.now }
        ensures fits { MatchResult result (λ _. end_of self.now.log + cost + owed ≤ self.now.log.limit)
            (λ full. (full.end ≡ end_of self.now.log) × (self.now.log.limit < end_of self.now.log + cost + owed)) }
    {
        self.log.room(cost, owed)
    }

    /// Appends a record, which is not durable yet, and gives its LSN.
    ///
    /// # Errors
    ///
    /// [`NoMemory`] leaves the journal as it was.
    pub fn append(&mut self, next: &LogRecord) -> Result<Lsn, NoMemory>
        requires is_record { IsRecord next.now }
        requires in_log { end_of self.old.log + length (spelling next.now) ≤ MAX_LOG }
        requires short { length self.old.log.tail + length (spelling next.now) ≤ MAX_BATCH }
        ensures next { EndsNext self.old }
        ensures lsn { IfOk result (λ lsn. lsn.0 ≡ end_of self.old.log) }
        ensures ok { IfOk result (λ lsn. self.new ≡ record self.old { log = record self.old.log { tail = self.old.log.tail ++ spelling next.now }; history = act_at lsn.0 next.now ∷ self.old.history }) }
        ensures err { OnErr result (self.new ≡ self.old) }
    {
        let lsn = self.log.append(next)?;
        self.past = Past::logged(&self.past, lsn, next);
        Ok(lsn)
    }

    /// Makes what was appended durable.
    ///
    /// # Errors
    ///
    /// [`Fault::Volume`] with area Log, where it failed. How much is durable is not known then: attach the log again.
    pub fn flush(&mut self) -> Result<(), Fault>
        requires { IsTrue self.old.is_known }
        ensures ok { OnOk result (self.new ≡ record self.old { volume = self.new.volume; log = flushed self.old.log; durable = self.old.history }) }
        ensures empty { self.old.log.tail ≡ [] → IsOk result × (self.new ≡ self.old) }
        ensures err { OnErr result (self.new ≡ record self.old { volume = self.new.volume; log = self.new.log; is_known = false }) }
        ensures any_moment { AtEachMoment V.Volume self.old.volume self.new.volume (IsBetween self.old.durable self.old.history) }
        ensures modelled { V.models_content self.new.volume → V.models_content self.old.volume }
        ensures keeps { ReadsNothing V.Volume self.old.volume self.new.volume }
        ensures cause { FailsIn V.Volume Area.Log self.old.opened self.new.volume result }
    {
        match self.log.flush(&mut self.volume) {
            Ok(()) => {
                self.past = Past::flushed(&self.past);
                Ok(())
            }
            Err(fault) => {
                self.past = Past::lost(&self.past);
                Err(fault)
            }
        }
    }

    /// The record with that LSN: from the volume where it is durable, else from the tail.
    ///
    /// # Errors
    ///
    /// [`Fault::Damaged`] with area Log and the LSN: no record has it. [`Fault::Volume`] with area Log, where it failed.
    /// [`StoreFault::NoMemory`].
    pub fn at(&mut self, alloc: Global, lsn: Lsn) -> Result<LogRecord, StoreFault>
        requires { IsTrue self.old.is_known }
        ensures is_record { IfOk result IsRecord }
        ensures found { IfOk result (λ found. V.models_content self.new.volume → IsRecordAt self.old.history lsn.0 found) }
        ensures damaged { (area : Areas) (at : ℕ) → result ≡ Err (StoreFault.Fault (Fault.Damaged area at)) → (area ≡ Area.Log) × (at ≡ lsn.0) × (V.models_content self.new.volume → HasNoRecordAt self.old.history lsn.0) }
        ensures any_moment { AtEachMoment V.Volume self.old.volume self.new.volume (IsBetween self.old.durable self.old.history) }
        ensures cause { StoreFailsIn V.Volume Area.Log self.old.opened self.new.volume result }
        ensures reads { OnlyReads V.Volume Area.Log self.old.volume self.new.volume }
        ensures unread { self.old.log.batch ≤ lsn.0 → self.new ≡ self.old }
        ensures same { self.new ≡ record self.old { volume = self.new.volume } }
    {
        if lsn.0 >= self.log.end() {
            return Err(StoreFault::Fault(Fault::Damaged {
                area: Area::Log,
                at: lsn.0,
            }));
        }
        self.log.at(alloc, &mut self.volume, lsn)
    }

    /// The volume.
    pub fn into_volume(self) -> V
        ensures volume { result ≡ self.volume }
        ensures stands { Stands V.Volume self }
    {
        let Journal { volume, .. } = self;
        volume
    }
}
