//! A volume that is read off what five files held and the record of the calls on them.

ghost use Rattle.std.specs.Prelude.{◌≡◌, ◌≤◌, ◌<◌, length, IsTrue};
ghost use Rattle.rm_types.specs.declared.areas.Area.{Area};
ghost use Rattle.rm_outside.specs.PerArea.{of_area};
ghost use Rattle.rm_calls.specs.Calls.{has_fault};
ghost use Rattle.rm_calls.specs.Steps.{IsKnown};

use crate::reading::{read_unless, sync_unless, write_unless};
use crate::reads::Reads;
use crate::{Calls, Start};
use rm_outside::{Failed, PerArea, Volume};
use rm_types::Area;
use std::marker::PhantomData;

/// A volume over any five files. That it models its content is a hypothesis on the record of its calls: their answers
/// are those of honest files which held `S`.
///
/// An area of which a write or a sync failed is lost: each later call in it fails.
#[derive(Drop)]
pub struct Modelled<C: Calls, S: Start> {
    calls: C,
    start: PhantomData<S>,
    faults: PerArea<u64>,
    lost: PerArea<bool>,
    reads: Reads,
    // An area that is not marked as lost is not, and one that is has a call that was not done in full.
    pub ghost known: { (area : Area) → IsKnown (of_area lost area) (C.Calls.history calls) area },
    // So has an area of which a fault was counted.
    pub ghost blamed: { (area : Area) → 0 < of_area faults area → IsTrue (has_fault (C.Calls.history calls) area) },
}

impl<C: Calls, S: Start> Modelled<C, S> {
    ghost use Rattle.std.specs.Prelude.{false, []};

    /// A volume over these files. Nothing has failed or was read yet.
    pub fn new(calls: C) -> Modelled<C, S>
        requires { C.history calls ≡ [] }
        ensures calls { result.calls ≡ calls }
        ensures faults { (area : Area) → of_area result.faults area ≡ 0 }
        ensures lost { (area : Area) → of_area result.lost area ≡ false }
        ensures blocks { result.reads.blocks ≡ 0 }
        ensures log_bytes { result.reads.log_bytes ≡ 0 }
    {
        Modelled {
            calls,
            start: PhantomData,
            faults: PerArea::all(0),
            lost: PerArea::all(false),
            reads: Reads {
                blocks: 0,
                log_bytes: 0,
            },
        }
    }
}

impl<C: Calls, S: Start> Volume for Modelled<C, S> {
    ghost use Rattle.std.specs.Prelude.{[]};
    ghost use Rattle.rm_calls.specs.Replay.{IsHonest, events, held, MayLeave, left_since};
    ghost use Rattle.rm_outside.specs.Laws as laws;
    ghost use Rattle.rm_outside.specs.Since as since;

    ghost models_content = { λ v. IsHonest S.Start.image (C.Calls.history v.calls) };

    ghost content = { λ v. held S.Start.image (C.Calls.history v.calls) };

    ghost may_leave = { λ v. MayLeave S.Start.image (C.Calls.history v.calls) };

    ghost moment = { λ v. length (C.Calls.history v.calls) };

    ghost left_since = { λ v. left_since S.Start.image (C.Calls.history v.calls) };

    ghost faults = { λ v. of_area v.faults };

    ghost data_reads = { λ v. v.reads.blocks };

    ghost log_reads = { λ v. v.reads.log_bytes };

    ghost reference = { λ _. [] };

    ghost counts_now = { λ v t c _ now. since.counts_now (MayLeave S.Start.image) (C.Calls.history v.calls) t c now };

    ghost only_now = { λ v c left. since.only_now (MayLeave S.Start.image) (C.Calls.history v.calls) c left };

    ghost only_modelled = { λ _ _ left. left.0 };

    ghost content_may_stay = { λ v honest. (honest, laws.content_may_stay S.Start.image (events (C.Calls.history v.calls))) };

    fn read(&mut self, area: Area, at: u64, into: &mut [u8]) -> Result<(), Failed> {
        let length = into.len();
        let lost = *self.lost.get(area);
        let read = read_unless::<C, S>(&mut self.calls, lost, area, at, into);
        self.reads.count(area, length, read);
        if read {
            return Ok(());
        }
        self.faults.raise(area);
        Err(Failed)
    }

    fn write(&mut self, area: Area, at: u64, from: &[u8]) -> Result<(), Failed> {
        let lost = *self.lost.get(area);
        if write_unless::<C, S>(&mut self.calls, lost, area, at, from) {
            return Ok(());
        }
        self.lost.set(area, true);
        self.faults.raise(area);
        Err(Failed)
    }

    fn sync(&mut self, area: Area) -> Result<(), Failed> {
        let lost = *self.lost.get(area);
        if sync_unless::<C, S>(&mut self.calls, lost, area) {
            return Ok(());
        }
        self.lost.set(area, true);
        self.faults.raise(area);
        Err(Failed)
    }
}
