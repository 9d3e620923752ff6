//! A list of calls that only clauses read. No memory holds it, and noting a call takes no time.

ghost use Rattle.std.specs.Prelude.{◌≡◌, [], ◌∷◌};
ghost use Rattle.rm_calls.specs.Calls.{Read, Wrote, Synced};

use crate::Answer;
use rm_noted::Noted;
use rm_types::Area;
use std::marker::Model;

// What is noted: a list of calls.
struct Calls {}

impl Model for Calls {
    ghost use Rattle.std.specs.Prelude.{List, []};
    ghost use Rattle.rm_calls.specs.Calls.{Call};

    ghost Value = { List Call };

    ghost view = { λ _. [] };
}

/// The calls so far with their answers, the newest first. No memory holds them, and only the functions below change
/// them.
#[derive(Drop)]
pub struct Record {
    calls: Noted<Calls>,
}

impl Record {
    /// No call yet.
    #[inline(always)]
    pub fn new() -> Record
        ensures { result.calls ≡ [] }
    {
        Record {
            calls: Noted::of(&()),
        }
    }

    /// A read, with the bytes that came.
    #[inline(always)]
    pub fn read(&mut self, area: Area, at: u64, bytes: &[u8], answer: Answer)
        ensures { self.new.calls ≡ Read area at bytes.now answer ∷ self.old.calls }
    {
        self.calls = Noted::of(&(&self.calls, area, at, bytes, answer));
    }

    /// A write of these bytes.
    #[inline(always)]
    pub fn wrote(&mut self, area: Area, at: u64, bytes: &[u8], answer: Answer)
        ensures { self.new.calls ≡ Wrote area at bytes.now answer ∷ self.old.calls }
    {
        self.calls = Noted::of(&(&self.calls, area, at, bytes, answer));
    }

    /// A sync.
    #[inline(always)]
    pub fn synced(&mut self, area: Area, answer: Answer)
        ensures { self.new.calls ≡ Synced area answer ∷ self.old.calls }
    {
        self.calls = Noted::of(&(&self.calls, area, answer));
    }
}

const _: () = prove!(size_of::<Record>() == 0);
