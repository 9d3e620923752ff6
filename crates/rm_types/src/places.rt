//! Places in the log, by number.

ghost use Rattle.std.specs.Prelude.{◌≡◌, ◌+◌, ◌≤◌, [], ◌∷◌, ◌++◌, length, IsTrue, ◌↔◌, OnOk, OnErr};
ghost use Rattle.rm_types.specs.Rising.{RiseFrom, next_number, MayFollow};

use crate::memory::NoMemory;
use std::alloc::Global;
use std::marker::Model;

/// A number, as of a page, and an offset in area Log that belongs to it.
#[derive(Clone, Copy, Debug, PartialEq, Eq)]
pub struct Place {
    pub number: u32,
    pub at: u64,
}

/// The most entries of a list of places.
pub const MAX_PLACES: usize = 65_535;

/// A list of places, at most [`MAX_PLACES`], whose numbers rise strictly.
#[derive(Debug, Drop)]
pub struct Places {
    entries: Vec<Place>,
}

impl Model for Places {
    ghost use Rattle.std.specs.Prelude.{List, ◌≤◌, length};
    ghost use Rattle.rm_types.specs.declared.places.Place.{Place};
    ghost use Rattle.rm_types.specs.declared.places.TheConstants.{MAX_PLACES};
    ghost use Rattle.rm_types.specs.Rising.{RiseFrom};

    ghost Value = { List Place };

    ghost view = { λ places. places.entries.items };

    ghost invariant = { λ places. RiseFrom 0 places.entries.items × (length places.entries.items ≤ MAX_PLACES) };
}

impl Places {
    /// No places.
    pub fn new(alloc: Global) -> Places
        ensures { result ≡ [] }
    {
        Places {
            entries: Vec::new(alloc),
        }
    }

    /// The places, in order of their numbers.
    pub fn as_slice(&self) -> &[Place]
        ensures value { result.now ≡ self.now }
        ensures rise { RiseFrom 0 self.now }
        ensures few { length self.now ≤ MAX_PLACES }
    {
        self.entries.as_slice()
    }

    // Whether their numbers are below this one.
    fn are_below(&self, number: u32) -> bool
        ensures { IsTrue result ↔ next_number 0 self.now ≤ number }
    {
        match self.entries.last() {
            Some(last) => last.number < number,
            None => true,
        }
    }

    /// Whether a place with this number may come after them: it is greater than theirs, and they are not full.
    pub fn may_push(&self, number: u32) -> bool
        ensures { IsTrue result ↔ MayFollow self.now number }
    {
        self.entries.len() < MAX_PLACES && self.are_below(number)
    }

    /// Puts a place after them.
    ///
    /// # Errors
    ///
    /// [`NoMemory`] leaves them as they were.
    pub fn push(&mut self, place: Place) -> Result<(), NoMemory>
        requires { MayFollow self.old place.number }
        ensures ok { OnOk result (self.new ≡ self.old ++ place ∷ []) }
        ensures next { OnOk result (next_number 0 self.new ≡ place.number + 1) }
        ensures err { OnErr result (self.new ≡ self.old) }
    {
        self.entries.push(place)?;
        Ok(())
    }
}
