//! The savepoints of a transaction.

ghost use Rattle.std.specs.Prelude.{◌≡◌, [], ◌∷◌, OnOk, OnErr};
ghost use Rattle.rm_txns.specs.Savepoints.{without, place_of, back_to};

use rm_types::{Lsn, NoMemory};
use std::alloc::Global;
use std::collections::VecDeque;
use std::marker::Model;

/// A savepoint: its number, and the LSN of the transaction's last pending record when it was set, 0 for none.
#[derive(Clone, Copy, Debug, PartialEq, Eq)]
pub struct Savepoint {
    pub number: u8,
    pub at: Lsn,
}

/// The savepoints of a transaction, the newest first.
#[derive(Debug, Drop)]
pub struct Savepoints {
    entries: VecDeque<Savepoint>,
}

impl Model for Savepoints {
    ghost use Rattle.std.specs.Prelude.{List};
    ghost use Rattle.rm_txns.specs.declared.savepoints.Savepoint.{Savepoint};

    ghost Value = { List Savepoint };

    ghost view = { λ savepoints. savepoints.entries.items };
}

impl Savepoints {
    /// No savepoints.
    pub fn new(alloc: Global) -> Savepoints
        ensures { result ≡ [] }
    {
        Savepoints {
            entries: VecDeque::new(alloc),
        }
    }

    /// Sets a savepoint; an older one of that number is dropped.
    ///
    /// # Errors
    ///
    /// [`NoMemory`] leaves them as they were.
    pub fn save(&mut self, number: u8, at: Lsn) -> Result<(), NoMemory>
        ensures ok { OnOk result (self.new ≡ record { number = number; at = at } ∷ without number self.old) }
        ensures err { OnErr result (self.new ≡ self.old) }
    {
        self.entries.try_reserve(1)?;
        self.entries.retain(|savepoint| savepoint.number != number);
        self.entries.push_front_reserved(Savepoint { number, at });
        Ok(())
    }

    /// Where the savepoint of that number stands, if there is one.
    pub fn target(&self, number: u8) -> Option<Lsn>
        ensures { result ≡ place_of number self.now }
    {
        let savepoint = self
            .entries
            .iter()
            .find(|savepoint| savepoint.number == number)?;
        Some(savepoint.at)
    }

    /// Drops those that are later than the one of that number; all where there is none.
    pub fn back(&mut self, number: u8)
        ensures { self.new ≡ back_to number self.old }
    {
        while self
            .entries
            .front()
            .is_some_and(|savepoint| savepoint.number != number)
        {
            self.entries.pop_front();
        }
    }
}
