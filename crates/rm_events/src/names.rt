//! What a session's names are bound to.

ghost use Rattle.std.specs.Prelude.{◌≡◌, ◌<◌, Some, None, replicate, slice_set};
ghost use Rattle.rm_events.specs.Names.{bound_to};

use rm_types::Rid;
use std::marker::Model;

/// One of the names `$a` to `$z`, by its number from 0.
#[derive(Clone, Copy, Debug)]
pub struct Name {
    number: u8,
}

impl Model for Name {
    ghost use Rattle.std.specs.Prelude.{ℕ, ◌<◌};

    ghost Value = { ℕ };

    ghost view = { λ name. name.number };

    ghost invariant = { λ name. name.number < 26 };

    ghost inverse = { λ n. record { number = n } };
}

impl Name {
    /// How many names there are.
    pub const COUNT: u8 = 26;

    /// The name with this number.
    pub fn new(number: u8) -> Name
        requires { number < Name.COUNT }
        ensures { result ≡ number }
    {
        Name { number }
    }

    /// Its number, below [`Name::COUNT`].
    pub fn number(self) -> u8
        ensures value { result ≡ self }
        ensures in_range { self < Name.COUNT }
    {
        self.number
    }
}

/// For each name the row id that is bound to it, or none.
#[derive(Debug, Drop)]
pub struct Names {
    rids: [Option<Rid>; 26],
}

impl Model for Names {
    ghost use Rattle.std.specs.Prelude.{List, Option};
    ghost use Rattle.rm_types.specs.declared.numbers.Rid.{Rid};

    ghost Value = { List (Option Rid) };

    ghost view = { λ names. names.rids };
}

impl Names {
    /// No name is bound.
    pub fn new() -> Names
        ensures { result ≡ replicate 26 None }
    {
        Names { rids: [None; 26] }
    }

    /// What the name is bound to.
    pub fn get(&self, name: Name) -> Option<Rid>
        ensures { result ≡ bound_to self.now name }
    {
        self.rids[name.number() as usize]
    }

    /// Binds the name, in place of what it was bound to.
    pub fn bind(&mut self, name: Name, rid: Rid)
        ensures { self.new ≡ slice_set self.old name (Some rid) }
    {
        self.rids[name.number() as usize] = Some(rid);
    }
}
