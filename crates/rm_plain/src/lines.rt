//! The lines of a script.

ghost use Rattle.std.specs.Prelude.{◌≡◌, ℕ, List, IfOk, OnErr};
ghost use Rattle.rm_plain.specs.declared.lines.Line.TheVariants.{Insert};
ghost use Rattle.rm_plain.specs.Lines.{op_of};

use rm_events::{Name, Names, Target};
use rm_types::{NoMemory, Op, Row};
use std::fmt;

/// One line of a session.
#[derive(Debug, Drop)]
pub enum Line {
    Begin,
    /// Inserts the row, and binds the name to its place.
    Insert(Name, Row),
    Read(Target),
    Commit,
}

impl Line {
    /// The line's operation, with its name read as it is bound now: [`Op::Unbound`] exactly where it is not.
    /// Only an insert takes memory.
    pub fn op(&self, names: &Names) -> Result<Op, NoMemory>
        ensures value { IfOk result (λ op. op ≡ op_of self.now names.now) }
        ensures memory { OnErr result ((name : ℕ) × (row : List ℕ) × (self.now ≡ Insert name row)) }
    {
        Ok(match self {
            Line::Begin => Op::Begin,
            Line::Insert(_, row) => Op::Insert(row.try_clone()?),
            Line::Read(Target::Name(name)) => match names.get(*name) {
                Some(rid) => Op::Read(rid),
                None => Op::Unbound,
            },
            Line::Read(Target::At(rid)) => Op::Read(*rid),
            Line::Commit => Op::Commit,
        })
    }
}

/// A script: the lines of its one session, in order.
#[derive(Debug, Drop)]
pub struct Script {
    pub lines: Vec<Line>,
}

/// What a script has a limit on.
#[derive(Clone, Copy, Debug, PartialEq, Eq)]
pub enum Which {
    Bytes,
    Lines,
}

impl fmt::Display for Which {
    fn fmt<W: fmt::Write>(&self, f: &mut fmt::Formatter<W>) -> fmt::Result {
        f.write_str(match self {
            Which::Bytes => "bytes",
            Which::Lines => "lines",
        })
    }
}
