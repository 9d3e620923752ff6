//! The lines of a session, and the turn words of a script.

ghost use Rattle.std.specs.Prelude.{◌≡◌, IfOk, OnErr, ◌⊎◌};
ghost use Rattle.rm_events.specs.Lines.{op_of, target_rid, CopiesRow};

use crate::events::Actor;
use crate::names::{Name, Names};
use crate::operations::Op;
use rm_types::{NoMemory, Rid, Row};

/// The row that a line speaks of.
#[derive(Clone, Copy, Debug)]
pub enum Target {
    /// The row that an insert of this session bound to the name.
    Name(Name),
    /// The row at that place.
    At(Rid),
}

impl Target {
    /// The row id, where it is known: a name may not be bound.
    pub fn rid(self, names: &Names) -> Option<Rid>
        ensures { result ≡ target_rid self names.now }
    {
        match self {
            Target::Name(name) => names.get(name),
            Target::At(rid) => Some(rid),
        }
    }
}

/// One line of a session: an operation, with a name in the place of a row id.
#[derive(Debug, Drop)]
pub enum Line {
    Begin,
    /// Inserts the row, and binds the name to its place.
    Insert(Name, Row),
    Read(Target),
    Update(Target, Row),
    Delete(Target),
    Save(u8),
    Back(u8),
    Commit,
    Abort,
}

impl Line {
    /// The line's operation, with its name read as it is bound now: [`Op::Unbound`] exactly where it is not.
    /// Only an insert and an update take memory.
    pub fn op(&self, names: &Names) -> Result<Op, NoMemory>
        ensures value { IfOk result (λ op. op ≡ op_of self.now names.now) }
        ensures memory { OnErr result (CopiesRow self.now) }
    {
        Ok(match self {
            Line::Begin => Op::Begin,
            Line::Insert(_, row) => Op::Insert(row.try_clone()?),
            Line::Read(target) => match target.rid(names) {
                Some(rid) => Op::Read(rid),
                None => Op::Unbound,
            },
            Line::Update(target, row) => match target.rid(names) {
                Some(rid) => Op::Update(rid, row.try_clone()?),
                None => Op::Unbound,
            },
            Line::Delete(target) => match target.rid(names) {
                Some(rid) => Op::Delete(rid),
                None => Op::Unbound,
            },
            Line::Save(number) => Op::Save(*number),
            Line::Back(number) => Op::Back(*number),
            Line::Commit => Op::Commit,
            Line::Abort => Op::Abort,
        })
    }
}

/// A word of the turn lines of a script.
#[derive(Clone, Copy, Debug, PartialEq, Eq)]
pub enum Word {
    /// That many turns of the actor.
    Turns { actor: Actor, count: u32 },
    /// Up to that many rounds, in each of which every session that has a line left gets one turn.
    Finish { rounds: u32 },
}

/// A script: the lines of each session, in order, and its turn words.
#[derive(Debug, Drop)]
pub struct Script {
    pub sessions: Vec<Vec<Line>>,
    pub words: Vec<Word>,
}
