//! The pending changes of a transaction, without the rows that their slots held.

ghost use Rattle.std.specs.Prelude.{◌≡◌, ◌≤◌, ◌<◌, [], ◌∷◌, OnOk};
ghost use Rattle.rm_types.specs.declared.numbers.TheConstants.{MAX_SESSIONS};
ghost use Rattle.rm_desk.specs.Stacks.{first_of, rest_of, top_of, stack_at, SetsStack};

use rm_types::{Lsn, MAX_SESSIONS, NoMemory, Rid};
use std::alloc::Global;
use std::marker::Model;

pub(crate) const SESSIONS: usize = MAX_SESSIONS as usize;

/// A pending change of a transaction, without the row that its slot held.
#[derive(Clone, Copy, Debug, PartialEq, Eq)]
pub struct PendingChange {
    pub lsn: Lsn,
    pub rid: Rid,
    /// What the transaction's undo needed on the page before it, in bytes.
    pub need: u16,
    /// The bytes of the row that the slot held, 0 for none.
    pub before: u16,
}

// The pending changes of one transaction, the oldest first.
#[derive(Drop)]
pub(crate) struct Stack {
    changes: Vec<PendingChange>,
}

impl Model for Stack {
    ghost use Rattle.std.specs.Prelude.{◌-◌, reverse};
    ghost use Rattle.std.specs.Vec.{vec_len, vec_capacity};
    ghost use Rattle.rm_desk.specs.Stacks.{StackValue};

    ghost Value = { StackValue };

    ghost view = { λ stack. record { changes = reverse stack.changes.items; room = vec_capacity stack.changes - vec_len stack.changes } };
}

impl Stack {
    pub(crate) fn new(alloc: Global) -> Stack
        ensures { result.changes ≡ [] }
    {
        Stack {
            changes: Vec::new(alloc),
        }
    }

    // The newest change.
    fn newest(&self) -> Option<PendingChange>
        ensures { result ≡ first_of self.now.changes }
    {
        self.changes.last().copied()
    }

    // Its LSN, 0 where there is none.
    fn last(&self) -> Lsn
        ensures { result.0 ≡ top_of self.now.changes }
    {
        match self.newest() {
            Some(change) => change.lsn,
            None => Lsn(0),
        }
    }

    // The LSN of the change below the newest, 0 where there is none.
    fn under(&self) -> Lsn
        ensures { result.0 ≡ top_of (rest_of self.now.changes) }
    {
        let len = self.changes.len();
        if len < 2 {
            return Lsn(0);
        }
        self.changes[len - 2].lsn
    }

    // Makes room for one more.
    fn ready(&mut self) -> Result<(), NoMemory>
        ensures ok { OnOk result (1 ≤ self.new.room) }
        ensures same { self.new.changes ≡ self.old.changes }
    {
        self.changes.reserve(1)?;
        Ok(())
    }

    fn push(&mut self, change: PendingChange)
        requires { 1 ≤ self.old.room }
        ensures { self.new.changes ≡ change ∷ self.old.changes }
    {
        self.changes.push_reserved(change);
    }

    fn pop(&mut self)
        ensures { self.new.changes ≡ rest_of self.old.changes }
    {
        self.changes.pop();
    }

    fn clear(&mut self)
        ensures { self.new.changes ≡ [] }
    {
        self.changes.clear();
    }
}

// The same of the stack at a session's place. The others stay.

pub(crate) fn newest(stacks: &[Stack; SESSIONS], k: u8) -> Option<PendingChange>
    requires { k < MAX_SESSIONS }
    ensures { result ≡ first_of (stack_at stacks.now k).changes }
{
    stacks[k as usize].newest()
}

pub(crate) fn last(stacks: &[Stack; SESSIONS], k: u8) -> Lsn
    requires { k < MAX_SESSIONS }
    ensures { result.0 ≡ top_of (stack_at stacks.now k).changes }
{
    stacks[k as usize].last()
}

pub(crate) fn under(stacks: &[Stack; SESSIONS], k: u8) -> Lsn
    requires { k < MAX_SESSIONS }
    ensures { result.0 ≡ top_of (rest_of (stack_at stacks.now k).changes) }
{
    stacks[k as usize].under()
}

pub(crate) fn make_room(stacks: &mut [Stack; SESSIONS], k: u8) -> Result<(), NoMemory>
    requires { k < MAX_SESSIONS }
    ensures ok { OnOk result (1 ≤ (stack_at stacks.new k).room) }
    ensures same { SetsStack stacks.old stacks.new k (stack_at stacks.old k).changes }
{
    stacks[k as usize].ready()
}

pub(crate) fn push(stacks: &mut [Stack; SESSIONS], k: u8, change: PendingChange)
    requires known { k < MAX_SESSIONS }
    requires room { 1 ≤ (stack_at stacks.old k).room }
    ensures { SetsStack stacks.old stacks.new k (change ∷ (stack_at stacks.old k).changes) }
{
    stacks[k as usize].push(change);
}

pub(crate) fn pop(stacks: &mut [Stack; SESSIONS], k: u8)
    requires { k < MAX_SESSIONS }
    ensures { SetsStack stacks.old stacks.new k (rest_of (stack_at stacks.old k).changes) }
{
    stacks[k as usize].pop();
}

pub(crate) fn clear(stacks: &mut [Stack; SESSIONS], k: u8)
    requires { k < MAX_SESSIONS }
    ensures { SetsStack stacks.old stacks.new k [] }
{
    stacks[k as usize].clear();
}
