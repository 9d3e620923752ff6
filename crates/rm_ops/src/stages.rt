//! Where a session stands in its operation, without rows.

ghost use Rattle.std.specs.Prelude.{◌≡◌};
ghost use Rattle.rm_core.specs.Below.{Op};
ghost use Rattle.rm_core.specs.Names.{target_of};
ghost use Rattle.rm_ops.specs.Stages.{aim_with};
ghost use Rattle.rm_ops.specs.Looking.{row_len_of, new_len_of};

use rm_types::{Lsn, Rid, TxnId};

/// An operation without its row, whose bytes it counts.
#[derive(Clone, Copy, Debug, PartialEq, Eq)]
pub enum Asked {
    Begin,
    Insert(u16),
    Read(Rid),
    Update(Rid, u16),
    Delete(Rid),
    Save(u8),
    Back(u8),
    Commit,
    Abort,
    Unbound,
}

impl Asked {
    /// The length of the row that the operation brings, 0 for none.
    pub fn row_len(self) -> u16
        ensures { result ≡ row_len_of self }
    {
        match self {
            Asked::Insert(len) | Asked::Update(_, len) => len,
            _ => 0,
        }
    }

    /// The length of the row that it puts in the place of another: an update's.
    pub fn new_len(self) -> Option<u16>
        ensures { result ≡ new_len_of self }
    {
        match self {
            Asked::Update(_, len) => Some(len),
            _ => None,
        }
    }
}

/// What was made of a row.
#[derive(Clone, Copy, Debug, PartialEq, Eq)]
pub enum Made {
    Inserted,
    /// Updated or deleted, as it was asked.
    Altered,
}

/// Where a rollback goes.
#[derive(Clone, Copy, Debug, PartialEq, Eq)]
pub enum Aim {
    /// All is undone, as it was asked.
    Abort,
    /// All is undone, since that older transaction has a lock that the operation asked for.
    Die(TxnId),
    /// Back to the savepoint with that number, which stands at that LSN.
    Back(u8, Lsn),
}

impl Aim {
    /// The LSN down to which it undoes: changes above it are undone.
    pub fn target(self) -> Lsn
        ensures { (op : Op) → result.0 ≡ target_of (aim_with op self) }
    {
        match self {
            Aim::Abort | Aim::Die(_) => Lsn(0),
            Aim::Back(_, at) => at,
        }
    }
}

/// What a session's next turn is. Its operation has the row.
#[derive(Clone, Copy, Debug, PartialEq, Eq)]
pub enum Stage {
    Idle,
    /// An insert: it scans from that page on, wants that page's latch, tries the page.
    Seeks(u32),
    Wants(u32),
    Tries(u32),
    /// A read: it wants the page's latch, fetches the row.
    Reads(Rid),
    Fetches(Rid),
    /// An update or delete: it wants the page's latch, changes the slot.
    Alters(Rid),
    Sets(Rid),
    /// The change is logged; the page's entry is looked at.
    Settles(Made, Rid),
    /// The commit is logged; it is durable.
    Forces,
    Finishes,
    /// A rollback: between two records; with that page latched; with that page's entry as it will be.
    Rolls(Aim),
    Prepares(Aim, u32),
    Compensates(Aim, u32),
}

/// The newest of a transaction's pending changes.
#[derive(Clone, Copy, Debug, PartialEq, Eq)]
pub struct LastChange {
    pub lsn: Lsn,
    /// The page that it is on.
    pub page: u32,
}

/// The slot of a page for a new row, and whether the row has room there.
#[derive(Clone, Copy, Debug, PartialEq, Eq)]
pub struct Place {
    pub slot: u16,
    pub fits: bool,
}
