//! What happens: one event for each turn that was made.

use crate::operations::Finished;
use rm_types::{Area, Rid, TxnId};

/// Who makes a turn: a session by its number, from 1, or a background actor.
#[derive(Clone, Copy, Debug, PartialEq, Eq)]
pub enum Actor {
    Session(u8),
    /// Makes the log durable.
    Flush,
    /// Writes a dirty block back.
    Clean,
    /// Takes a checkpoint, stage by stage.
    Checkpoint,
    /// Copies the file, block by block.
    Copy,
}

/// A block of the areas Data and Space, by its number there.
#[derive(Clone, Copy, Debug, PartialEq, Eq)]
pub struct BlockId {
    pub area: Area,
    pub number: u32,
}

/// What a turn saw and did. Offsets and LSNs are of area Log, numbers of bytes are those of a page.
#[derive(Clone, Copy, Debug, PartialEq, Eq)]
pub enum Seen {
    Begin,
    /// The operation was not done: outside a transaction, or a begin inside one.
    Skip,
    Unbound,
    BadRid,
    /// The pages from `from` up to and without `to` are excluded by their entries; where `found`, `to` is the candidate.
    Scan {
        from: u32,
        to: u32,
        found: bool,
    },
    /// The page was latched.
    Latch {
        page: u32,
    },
    /// The row has no room in the page: its `used` bytes, the bytes reserved for `others` and for the transaction itself
    /// (`need`), its number of slots, and the slot that was tried.
    Tried {
        page: u32,
        used: u16,
        others: u32,
        need: u16,
        slots: u16,
        slot: u16,
    },
    /// The lock was granted.
    Lock {
        rid: Rid,
    },
    /// The lock was not granted; the asker is older than `holder` and tries again.
    Waits {
        rid: Rid,
        holder: TxnId,
    },
    /// The lock was not granted; the asker is younger than `holder` and is rolled back.
    Die {
        rid: Rid,
        holder: TxnId,
    },
    /// The row was looked at.
    Fetch {
        rid: Rid,
    },
    /// There is no row to be changed.
    Absent {
        rid: Rid,
    },
    /// The new row has no room in its page; the fields are as in [`Seen::Tried`].
    Full {
        rid: Rid,
        used: u16,
        others: u32,
        need: u16,
    },
    /// The slot was changed, by the record at `lsn`.
    Change {
        rid: Rid,
        lsn: u64,
    },
    /// The page's entry was looked at, and entered by the record at `lsn`, 0 where it was right.
    Settle {
        page: u32,
        lsn: u64,
    },
    Save,
    /// There is no such savepoint.
    NoTarget,
    /// A rollback to a savepoint begins; `lsn` is that of the transaction's last pending change when it was set, 0 for none.
    Target {
        lsn: u64,
    },
    /// The rollback to a savepoint is done.
    Back,
    /// A rollback begins.
    Abort,
    /// The change at `undone` was undone, by the compensation at `lsn`.
    Undo {
        undone: u64,
        lsn: u64,
    },
    /// The rollback is done; `lsn` is that of its End record.
    End {
        lsn: u64,
    },
    Commit {
        lsn: u64,
    },
    /// The log is durable up to that offset.
    Force {
        durable: u64,
    },
    /// The transaction's locks were released.
    Finish,
    /// That block was written back; none was dirty.
    Clean {
        block: Option<BlockId>,
    },
    /// That area was synced; Data stands for Data and Space.
    Sync {
        area: Area,
    },
    /// The checkpoint's record was logged.
    Append {
        lsn: u64,
    },
    /// The master names the checkpoint.
    Point,
    /// A copy begins, with the gate offset from which on the log belongs to it.
    CopyStart {
        start: u64,
    },
    CopyBlock {
        block: BlockId,
    },
    /// The master names the copy in that half.
    CopyPoint {
        half: u8,
    },
}

/// One turn that was made: whose it was, the actor's transaction (0 for none), what it saw, and the operation that it
/// finished.
#[derive(Debug, Drop)]
pub struct Event {
    pub actor: Actor,
    pub txn: u32,
    pub seen: Seen,
    pub done: Option<Finished>,
}
