//! What a session asks of the record manager, and what it replies.

use rm_types::{Rid, Row, TxnId};

/// An operation of a session.
#[derive(Debug, Drop)]
pub enum Op {
    /// Begins a transaction.
    Begin,
    /// Inserts the row where there is room for it.
    Insert(Row),
    /// Reads the row at that place.
    Read(Rid),
    /// Puts the row in the place of the one that stands there.
    Update(Rid, Row),
    /// Deletes the row at that place.
    Delete(Rid),
    /// Sets a savepoint with that number.
    Save(u8),
    /// Rolls back to the savepoint with that number.
    Back(u8),
    /// Commits the transaction.
    Commit,
    /// Rolls the transaction back.
    Abort,
    /// A line that named a row by a name to which nothing is bound.
    Unbound,
}

/// The reply to an operation.
#[derive(Debug, Drop)]
pub enum Reply {
    /// The transaction that was begun.
    Began(TxnId),
    /// Where the row stands.
    Inserted(Rid),
    /// No page has room for the row.
    NoSpace,
    /// The row that stands there.
    Row(Row),
    /// No row stands there: nothing was read, updated or deleted.
    NoRow,
    Updated,
    Deleted,
    /// The new row does not fit in the row's page: `room` bytes are neither used nor reserved by other transactions.
    PageFull { room: u16 },
    /// The row id names no place of the file.
    BadRid,
    /// The savepoint with that number was set.
    Saved(u8),
    /// All changes since that savepoint are undone.
    BackTo(u8),
    /// The transaction has no savepoint with that number.
    NoSavepoint(u8),
    /// The transaction is durable.
    Committed,
    /// The transaction was rolled back, as it asked.
    Aborted,
    /// The transaction was rolled back, since the older transaction `holder` has a lock that the operation asked for.
    Died { holder: TxnId },
    /// The operation was [`Op::Unbound`].
    Unbound,
    /// A begin inside a transaction, or another operation outside one.
    Skipped,
}

/// A finished operation with its reply.
#[derive(Debug, Drop)]
pub struct Finished {
    pub op: Op,
    pub reply: Reply,
}
