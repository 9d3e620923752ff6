//! What a session asks of the record manager, and what it replies.

use crate::numbers::{Rid, TxnId};
use crate::rows::Row;

/// An operation of a session.
#[derive(Debug, Drop)]
pub enum Op {
    Begin,
    Insert(Row),
    Read(Rid),
    Commit,
    /// A line that named a row by a name to which nothing is bound.
    Unbound,
}

/// The reply to an operation.
#[derive(Debug, Drop)]
pub enum Reply {
    /// The transaction that was begun.
    Began(TxnId),
    /// Where the row stands.
    Inserted(Rid),
    /// No page has room for the row.
    NoSpace,
    /// The row that stands there.
    Row(Row),
    /// No row stands there.
    NoRow,
    /// The row id names no place of the file.
    BadRid,
    Committed,
    /// The operation was [`Op::Unbound`].
    Unbound,
    /// A begin inside a transaction, or another operation outside one.
    Skipped,
}
