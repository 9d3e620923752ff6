//! What comes of a turn.

use crate::operations::Reply;
use rm_types::TxnId;

/// The answer of a turn.
#[derive(Debug, Drop)]
pub enum Turn {
    /// A stage was made, and the operation goes on.
    Advanced,
    /// The operation is done.
    Done(Reply),
    /// The session `by` has the page latched; nothing changed.
    Again { by: u8 },
    /// The younger transaction `holder` has the row locked; nothing changed.
    Waits { holder: TxnId },
    /// The log has no room for the operation, which is closed; the log ends at `end`.
    LogFull { end: u64 },
    /// The last transaction id was given.
    TxnsSpent { last: TxnId },
}
