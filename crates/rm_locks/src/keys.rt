//! What names a lock.

use rm_types::{Rid, TxnId};

// A row id and a transaction. The order is that of the row ids first.
#[derive(Clone, Copy, Debug, PartialEq, Eq, PartialOrd, Ord)]
pub(crate) struct LockKey {
    pub(crate) rid: Rid,
    pub(crate) txn: TxnId,
}
