//! What an entry belongs to.

use rm_types::TxnId;

/// A transaction on a page. The order is by transaction, so that what one transaction has stands together.
#[derive(Clone, Copy, Debug, PartialEq, Eq, PartialOrd, Ord)]
pub struct Key {
    pub txn: TxnId,
    pub page: u32,
}
