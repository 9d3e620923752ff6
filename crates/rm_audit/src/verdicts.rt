//! What an audit finds.

use rm_types::Lsn;

/// Which condition of a legal log a record breaks, in the order in which they are looked at.
#[derive(Clone, Copy, Debug, PartialEq, Eq)]
pub enum Illegal {
    /// Its LSN is not above that of the record before it.
    NotAbove,
    /// Its transaction has its commit or end record.
    Finished,
    /// A change whose slot does not hold what the record says that it held.
    NotHeld,
    /// A change of a row id on which another unfinished transaction has a change record.
    Others,
    /// A change that does not name the transaction's last pending record.
    Under,
    /// A change that does not name the bytes that the transaction's undo needed on the page.
    Need,
    /// A compensation that does not name the transaction's last pending change: it may have none.
    Undone,
    /// A compensation on another row id than that change.
    Rid,
    /// A compensation that does not name the pending record below that change.
    Next,
    /// A compensation that puts back something else than what the slot held before that change.
    Back,
    /// An inventory record of a transaction whose last pending change is not on the page: it may have none.
    NoChange,
    /// The end of a transaction that has a pending change.
    StillPending,
    /// A checkpoint whose next id is not above that of each transaction with a record.
    NextId,
    /// A checkpoint that does not list a transaction that has a record and is not finished.
    Forgotten,
    /// A checkpoint that lists a transaction without a record, or a finished one.
    TooMany,
    /// A checkpoint that lists a transaction with another LSN than that of its last pending change.
    LoserPlace,
    /// After the record a page lacks room for what it holds and what undo needs there.
    NoRoom,
    /// A compensation after which the page's entry is not its category.
    Entry,
    /// An inventory record with the category that the inventory has.
    SameCategory,
    /// An inventory record with a category that is neither the page's nor what that is with the last change undone.
    WrongCategory,
    /// After the record a page has another category than its entry, and no pending change.
    EntryBehind,
}

/// What an audit finds of a log.
#[derive(Clone, Copy, Debug, PartialEq, Eq)]
pub enum Verdict {
    Legal,
    /// The log up to the record with this LSN is legal, and with it it is not.
    Illegal { lsn: Lsn, why: Illegal },
}
