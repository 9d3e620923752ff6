//! Numbers with names of their own.

/// The greatest slot number that a row id may name: a page has at most 1,020 slots.
pub const MAX_SLOT: u16 = 1019;

/// The most pages that a file has.
pub const MAX_PAGES: u32 = 16_384;

/// The bytes of a block of the areas Data, Space and Copy: of a page, or of a part of the inventory.
pub const BLOCK_SIZE: usize = 4_096;

/// How many pages a block of the inventory describes.
pub const BLOCK_PAGES: u32 = 1_024;

/// The most blocks that a file's inventory has.
pub const MAX_BLOCKS: u32 = 16;

/// The most sessions that run at a time. They have the numbers from 1.
pub const MAX_SESSIONS: u8 = 16;

/// The greatest offset in the log at which a record may end.
pub const MAX_LOG: u64 = 1 << 48;

/// A log sequence number: the offset of a record's first byte in the log, 0 for none.
#[derive(Clone, Copy, Debug, PartialEq, Eq, PartialOrd, Ord)]
pub struct Lsn(pub u64);

/// A transaction's id, given in the order of the begins, from 1.
#[derive(Clone, Copy, Debug, PartialEq, Eq, PartialOrd, Ord)]
pub struct TxnId(pub u32);

/// A row id: the page's number and the slot's number in that page. It may name a place that no file has.
#[derive(Clone, Copy, Debug, PartialEq, Eq, PartialOrd, Ord)]
pub struct Rid {
    pub page: u32,
    pub slot: u16,
}
