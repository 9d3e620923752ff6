//! The places of a page.

use crate::rows::Row;

/// The most bytes of a page that are in use: its directory and its rows. A page is a block of 4,096
/// bytes, 16 of which are its header.
pub const CAPACITY: u16 = 4080;

/// What a place takes in the page's directory, whatever it holds, in bytes.
pub const SLOT_ENTRY: u16 = 4;

/// What a place in a page's directory holds.
#[derive(Debug, Drop)]
pub enum Slot {
    /// No row. The place keeps its number and its four bytes.
    Vacant,
    Row(Row),
}
