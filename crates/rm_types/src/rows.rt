//! The bytes of a row.

ghost use Rattle.std.specs.Prelude.{◌≡◌, ℕ, ◌<◌, ◌≤◌, length, slice_index, replicate, IfOk};

use crate::memory::NoMemory;
use std::alloc::Global;
use std::marker::Model;

/// The most bytes that a row has: what an empty page has beside the row's entry in its directory.
pub const MAX_ROW: usize = 4076;

/// A row's bytes, at most [`MAX_ROW`].
#[derive(Debug, Drop)]
pub struct Row {
    bytes: Vec<u8>,
}

impl Model for Row {
    ghost use Rattle.std.specs.Prelude.{ℕ, List, ◌≤◌, length};
    ghost use Rattle.rm_types.specs.declared.rows.TheConstants.{MAX_ROW};

    ghost Value = { List ℕ };

    ghost view = { λ row. row.bytes.items };

    ghost invariant = { λ row. length row.bytes.items ≤ MAX_ROW };
}

impl Row {
    /// A row of these bytes, which it takes over.
    pub fn new(bytes: Vec<u8>) -> Row
        requires { length bytes.items ≤ MAX_ROW }
        ensures { result ≡ bytes.items }
    {
        Row { bytes }
    }

    /// A row of these bytes, copied.
    pub fn from_slice(alloc: Global, bytes: &[u8]) -> Result<Row, NoMemory>
        requires { length bytes.now ≤ MAX_ROW }
        ensures value { IfOk result (λ row. row ≡ bytes.now) }
        ensures bytes { (i : ℕ) → slice_index bytes.now i < 256 }
    {
        Ok(Row::new(Vec::from_slice(alloc, bytes)?))
    }

    /// A row of one byte, repeated `count` times.
    pub fn repeated(alloc: Global, byte: u8, count: usize) -> Result<Row, NoMemory>
        requires { count ≤ MAX_ROW }
        ensures { IfOk result (λ row. row ≡ replicate count byte) }
    {
        Ok(Row::new(vec![in alloc; byte; count]?))
    }

    /// The bytes.
    pub fn as_slice(&self) -> &[u8]
        ensures value { result.now ≡ self.now }
        ensures short { length self.now ≤ MAX_ROW }
    {
        self.bytes.as_slice()
    }

    /// A row of the same bytes.
    pub fn try_clone(&self) -> Result<Row, NoMemory>
        ensures value { IfOk result (λ row. row ≡ self.now) }
        ensures bytes { (i : ℕ) → slice_index self.now i < 256 }
    {
        Row::from_slice(*self.bytes.allocator(), self.bytes.as_slice())
    }
}
