//! The formats of volumes.

ghost use Rattle.std.specs.Prelude.{◌≡◌, ◌<◌};

/// The format of a volume: what the version number in its master sets (docs/FORMATS.md). There is one.
#[derive(Clone, Copy, Debug, PartialEq, Eq)]
pub enum Format {
    /// Version 1: four categories of 1,020 bytes each.
    One,
}

/// The bytes of a page's use within each category of the inventory, in format one.
pub const CATEGORY_BYTES: u16 = 1_020;

/// The greatest category that the inventory has for a page, in each format.
pub const MAX_CATEGORY: u8 = 3;

impl Format {
    ghost use Rattle.rm_types.specs.Formats.{category_bytes, greatest_category};

    /// The bytes of a page's use within each category of the inventory.
    pub fn category_bytes(self) -> u16
        ensures value { result ≡ category_bytes self }
        ensures some { 0 < result }
    {
        match self {
            Format::One => CATEGORY_BYTES,
        }
    }

    /// The greatest category that the inventory has for a page.
    pub fn greatest_category(self) -> u8
        ensures { result ≡ greatest_category self }
    {
        match self {
            Format::One => MAX_CATEGORY,
        }
    }
}
