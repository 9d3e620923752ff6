//! What a volume notes of its calls.

ghost use Rattle.std.specs.Prelude.{◌+◌, ◌≤◌, ◌^◌};

use rm_types::Area;

/// A write: where, how many bytes, and whether a read gives them.
#[derive(Clone, Copy, Debug)]
pub struct Put {
    pub area: Area,
    pub at: u64,
    pub len: usize,
    pub took: bool,
    ghost within: { at + len ≤ 2 ^ 49 },
}

/// A write, or a sync that was answered Ok.
#[derive(Clone, Copy, Debug)]
pub enum Note {
    Wrote(Put),
    Synced(Area),
}
