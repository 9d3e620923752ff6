//! The fields of the master, and the bytes of its slots.

ghost use Rattle.std.specs.Prelude.{◌≡◌, ◌↔◌, IsTrue};
ghost use Rattle.rm_master.specs.Fields.{IsFields, KeepFileRules, KeepCheckpointRules, KeepCopyRules, fresh_fields};

use rm_types::{MAX_LOG, MAX_PAGES};

/// The version of the format.
pub const VERSION: u16 = 1;

/// How far after a batch's first byte its first record stands.
pub const FIRST_RECORD: u64 = 5;

/// The greatest number of a half.
pub const LAST_HALF: u8 = 2;

/// Where the made byte stands.
pub const MADE_AT: u64 = 0;

/// The made byte of a volume that is made.
pub const MADE: u8 = 1;

/// Where the parity byte stands.
pub const PARITY_AT: u64 = 1;

/// Where the first slot stands.
pub const SLOTS_AT: u64 = 64;

/// How far after the first slot the second one is.
pub const SLOT_ROOM: u64 = 64;

/// The bytes of a slot.
pub const SLOT_BYTES: usize = 36;

/// The fields of the master.
#[derive(Clone, Copy, Debug, PartialEq, Eq)]
pub struct Fields {
    /// The version of the format, [`VERSION`].
    pub version: u16,
    /// How many pages the volume has, 1 to `MAX_PAGES`.
    pub pages: u32,
    /// Where the batch of the last checkpoint begins in the log, in bytes.
    pub batch: u64,
    /// Where the last checkpoint's record stands in the log, in bytes, or 0 for none.
    pub checkpoint: u64,
    /// The half of the area Copy that has a copy, 1 or 2, or 0 for none.
    pub half: u8,
    /// Whether that copy is being restored.
    pub restoring: bool,
    /// Where in the log that copy starts, in bytes.
    pub start: u64,
    /// How many pages that copy has.
    pub copied: u32,
}

impl Fields {
    /// The fields of a new volume of this many pages.
    pub fn fresh(pages: u32) -> Fields
        ensures { result ≡ fresh_fields pages }
    {
        Fields {
            version: VERSION,
            pages,
            batch: 0,
            checkpoint: 0,
            half: 0,
            restoring: false,
            start: 0,
            copied: 0,
        }
    }

    /// Whether they keep the rules.
    pub fn keep_rules(&self) -> bool
        ensures { IsTrue result ↔ IsFields self.now }
    {
        self.keep_file_rules() && self.keep_checkpoint_rules() && self.keep_copy_rules()
    }

    fn keep_file_rules(&self) -> bool
        ensures { IsTrue result ↔ KeepFileRules self.now }
    {
        self.version == VERSION && 1 <= self.pages && self.pages <= MAX_PAGES
    }

    fn keep_checkpoint_rules(&self) -> bool
        ensures { IsTrue result ↔ KeepCheckpointRules self.now }
    {
        if self.batch > MAX_LOG || self.checkpoint > MAX_LOG {
            return false;
        }
        if self.checkpoint == 0 {
            self.batch == 0
        } else {
            self.batch + FIRST_RECORD <= self.checkpoint
        }
    }

    fn keep_copy_rules(&self) -> bool
        ensures { IsTrue result ↔ KeepCopyRules self.now }
    {
        if self.half == 0 {
            return !self.restoring && self.start == 0 && self.copied == 0;
        }
        self.half <= LAST_HALF
            && self.start <= MAX_LOG
            && 1 <= self.copied
            && self.copied <= self.pages
    }
}
