//! How much was read.

ghost use Rattle.std.specs.Prelude.{◌≡◌, false, IsTrue};
ghost use Rattle.rm_outside.specs.Counts.{CountsBlock, CountsBytes, CountsAtMost};

use rm_types::Area;

/// How much was read.
#[derive(Clone, Copy, Debug, PartialEq, Eq)]
pub struct Reads {
    /// Blocks of Data.
    pub blocks: u64,
    /// Bytes of Log.
    pub log_bytes: u64,
}

impl Reads {
    /// Counts one read of `length` bytes of the area. Bytes of Log count only where the read succeeded.
    pub fn count(&mut self, area: Area, length: usize, answered: bool)
        ensures blocks { CountsBlock area self.old.blocks self.new.blocks }
        ensures log_bytes { IsTrue answered → CountsBytes area length self.old.log_bytes self.new.log_bytes }
        ensures unanswered { answered ≡ false → self.new.log_bytes ≡ self.old.log_bytes }
        ensures at_most { answered ≡ false → CountsAtMost area length self.old.log_bytes self.new.log_bytes }
    {
        match area {
            Area::Data => self.blocks = self.blocks.saturating_add(1),
            Area::Log => {
                let bytes = if answered { length as u64 } else { 0 };
                self.log_bytes = self.log_bytes.saturating_add(bytes);
            }
            _ => {}
        }
    }
}
