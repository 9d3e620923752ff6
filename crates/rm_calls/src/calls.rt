//! What is asked of five files: a record of the calls on them, whatever those answer.

use crate::Answer;
use rm_types::Area;

/// Five files, of which each method makes one call and notes it with its answer.
pub trait Calls: Drop {
    ghost use Rattle.std.specs.Prelude.{◌≡◌, ◌≤◌, ◌<◌, ◌∷◌, List, length, take};
    ghost use Rattle.rm_calls.specs.Answers.{count_of};
    ghost use Rattle.rm_calls.specs.Calls.{Call, Read, Wrote, Synced};

    /// Each call so far with its answer, the newest first.
    ghost history: { Self → List Call };

    /// Reads some bytes at an offset. 0 bytes are the end.
    fn read_some(&mut self, area: Area, at: u64, into: &mut [u8]) -> Answer
        requires { 0 < length into.old }
        ensures bound { count_of result ≤ length into.new }
        ensures noted { history self.new ≡ Read area at (take (count_of result) into.new) result ∷ history self.old };

    /// Writes some bytes at an offset.
    fn write_some(&mut self, area: Area, at: u64, from: &[u8]) -> Answer
        ensures noted { history self.new ≡ Wrote area at from.now result ∷ history self.old };

    /// Makes the area's file durable.
    fn sync(&mut self, area: Area) -> Answer
        ensures noted { history self.new ≡ Synced area result ∷ history self.old };
}
