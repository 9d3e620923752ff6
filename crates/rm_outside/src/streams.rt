//! A source and a sink of bytes.

use crate::volume::Failed;

/// A source of bytes. Where it can, it models the bytes that are left.
pub trait Source {
    ghost use Rattle.std.specs.Prelude.{◌≡◌, ℕ, ◌≤◌, ◌<◌, List, [], length, take, Option, Some, IfOk};
    ghost use Rattle.rm_outside.specs.Faults.{HasCause};
    ghost use Rattle.rm_outside.specs.Streams.{Gives};

    /// How often it has failed.
    ghost faults: { Self → ℕ };

    /// The bytes that are left, where they are known.
    ghost left: { Self → Option (List ℕ) };

    /// Puts the next bytes at the start of `into`, and gives their number. 0 for a buffer that is
    /// not empty is the end.
    fn read(&mut self, into: &mut [u8]) -> Result<usize, Failed>
        ensures bound { IfOk result (λ count. count ≤ length into.new) }
        ensures bytes { IfOk result (λ count. Gives (left self.old) (left self.new) (take count into.new)) }
        ensures end { IfOk result (λ count. count ≡ 0 → 0 < length into.new → (bytes : List ℕ) → left self.old ≡ Some bytes → bytes ≡ []) }
        ensures cause { HasCause (faults self.old) (faults self.new) result };
}

/// A sink of bytes. Where it can, it models the bytes that it took.
pub trait Sink {
    ghost use Rattle.std.specs.Prelude.{◌≡◌, ℕ, ◌≤◌, ◌<◌, List, length, take, Option, IfOk, OnErr};
    ghost use Rattle.rm_outside.specs.Faults.{HasCause, Rises};
    ghost use Rattle.rm_outside.specs.Streams.{Takes};

    /// How often it has failed.
    ghost faults: { Self → ℕ };

    /// The bytes that it took, where they are known.
    ghost taken: { Self → Option (List ℕ) };

    /// Takes a prefix of `from`, and gives its length. 0 of a piece that is not empty is a fault,
    /// which it counts. A write that fails may have taken a prefix too.
    fn write(&mut self, from: &[u8]) -> Result<usize, Failed>
        ensures bound { IfOk result (λ count. count ≤ length from.now) }
        ensures bytes { IfOk result (λ count. Takes (taken self.old) (taken self.new) (take count from.now)) }
        ensures stuck { IfOk result (λ count. count ≡ 0 → 0 < length from.now → Rises (faults self.old) (faults self.new)) }
        ensures failed { OnErr result ((count : ℕ) × Takes (taken self.old) (taken self.new) (take count from.now)) }
        ensures cause { HasCause (faults self.old) (faults self.new) result };
}
