//! A volume.

use rm_types::Area;
use thiserror::Error;

/// The outside could not do what was asked. Its count of faults shows it too.
#[derive(Clone, Copy, Debug, PartialEq, Eq, Error)]
#[error("a read, a write or a sync of the device failed")]
pub struct Failed;

/// A volume of five areas (docs/DEFINITIONS.md, "Volume").
///
/// The areas Data, Space and Copy are read and written in whole blocks of 4,096 bytes; every range
/// ends at 2^49 at most (`CanReach`). A volume that models its content also models which images a
/// crash may leave, now and at each moment since an earlier one; of one that does not, only the
/// clauses on faults and counts say something.
pub trait Volume: Drop {
    ghost use Rattle.std.specs.Prelude.{◌≡◌, ℕ, ◌≤◌, List, length, OnOk, OnErr};
    ghost use Rattle.rm_types.specs.declared.areas.Area.{Area};
    ghost use Rattle.rm_outside.specs.Faults.{HasCause};
    ghost use Rattle.rm_outside.specs.Areas.{CanReach};
    ghost use Rattle.rm_outside.specs.Images.{Image, Shows, Torn};
    ghost use Rattle.rm_outside.specs.Moments.{AddsNone, Follows, IsDurable, Elapses};
    ghost use Rattle.rm_outside.specs.Counts.{CountsBlock, CountsBytes, CountsAtMost};

    /// It models its content: each answer so far was the one that the content gives.
    ghost models_content: { Self → Type 0 };

    /// The image that a read gives.
    ghost content: { Self → Image };

    /// What a crash at this moment may leave.
    ghost may_leave: { Self → Image → Type 0 };

    /// The moment, as a number that never falls.
    ghost moment: { Self → ℕ };

    /// What a crash at some moment from that one on might have left, during a call or between two.
    ghost left_since: { Self → ℕ → Image → Type 0 };

    /// How often each area has failed.
    ghost faults: { Self → Area → ℕ };

    /// How many blocks of Data were read.
    ghost data_reads: { Self → ℕ };

    /// How many bytes of Log were read.
    ghost log_reads: { Self → ℕ };

    /// Which lent volume it is, where it is a `&mut` to one: a number for each `&mut`, the outermost first.
    ghost reference: { Self → List ℕ };

    /// Fills `into` with the bytes at `at`.
    fn read(&mut self, area: Area, at: u64, into: &mut [u8]) -> Result<(), Failed>
        requires { CanReach area at (length into.old) }
        ensures bytes { OnOk result (models_content self.new → Shows (content self.old area) at into.new) }
        ensures modelled { models_content self.new → models_content self.old }
        ensures content { content self.new ≡ content self.old }
        ensures crash { AddsNone (may_leave self.old) (may_leave self.new) }
        ensures time { Elapses (moment self.old) (moment self.new) (left_since self.old) (left_since self.new) (may_leave self.new) }
        ensures counts { (other : Area) → faults self.old other ≤ faults self.new other }
        ensures cause { HasCause (faults self.old area) (faults self.new area) result }
        ensures blocks { CountsBlock area (data_reads self.old) (data_reads self.new) }
        ensures log_bytes { OnOk result (CountsBytes area (length into.old) (log_reads self.old) (log_reads self.new)) }
        ensures log_bytes_err { OnErr result (CountsAtMost area (length into.old) (log_reads self.old) (log_reads self.new)) }
        ensures same { reference self.new ≡ reference self.old };

    /// Writes the bytes at `at`. Until the area's next sync a crash may leave a part of them; a write
    /// that fails may have put a part of them too.
    fn write(&mut self, area: Area, at: u64, from: &[u8]) -> Result<(), Failed>
        requires { CanReach area at (length from.now) }
        ensures written { OnOk result (models_content self.new → Shows (content self.new area) at from.now) }
        ensures modelled { models_content self.new → models_content self.old }
        ensures content { Torn area at from.now (content self.old) (content self.new) }
        ensures crash { Follows (Torn area at from.now) (may_leave self.old) (may_leave self.new) }
        ensures time { Elapses (moment self.old) (moment self.new) (left_since self.old) (left_since self.new) (may_leave self.new) }
        ensures counts { (other : Area) → faults self.old other ≤ faults self.new other }
        ensures cause { HasCause (faults self.old area) (faults self.new area) result }
        ensures blocks { data_reads self.new ≡ data_reads self.old }
        ensures log_bytes { log_reads self.new ≡ log_reads self.old }
        ensures same { reference self.new ≡ reference self.old };

    /// Makes what was written to the area durable. Where it fails, nothing is durable for certain.
    fn sync(&mut self, area: Area) -> Result<(), Failed>
        ensures durable { OnOk result (IsDurable area (content self.old) (may_leave self.new)) }
        ensures modelled { models_content self.new → models_content self.old }
        ensures content { content self.new ≡ content self.old }
        ensures crash { AddsNone (may_leave self.old) (may_leave self.new) }
        ensures time { Elapses (moment self.old) (moment self.new) (left_since self.old) (left_since self.new) (may_leave self.new) }
        ensures counts { (other : Area) → faults self.old other ≤ faults self.new other }
        ensures cause { HasCause (faults self.old area) (faults self.new area) result }
        ensures blocks { data_reads self.new ≡ data_reads self.old }
        ensures log_bytes { log_reads self.new ≡ log_reads self.old }
        ensures same { reference self.new ≡ reference self.old };

    /// This moment is one of those since an earlier one.
    ghost counts_now: { (volume : Self) (t : ℕ) (c : Image) → t ≤ moment volume → may_leave volume c → left_since volume t c };

    /// Since this moment there is no other.
    ghost only_now: { (volume : Self) (c : Image) → left_since volume (moment volume) c → may_leave volume c };

    /// An image is left only where the volume models its content.
    ghost only_modelled: { (volume : Self) (c : Image) → may_leave volume c → models_content volume };

    /// What a read gives is one of the images.
    ghost content_may_stay: { (volume : Self) → models_content volume → may_leave volume (content volume) };
}

impl<V: Volume> Volume for &mut V {
    ghost use Rattle.std.specs.Prelude.{◌≡◌, ◌∷◌};

    ghost models_content = { λ v. V.models_content v.now };

    ghost content = { λ v. V.content v.now };

    ghost may_leave = { λ v. V.may_leave v.now };

    ghost moment = { λ v. V.moment v.now };

    ghost left_since = { λ v. V.left_since v.now };

    ghost faults = { λ v. V.faults v.now };

    ghost data_reads = { λ v. V.data_reads v.now };

    ghost log_reads = { λ v. V.log_reads v.now };

    ghost reference = { λ v. v.ghost_name ∷ V.reference v.now };

    ghost counts_now = { λ v t c le now. V.counts_now v.now t c le now };

    ghost only_now = { λ v c left. V.only_now v.now c left };

    ghost only_modelled = { λ v c left. V.only_modelled v.now c left };

    ghost content_may_stay = { λ v models. V.content_may_stay v.now models };

    fn read(&mut self, area: Area, at: u64, into: &mut [u8]) -> Result<(), Failed> {
        V::read(self, area, at, into)
    }

    fn write(&mut self, area: Area, at: u64, from: &[u8]) -> Result<(), Failed> {
        V::write(self, area, at, from)
    }

    fn sync(&mut self, area: Area) -> Result<(), Failed> {
        V::sync(self, area)
    }
}
