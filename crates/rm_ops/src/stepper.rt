//! A record manager that sessions take turns on.

use rm_events::{Op, Turn};
use rm_types::{StoreFault, TxnId};

/// Sessions that ask for operations, and turns that make them, stage by stage. Each turn is the machine's move.
///
/// A session is named by its place, from 0 to 15. After a fault each turn fails, with the same fault; where memory ran
/// out a turn left all as it was, and may be made again.
pub trait Stepper {
    ghost use Rattle.std.specs.Prelude.{◌≡◌, ◌↔◌, ◌<◌, ◌++◌, ℕ, IsTrue, IfErr, OnOk, slice_set};
    ghost use Rattle.rm_types.specs.declared.faults.StoreFault.{StoreFault as Fault};
    ghost use Rattle.rm_types.specs.declared.numbers.TheConstants.{MAX_SESSIONS};
    ghost use Rattle.rm_core.specs.Below.{History};
    ghost use Rattle.rm_core.specs.Names.{idle, forces};
    ghost use Rattle.rm_ops.specs.Views.{View, HasSession, IsActive, seat_of, number_of};
    ghost use Rattle.rm_ops.specs.Making.{MakesChosen};

    /// What it stands for.
    ghost view: { Self → View };

    /// The part of the history that is durable.
    ghost durable: { Self → History };

    /// The volume models its content.
    ghost trusted: { Self → Type 0 };

    /// What has held of the volume since an earlier moment.
    ghost since: { Self → Self → Type 0 };

    /// The fault has its cause.
    ghost fails: { Self → Fault → Type 0 };

    /// Whether the session has no operation under way.
    fn is_idle(&self, k: u8) -> bool
        requires { k < MAX_SESSIONS }
        ensures value { IsTrue result ↔ ((seat_of (view self.now) k).stage ≡ idle) }
        ensures known { HasSession (view self.now) k };

    /// The session's transaction, if it has one.
    fn txn(&self, k: u8) -> Option<TxnId>
        requires { k < MAX_SESSIONS }
        ensures { number_of result ≡ (seat_of (view self.now) k).txn };

    /// The session, which has no operation under way, asks for one.
    fn ask(&mut self, k: u8, op: Op)
        requires known { k < MAX_SESSIONS }
        requires idle { (seat_of (view self.old) k).stage ≡ idle }
        ensures view { view self.new ≡ record (view self.old) { asked = slice_set (view self.old).asked k op } }
        ensures durable { durable self.new ≡ durable self.old }
        ensures since { since self.old self.new };

    /// Makes the next turn of the session's operation.
    fn turn(&mut self, k: u8) -> Result<Turn, StoreFault>
        requires { k < MAX_SESSIONS }
        ensures chosen { trusted self.new → MakesChosen (view self.old) k result (view self.new) }
        ensures durable { OnOk result ((seat_of (view self.old) k).stage ≡ forces → IsActive (view self.old) k → durable self.new ≡ (view self.old).state.history) }
        ensures since { since self.old self.new }
        ensures cause { IfErr result (fails self.new) };

    /// Makes the log durable: a turn of the background.
    fn flush(&mut self) -> Result<(), StoreFault>
        ensures view { view self.new ≡ view self.old }
        ensures durable { OnOk result (durable self.new ≡ (view self.old).state.history) }
        ensures since { since self.old self.new }
        ensures cause { IfErr result (fails self.new) };

    ghost since_same: { (e : Self) → since e e };

    ghost since_both: { (old mid new : Self) → since old mid → since mid new → since old new };

    ghost since_trusts: { (old new : Self) → since old new → trusted new → trusted old };

    /// What is durable stays so.
    ghost durable_stays: { (old new : Self) → since old new → (more : History) × (durable new ≡ more ++ durable old) };
}
