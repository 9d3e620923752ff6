//! The law: a turn goes on with a run of the machine.

ghost use Rattle.rm_ops.specs.Making.{TurnsRun};

/// A run in which a session makes the turn is a run, and its state is that of the tables.
#[tactic(auto, using(crate::proofs::Runs::turns_run))]
pub fn a_turn_goes_on_with_a_run()
    ensures { TurnsRun }
{}
