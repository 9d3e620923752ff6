//! The laws: which move a session makes, that it has one, and when its operation ends.

ghost use Rattle.rm_play.specs.Choices.{MovesAreOne};
ghost use Rattle.rm_play.specs.Choosing.{ChosenIsMove, MovesExist};
ghost use Rattle.rm_play.specs.Following.{ScriptsRun};
ghost use Rattle.rm_play.specs.Lengths.{OperationsEnd, TurnsComeNearer};
ghost use Rattle.rm_play.specs.Playing.{TurnsAreMade};

/// The chosen move is the session's for the operation, and one that the machine may make, at each offset at which the
/// next record may stand.
#[tactic(auto, using(crate::proofs::Chosen::chosen_is_move))]
pub fn a_chosen_move_may_be_made()
    ensures { ChosenIsMove }
{}

/// At each stage and for each operation a session has a turn, or an answer without one.
#[tactic(auto, using(crate::proofs::Chosen::moves_exist))]
pub fn every_session_has_a_move()
    ensures { MovesExist }
{}

/// It is one but for its free choices.
#[tactic(auto, using(crate::proofs::Uniqueness::moves_are_one))]
pub fn moves_are_one()
    ensures { MovesAreOne }
{}

/// Each turn of a session leaves fewer turns of its operation.
#[tactic(auto, using(crate::proofs::Lengths::turns_come_nearer))]
pub fn turns_come_nearer()
    ensures { TurnsComeNearer }
{}

/// An insert ends within three turns for each page, one for each block of the inventory and one more, a commit in
/// three, a rollback in three for each change and two more.
#[tactic(auto, using(crate::proofs::Lengths::operations_end))]
pub fn operations_end()
    ensures { OperationsEnd }
{}

/// The run of a script is a run of the machine, and its trace follows the lines.
#[tactic(auto, using(crate::proofs::Following::scripts_run))]
pub fn scripts_run()
    ensures { ScriptsRun }
{}

/// Each turn of the run of a script can be made, by the chosen move.
#[tactic(auto, using(crate::proofs::Chosen::turns_are_made))]
pub fn every_turn_can_be_made()
    ensures { TurnsAreMade }
{}
