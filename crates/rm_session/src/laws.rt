//! What holds of every run of a session: each function is a law, and ensures something of the definitions alone.

ghost use Rattle.rm_session.specs.Laws.{EveryScriptRuns, RunsAreOne};

/// Every script draws replies, in every state.
pub fn every_script_runs()
    ensures { EveryScriptRuns }
{}

/// From one state a script draws one list of replies, and leaves one state.
pub fn a_script_has_one_run()
    ensures { RunsAreOne }
{}
