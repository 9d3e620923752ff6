//! What is printed of a run.

ghost use Rattle.std.specs.Prelude.{◌≡◌, ◌++◌, OnErr, OnOk};
ghost use Rattle.rm_runs.specs.Texts.{answer_text};

use rm_events::Turn;
use rm_script::{turn_text, waits_text};
use rm_types::NoMemory;

/// Appends what is printed of a turn's answer to a session, which has this number: its reply, or for whom it waits.
///
/// # Errors
///
/// [`NoMemory`] leaves `out` as it was.
pub fn answer_text(session: u8, answer: &Turn, out: &mut Vec<u8>) -> Result<(), NoMemory>
    ensures ok { OnOk result (out.new.items ≡ out.old.items ++ answer_text session answer.now) }
    ensures err { OnErr result (out.new.items ≡ out.old.items) }
{
    match answer {
        Turn::Done(reply) => turn_text(session, reply, out),
        Turn::Waits { holder } => waits_text(session, *holder, out),
        Turn::Advanced | Turn::Again { .. } | Turn::LogFull { .. } | Turn::TxnsSpent { .. } => {
            Ok(())
        }
    }
}
