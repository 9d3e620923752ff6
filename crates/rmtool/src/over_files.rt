//! A command over real files.

ghost use Rattle.std.specs.Prelude.{◌≡◌, ◌<◌, ◌⊎◌, [], Option, None, map, string_bytes, IfOk, IsTrue};
ghost use Rattle.rm_types.specs.declared.areas.Area.{Area as Areas};
ghost use Rattle.rm_outside.specs.Faults.{Rises};
ghost use Rattle.rm_outside.specs.Calls.{HasFailed};
ghost use Rattle.rm_calls.specs.Calls.{has_fault};
ghost use Rattle.rm_files.specs.Hosts.{calls_of, facts_in, first_facts};
ghost use Rattle.rm_command.specs.declared.commands.Command.{Command as Commands};
ghost use Rattle.rm_command.specs.declared.commands.Command.TheVariants as command;
ghost use Rattle.rm_command.specs.declared.statuses.Status.TheVariants as status;
ghost use Rattle.rm_command.specs.Commands.{IsCommand, Names, HasScript};
ghost use Rattle.rm_command.specs.Reading.{IsReadToEnd};
ghost use Rattle.rm_command.specs.Output.{Answers};
ghost use Rattle.rm_command.specs.Complete.{EndsRight};
ghost use Rattle.rm_command.specs.Due.{DueFor};

use rm_calls::{Modelled, Start};
use rm_command::{Status, run_command};
use rm_files::Host;
use rm_outside::{Sink, Source};
use std::alloc::{AllocError, Global};
use std::fs::File;
use std::rt::Files;

/// Does a command on the files of a folder, which hold `F` when they are opened, and returns its status and its volume,
/// which has the record of all calls on them. Where the answers in that record are those of honest files that held `F`,
/// the volume models its content, and so all that is due for a volume is due for these files.
pub fn run_over_files<R: Files<File = File> + Drop, F: Start, S: Source, K: Sink>(
    alloc: Global,
    rt: R,
    folder: &str,
    held: F,
    words: &[String],
    script: &mut S,
    out: &mut K,
) -> Result<(Status, Modelled<Host<R>, F>), AllocError>
    // The clauses of `run_command`, from files that hold `F` to the record of the calls on them.
    ensures answers { IfOk result (λ done. (command : Option Commands) × Names (map string_bytes words.now) command
        × Answers (DueFor command (S.left script.old) (Rises (S.faults script.old) (S.faults script.new))
        (first_facts F.image) (facts_in F.image done.1))
        (K.taken out.old) (K.taken out.new) (Rises (K.faults out.old) (K.faults out.new)) done.0) }
    ensures complete { IfOk result (λ done. (command : Option Commands) × Names (map string_bytes words.now) command
        × ((Rises (S.faults script.old) (S.faults script.new) → ⊥) → (Rises (K.faults out.old) (K.faults out.new) → ⊥)
        → ((area : Areas) → HasFailed (first_facts F.image) (facts_in F.image done.1) area → ⊥)
        → EndsRight command (S.left script.old) (first_facts F.image) (facts_in F.image done.1) done.0)) }
    ensures to_end { IfOk result (λ done. done.0 ≡ status.Done → HasScript (map string_bytes words.now) → IsReadToEnd (S.left script.old) (S.left script.new)) }
    ensures unread { (HasScript (map string_bytes words.now) → ⊥) → script.new ≡ script.old }

    // An area that has failed has a call in the record that was not done in full.
    ensures blamed { IfOk result (λ done. (area : Areas) → HasFailed (first_facts F.image) (facts_in F.image done.1) area → IsTrue (has_fault (calls_of done.1) area)) }

    // The files are for the commands that work on them.
    ensures uncalled { IfOk result (λ done. IsCommand (map string_bytes words.now) command.Plain ⊎ Names (map string_bytes words.now) None → calls_of done.1 ≡ []) }
{
    let mut volume = Host::volume(alloc, rt, folder, held)?;
    let status = run_command(alloc, words, &mut volume, script, out);
    Ok((status, volume))
}
