//! `rmtool`, the record manager's program: a command's words, a script on standard input, and what the
//! command prints on standard output.
//!
//! The program is [`run_over_files`], whose contract says what is printed and why, and what a crash leaves in the files:
//! it is `run_command` of rm_command over real ones. `main` only hands it the real words, folder, source and sink.
#![tactic(auto)]

mod over_files;

use over_files::run_over_files;
use rm_calls::Unknown;
use rm_command::{Status, write_status};
use rm_files::{Input, Output};
use std::io::ErrorKind;
use std::process::ExitCode;
use std::{env, io};

/// The folder that the volume's files lie in: the current one.
const FOLDER: &str = ".";

/// The words after the program's name.
fn words(rt: &HostRuntime) -> io::Result<Vec<String>> {
    let mut words = Vec::new(rt.alloc());
    for word in env::args(rt)?.skip(1) {
        words.push(word)?;
    }
    Ok(words)
}

fn main(rt: HostRuntime) -> ExitCode {
    let mut out = Output::new(rt.stdout());
    let words = match words(&rt) {
        Ok(words) => words,
        Err(error) if error.kind() == ErrorKind::OutOfMemory => {
            return ExitCode::from(write_status(Status::NoMemory, &mut out).number());
        }
        // A word that is no text is in no command's form, and nor is no word.
        Err(_) => Vec::new(rt.alloc()),
    };
    let mut script = Input::new(rt.stdin());
    let done = run_over_files(
        rt.alloc(),
        &rt,
        FOLDER,
        Unknown,
        words.as_slice(),
        &mut script,
        &mut out,
    );
    let status = match done {
        Ok((status, _)) => status,
        Err(_) => write_status(Status::NoMemory, &mut out),
    };
    ExitCode::from(status.number())
}
