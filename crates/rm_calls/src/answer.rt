//! What a call on a file answered.

ghost use Rattle.std.specs.Prelude.{◌≡◌, MatchResult};
ghost use Rattle.std.specs.declared.io.ErrorKind.TheVariants.{Interrupted as interrupted};
ghost use Rattle.std.specs.IoError.{error_kind};
ghost use Rattle.rm_calls.specs.Answers.{count_of, is_done, is_whole, is_interrupted, outcome_of};

use rm_outside::Failed;
use std::io::{self, ErrorKind};

/// What a call on a file answered.
#[derive(Clone, Copy, Debug, PartialEq, Eq)]
pub enum Answer {
    /// It was done; a read or a write with this many bytes.
    Done(usize),
    /// A signal interrupted it.
    Interrupted,
    /// It failed.
    Failed,
}

impl Answer {
    ghost use Rattle.rm_calls.specs.declared.answer.Answer.TheVariants.{Done, Interrupted, Failed as failed};

    /// The answer of a call of the system.
    pub fn of(outcome: io::Result<usize>) -> Answer
        ensures { MatchResult outcome
            (λ count. result ≡ Done count)
            (λ error. (error_kind error ≡ interrupted → result ≡ Interrupted) × ((error_kind error ≡ interrupted → ⊥) → result ≡ failed)) }
    {
        match outcome {
            Ok(count) => Answer::Done(count),
            Err(error) if error.kind() == ErrorKind::Interrupted => Answer::Interrupted,
            Err(_) => Answer::Failed,
        }
    }

    /// The number of bytes that it was done with, 0 where it was not done.
    pub fn count(self) -> usize
        ensures { result ≡ count_of self }
    {
        match self {
            Answer::Done(count) => count,
            Answer::Interrupted | Answer::Failed => 0,
        }
    }

    /// It was done.
    pub fn is_done(self) -> bool
        ensures { result ≡ is_done self }
    {
        matches!(self, Answer::Done(_))
    }

    /// All of `len` bytes were taken.
    pub fn is_whole(self, len: usize) -> bool
        ensures { result ≡ is_whole len self }
    {
        match self {
            Answer::Done(count) => count == len,
            Answer::Interrupted | Answer::Failed => false,
        }
    }

    /// A signal interrupted it.
    pub fn is_interrupted(self) -> bool
        ensures { result ≡ is_interrupted self }
    {
        matches!(self, Answer::Interrupted)
    }

    /// The number of bytes, or that it was not done.
    pub fn outcome(self) -> Result<usize, Failed>
        ensures { result ≡ outcome_of self }
    {
        match self {
            Answer::Done(count) => Ok(count),
            Answer::Interrupted | Answer::Failed => Err(Failed),
        }
    }
}
