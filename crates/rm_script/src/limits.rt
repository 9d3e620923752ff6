//! How much a script may have.

ghost use Rattle.std.specs.Prelude.{◌≡◌, length, IfOk, IfErr};
ghost use Rattle.rm_script.specs.Lines.{lines_of};
ghost use Rattle.rm_script.specs.Refusals.{HasTooMuch, IsWithinLimits};

use crate::lines::line_count;
use std::fmt;

/// The most bytes that a script has.
pub const MAX_BYTES: usize = 16_777_216;

/// The most lines that a script has.
pub const MAX_LINES: usize = 100_000;

/// The most turns that a script's words are, and that one word is.
pub const MAX_TURNS: u32 = 200_000;

/// What a script has a limit on.
#[derive(Clone, Copy, Debug, PartialEq, Eq)]
pub enum Which {
    Bytes,
    Lines,
    /// Counted from the words, before any is made.
    Turns,
}

impl fmt::Display for Which {
    fn fmt<W: fmt::Write>(&self, f: &mut fmt::Formatter<W>) -> fmt::Result {
        f.write_str(match self {
            Which::Bytes => "bytes",
            Which::Lines => "lines",
            Which::Turns => "turns",
        })
    }
}

/// How many lines the bytes have, where they are within the limits on bytes and lines.
pub(crate) fn count_within_limits(bytes: &[u8]) -> Result<usize, Which>
    ensures within { IfOk result (λ count. IsWithinLimits bytes.now) }
    ensures counts { IfOk result (λ count. count ≡ length (lines_of bytes.now)) }
    ensures over { IfErr result (HasTooMuch bytes.now) }
{
    if bytes.len() > MAX_BYTES {
        return Err(Which::Bytes);
    }
    let count = line_count(bytes);
    if count > MAX_LINES {
        return Err(Which::Lines);
    }
    Ok(count)
}
