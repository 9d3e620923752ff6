//! Reading a whole script.

ghost use Rattle.std.specs.Prelude.{◌≡◌, ◌∷◌, length, IfOk, IfErr, IfSome, IfNone};
ghost use Rattle.rm_plain.specs.Grammar.{IsPlain, IsTurns};
ghost use Rattle.rm_script.specs.Lines.{lines_of};
ghost use Rattle.rm_script.specs.Refusals.{IsWithinLimits};
ghost use Rattle.rm_plain.specs.Reading.{HasRead, LacksFirst, StopsAt};
ghost use Rattle.rm_plain.specs.Refusals.{HasTooMuch, Refuses, RefusesTurns};

use crate::instructions::line_of;
use crate::lines::{Line, Script, Which};
use crate::refused::ScriptRefused;
use rm_script::{MAX_BYTES, MAX_LINES, first_line, line_count};
use rm_types::NoMemory;
use std::alloc::Global;

const SESSION: &[u8] = b"session 1";

const TURNS: &[u8] = b"turns";

const FINISH: &[u8] = b"finish 200000";

/// The lines of a script in the plain form: both limits are tested first, bytes before lines.
pub fn read_plain(alloc: Global, bytes: &[u8]) -> Result<Script, ScriptRefused>
    ensures plain { IfOk result (λ script. IsWithinLimits bytes.now × IsPlain script.lines.items bytes.now) }
    ensures refused { IfErr result (Refuses bytes.now) }
{
    let count = count_within_limits(bytes)?;
    let (lines, rest) = read_lines(alloc, bytes, count)?;
    if !rest.is_empty() {
        return Err(ScriptRefused::Bad {
            line: lines.len() as u64 + 1,
        });
    }
    Ok(Script { lines })
}

/// The lines of a script in the form of `turns`, those of its one session: both limits are tested first,
/// bytes before lines.
pub fn read_turns(alloc: Global, bytes: &[u8]) -> Result<Script, ScriptRefused>
    ensures turns { IfOk result (λ script. IsWithinLimits bytes.now × IsTurns script.lines.items bytes.now) }
    ensures refused { IfErr result (RefusesTurns bytes.now) }
{
    let count = count_within_limits(bytes)?;
    let Some(rest) = after_line(SESSION, bytes) else {
        return Err(ScriptRefused::Bad { line: 1 });
    };
    let (lines, rest) = read_lines(alloc, rest, count)?;
    let number = lines.len() as u64;
    let Some(rest) = after_line(TURNS, rest) else {
        return Err(ScriptRefused::Bad { line: number + 2 });
    };
    let Some(rest) = after_line(FINISH, rest) else {
        return Err(ScriptRefused::Bad { line: number + 3 });
    };
    if !rest.is_empty() {
        return Err(ScriptRefused::Bad { line: number + 4 });
    }
    Ok(Script { lines })
}

/// How many lines the bytes have, where they are within the limits of a script.
fn count_within_limits(bytes: &[u8]) -> Result<usize, Which>
    ensures within { IfOk result (λ count. IsWithinLimits bytes.now) }
    ensures counts { IfOk result (λ count. count ≡ length (lines_of bytes.now)) }
    ensures over { IfErr result (HasTooMuch bytes.now) }
{
    if bytes.len() > MAX_BYTES {
        return Err(Which::Bytes);
    }
    let count = line_count(bytes);
    if count > MAX_LINES {
        return Err(Which::Lines);
    }
    Ok(count)
}

/// What stands after the first line, where that is `line`.
fn after_line<'a>(line: &[u8], bytes: &'a [u8]) -> Option<&'a [u8]>
    ensures some { IfSome result (λ rest. lines_of bytes.now ≡ line.now ∷ lines_of rest.now) }
    ensures none { IfNone result (LacksFirst line.now (lines_of bytes.now)) }
{
    let (text, after) = first_line(bytes)?;
    if text == line { Some(after) } else { None }
}

/// Reads lines up to the first text that spells none, and gives what is left from there; there are at most
/// `count`.
fn read_lines(alloc: Global, bytes: &[u8], count: usize) -> Result<(Vec<Line>, &[u8]), NoMemory>
    ensures read { IfOk result (λ read. HasRead bytes.now read.0.items read.1.now) }
    ensures stops { IfOk result (λ read. StopsAt (lines_of read.1.now)) }
{
    let mut lines = Vec::with_capacity(alloc, count)?;
    let mut rest = bytes;
    while let Some((text, after)) = first_line(rest) {
        let Some(line) = line_of(alloc, text)? else {
            return Ok((lines, rest));
        };
        lines.push(line)?;
        rest = after;
    }
    Ok((lines, rest))
}
