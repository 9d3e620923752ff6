//! Reading a whole script.

ghost use Rattle.std.specs.Prelude.{◌≡◌, suc, ◌<◌, ◌≤◌, ◌∷◌, length, IfOk, IfErr, IfSome, IfNone};
ghost use Rattle.rm_script.specs.Grammar.{AreLines, AreTurnLines, Spells, lines_in, session_text};
ghost use Rattle.rm_script.specs.Lines.{lines_of};
ghost use Rattle.rm_script.specs.Reading.{AreSessions, HasEnd, HasRead, IsSomeLine, IsSomeTurnLine, LacksFirst, SessionsStop, StopsAt};
ghost use Rattle.rm_script.specs.Refusals.{IsWithinLimits, Refuses, RefusesPlain};

use crate::fields::number;
use crate::limits::count_within_limits;
use crate::lines::{first_line, line_count};
use crate::operations::line_of;
use crate::refused::ScriptRefused;
use crate::turns::push_turn_line;
use rm_events::{Line, Script, Word};
use rm_types::{MAX_SESSIONS, NoMemory};
use std::alloc::Global;

const SESSION: &[u8] = b"session ";

const TURNS: &[u8] = b"turns";

/// The script that the bytes spell.
///
/// # Errors
///
/// [`ScriptRefused::Limit`] for too many bytes, and then for too many lines; [`ScriptRefused::Bad`] with the number of
/// the first wrong line; [`ScriptRefused::NoMemory`].
pub fn read_script(alloc: Global, bytes: &[u8]) -> Result<Script, ScriptRefused>
    ensures script { IfOk result (λ script. IsWithinLimits bytes.now × Spells script bytes.now) }
    ensures refused { IfErr result (Refuses bytes.now) }
{
    let count = count_within_limits(bytes)?;
    let (sessions, rest) = read_sessions(alloc, bytes)?;
    let (words, rest) = read_turns(alloc, sessions.len(), rest)?;
    if rest.is_empty() {
        return Ok(Script { sessions, words });
    }
    let right = (count - line_count(rest)) as u64;
    Err(ScriptRefused::Bad { line: right + 1 })
}

/// The lines of the one session of a script in the plain form, which has nothing else.
///
/// # Errors
///
/// As [`read_script`].
pub fn read_plain(alloc: Global, bytes: &[u8]) -> Result<Vec<Line>, ScriptRefused>
    ensures lines { IfOk result (λ lines. IsWithinLimits bytes.now × AreLines lines.items (lines_of bytes.now)) }
    ensures refused { IfErr result (RefusesPlain bytes.now) }
{
    let count = count_within_limits(bytes)?;
    let (lines, rest) = read_lines(alloc, bytes)?;
    if rest.is_empty() {
        return Ok(lines);
    }
    let right = (count - line_count(rest)) as u64;
    Err(ScriptRefused::Bad { line: right + 1 })
}

/// Reads sessions up to the first line that is no operation of theirs and does not begin the next one, and gives what
/// is left from there.
fn read_sessions(alloc: Global, bytes: &[u8]) -> Result<(Vec<Vec<Line>>, &[u8]), NoMemory>
    ensures read { IfOk result (λ read. HasRead (AreSessions (length read.0.items) (lines_in read.0.items)) bytes.now read.1.now) }
    ensures stops { IfOk result (λ read. SessionsStop (length read.0.items) (lines_of read.1.now)) }
    ensures shorter { IfOk result (λ read. length read.1.now ≤ length bytes.now) }
{
    let mut sessions = Vec::new(alloc);
    let mut rest = bytes;
    while let Some(after) = after_session(sessions.len(), rest) {
        let (lines, left) = read_lines(alloc, after)?;
        sessions.push(lines)?;
        rest = left;
    }
    Ok((sessions, rest))
}

/// What stands after the line that begins the session after `count` others, where that is the first line.
fn after_session(count: usize, bytes: &[u8]) -> Option<&[u8]>
    ensures few { IfSome result (λ rest. count < MAX_SESSIONS) }
    ensures some { IfSome result (λ rest. lines_of bytes.now ≡ session_text (suc count) ∷ lines_of rest.now) }
    ensures shorter { IfSome result (λ rest. length rest.now < length bytes.now) }
    ensures none { IfNone result (count < MAX_SESSIONS → LacksFirst (session_text (suc count)) (lines_of bytes.now)) }
{
    if count >= usize::from(MAX_SESSIONS) {
        return None;
    }
    let (text, after) = first_line(bytes)?;
    let session = number(text.strip_prefix(SESSION)?)?;
    if session == count as u32 + 1 {
        Some(after)
    } else {
        None
    }
}

/// Reads operation lines up to the first text that is none, and gives what is left from there.
fn read_lines(alloc: Global, bytes: &[u8]) -> Result<(Vec<Line>, &[u8]), NoMemory>
    ensures read { IfOk result (λ read. HasRead (AreLines read.0.items) bytes.now read.1.now) }
    ensures stops { IfOk result (λ read. StopsAt IsSomeLine (lines_of read.1.now)) }
    ensures shorter { IfOk result (λ read. length read.1.now ≤ length bytes.now) }
{
    let mut lines = Vec::new(alloc);
    let mut rest = bytes;
    while let Some((text, after)) = first_line(rest) {
        let Some(line) = line_of(alloc, text)? else {
            return Ok((lines, rest));
        };
        lines.push(line)?;
        rest = after;
    }
    Ok((lines, rest))
}

/// Reads the line `turns` and turn lines up to the first line that is none, and gives what is left from there.
fn read_turns(alloc: Global, sessions: usize, bytes: &[u8]) -> Result<(Vec<Word>, &[u8]), NoMemory>
    requires { sessions ≤ MAX_SESSIONS }
    ensures read { IfOk result (λ read. HasEnd sessions read.0.items bytes.now read.1.now) }
    ensures shorter { IfOk result (λ read. length read.1.now ≤ length bytes.now) }
{
    let Some((text, rest)) = first_line(bytes) else {
        return Ok((Vec::new(alloc), bytes));
    };
    if text != TURNS {
        return Ok((Vec::new(alloc), bytes));
    }
    read_turn_lines(alloc, sessions, rest)
}

/// Reads turn lines up to the first line that is none, and gives what is left from there.
fn read_turn_lines(
    alloc: Global,
    sessions: usize,
    bytes: &[u8],
) -> Result<(Vec<Word>, &[u8]), NoMemory>
    requires { sessions ≤ MAX_SESSIONS }
    ensures read { IfOk result (λ read. HasRead (AreTurnLines sessions read.0.items) bytes.now read.1.now) }
    ensures stops { IfOk result (λ read. StopsAt (IsSomeTurnLine sessions) (lines_of read.1.now)) }
    ensures shorter { IfOk result (λ read. length read.1.now ≤ length bytes.now) }
{
    let mut words = Vec::new(alloc);
    let mut rest = bytes;
    while let Some((text, after)) = first_line(rest) {
        if !push_turn_line(sessions, text, &mut words)? {
            return Ok((words, rest));
        }
        rest = after;
    }
    Ok((words, rest))
}
