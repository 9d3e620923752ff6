//! One line of a script.

ghost use Rattle.std.specs.Prelude.{◌≡◌, ◌++◌, codes, IfOk, IfSome, IfNone};
ghost use Rattle.rm_plain.specs.declared.lines.Line.{Line};
ghost use Rattle.rm_plain.specs.Grammar.{IsLine, IsWrong};

use crate::lines::Line;
use rm_script::{cut, name_of, row_of, target_of};
use rm_types::NoMemory;
use std::alloc::Global;

const BEGIN: &[u8] = b"begin";

const COMMIT: &[u8] = b"commit";

const INSERT: &[u8] = b"insert ";

const READ: &[u8] = b"read ";

/// The insert whose name and row the text spells, or `None` where it spells none.
fn insert_of(alloc: Global, text: &[u8]) -> Result<Option<Line>, NoMemory>
    ensures some { IfOk result (λ found. IfSome found (λ said. IsLine said (codes "insert " ++ text.now))) }
    ensures none { IfOk result (λ found. IfNone found (IsWrong (codes "insert " ++ text.now))) }
{
    let Some((name, row)) = cut(b' ', text) else {
        return Ok(None);
    };
    let Some(name) = name_of(name) else {
        return Ok(None);
    };
    let Some(row) = row_of(alloc, row)? else {
        return Ok(None);
    };
    Ok(Some(Line::Insert(name, row)))
}

/// The line that the text spells, or `None` where it spells none.
pub(crate) fn line_of(alloc: Global, text: &[u8]) -> Result<Option<Line>, NoMemory>
    ensures some { IfOk result (λ found. IfSome found (λ said. IsLine said text.now)) }
    ensures none { IfOk result (λ found. IfNone found (IsWrong text.now)) }
{
    if text == BEGIN {
        return Ok(Some(Line::Begin));
    }
    if text == COMMIT {
        return Ok(Some(Line::Commit));
    }
    if let Some(rest) = text.strip_prefix(INSERT) {
        return insert_of(alloc, rest);
    }
    if let Some(rest) = text.strip_prefix(READ) {
        return Ok(target_of(rest).map(Line::Read));
    }
    Ok(None)
}
