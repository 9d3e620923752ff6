//! The operation lines of a session.

ghost use Rattle.std.specs.Prelude.{◌≡◌, ◌≢◌, ℕ, ◌<◌, ◌∷◌, ◌++◌, codes, decimal, IfOk, IfSome, IfNone};
ghost use Rattle.rm_script.specs.Cuts.{Lacks};
ghost use Rattle.rm_script.specs.Operations.{IsLine, IsWrong};

use crate::cuts::cut;
use crate::fields::{name_of, number_within, target_of};
use crate::rows::row_of;
use rm_events::Line;
use rm_types::NoMemory;
use std::alloc::Global;

const BEGIN: &[u8] = b"begin";

const INSERT: &[u8] = b"insert";

const READ: &[u8] = b"read";

const UPDATE: &[u8] = b"update";

const DELETE: &[u8] = b"delete";

const SAVE: &[u8] = b"save";

const BACK: &[u8] = b"back";

const COMMIT: &[u8] = b"commit";

const ABORT: &[u8] = b"abort";

/// The number of a savepoint that the text spells.
fn savepoint_of(text: &[u8]) -> Option<u8>
    ensures some { IfSome result (λ n. (n < 256) × (text.now ≡ decimal n)) }
    ensures none { IfNone result ((n : ℕ) → n < 256 → text.now ≡ decimal n → ⊥) }
{
    Some(number_within(0, 255, text)? as u8)
}

/// The insert whose name and row the text spells, or `None` where it spells none.
fn insert_of(alloc: Global, text: &[u8]) -> Result<Option<Line>, NoMemory>
    ensures some { IfOk result (λ found. IfSome found (λ said. IsLine said (codes "insert " ++ text.now))) }
    ensures none { IfOk result (λ found. IfNone found (IsWrong (codes "insert " ++ text.now))) }
{
    let Some((name, row)) = cut(b' ', text) else {
        return Ok(None);
    };
    let Some(name) = name_of(name) else {
        return Ok(None);
    };
    let Some(row) = row_of(alloc, row)? else {
        return Ok(None);
    };
    Ok(Some(Line::Insert(name, row)))
}

/// The update whose target and row the text spells, or `None` where it spells none.
fn update_of(alloc: Global, text: &[u8]) -> Result<Option<Line>, NoMemory>
    ensures some { IfOk result (λ found. IfSome found (λ said. IsLine said (codes "update " ++ text.now))) }
    ensures none { IfOk result (λ found. IfNone found (IsWrong (codes "update " ++ text.now))) }
{
    let Some((target, row)) = cut(b' ', text) else {
        return Ok(None);
    };
    let Some(target) = target_of(target) else {
        return Ok(None);
    };
    let Some(row) = row_of(alloc, row)? else {
        return Ok(None);
    };
    Ok(Some(Line::Update(target, row)))
}

/// The line without arguments that the text spells; it has no space.
fn lone_of(text: &[u8]) -> Option<Line>
    requires { Lacks 32 text.now }
    ensures some { IfSome result (λ said. IsLine said text.now) }
    ensures none { IfNone result (IsWrong text.now) }
{
    if text == BEGIN {
        return Some(Line::Begin);
    }
    if text == COMMIT {
        return Some(Line::Commit);
    }
    if text == ABORT {
        return Some(Line::Abort);
    }
    None
}

/// The line without a row whose word and one argument these texts spell; it is no insert and no update.
fn short_of(word: &[u8], argument: &[u8]) -> Option<Line>
    requires lacks { Lacks 32 word.now }
    ensures some { IfSome result (λ said. IsLine said (word.now ++ 32 ∷ argument.now)) }
    ensures none { IfNone result (word.now ≢ codes "insert" → word.now ≢ codes "update" → IsWrong (word.now ++ 32 ∷ argument.now)) }
{
    if word == READ {
        return Some(Line::Read(target_of(argument)?));
    }
    if word == DELETE {
        return Some(Line::Delete(target_of(argument)?));
    }
    if word == SAVE {
        return Some(Line::Save(savepoint_of(argument)?));
    }
    if word == BACK {
        return Some(Line::Back(savepoint_of(argument)?));
    }
    None
}

/// The line that the text spells, or `None` where it spells none.
pub(crate) fn line_of(alloc: Global, text: &[u8]) -> Result<Option<Line>, NoMemory>
    ensures some { IfOk result (λ found. IfSome found (λ said. IsLine said text.now)) }
    ensures none { IfOk result (λ found. IfNone found (IsWrong text.now)) }
{
    let Some((word, arguments)) = cut(b' ', text) else {
        return Ok(lone_of(text));
    };
    if word == INSERT {
        return insert_of(alloc, arguments);
    }
    if word == UPDATE {
        return update_of(alloc, arguments);
    }
    Ok(short_of(word, arguments))
}
