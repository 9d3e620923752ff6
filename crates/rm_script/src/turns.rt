//! The turn lines of a script.

ghost use Rattle.std.specs.Prelude.{◌≡◌, ℕ, ◌^◌, ◌<◌, ◌≤◌, List, ◌++◌, codes, decimal, IfOk, IfSome, IfNone, MatchBool};
ghost use Rattle.rm_events.specs.declared.events.Actor.{Actor as Actors};
ghost use Rattle.rm_events.specs.declared.lines.Word.{Word as Words};
ghost use Rattle.rm_script.specs.Reading.{Puts, PutsWord};
ghost use Rattle.rm_script.specs.Turns.{AreWords, IsActor, IsFinish, IsTurnLine, IsWord};

use crate::cuts::cut;
use crate::fields::{number, number_within};
use crate::limits::MAX_TURNS;
use rm_events::{Actor, Word};
use rm_types::{MAX_SESSIONS, NoMemory};

const FLUSH: &[u8] = b"f";

const FINISH: &[u8] = b"finish ";

/// The actor that the text names, in a script of this many sessions.
fn actor_of(sessions: usize, text: &[u8]) -> Option<Actor>
    requires { sessions ≤ MAX_SESSIONS }
    ensures some { IfSome result (λ actor. IsActor sessions actor text.now) }
    ensures none { IfNone result ((actor : Actors) → IsActor sessions actor text.now → ⊥) }
{
    if text == FLUSH {
        return Some(Actor::Flush);
    }
    let session = number_within(1, sessions as u32, text)?;
    Some(Actor::Session(session as u8))
}

/// The word that the text spells, in a script of this many sessions.
fn word_of(sessions: usize, text: &[u8]) -> Option<Word>
    requires { sessions ≤ MAX_SESSIONS }
    ensures some { IfSome result (λ word. IsWord sessions word text.now) }
    ensures none { IfNone result ((word : Words) → IsWord sessions word text.now → ⊥) }
{
    let Some((name, count)) = cut(b'*', text) else {
        let actor = actor_of(sessions, text)?;
        return Some(Word::Turns { actor, count: 1 });
    };
    let actor = actor_of(sessions, name)?;
    let count = number_within(1, MAX_TURNS, count)?;
    Some(Word::Turns { actor, count })
}

/// Puts the word that the text spells after the others, and answers whether it spells one.
fn push_word(sessions: usize, text: &[u8], words: &mut Vec<Word>) -> Result<bool, NoMemory>
    requires { sessions ≤ MAX_SESSIONS }
    ensures { IfOk result (λ is_word. MatchBool is_word (PutsWord sessions text.now words.old.items words.new.items) ((words.new.items ≡ words.old.items) × ((word : Words) → IsWord sessions word text.now → ⊥))) }
{
    let Some(word) = word_of(sessions, text) else {
        return Ok(false);
    };
    words.push(word)?;
    Ok(true)
}

/// Puts the words that the parts of the text spell after the others, and answers whether they do; where one does not,
/// those before it have been put.
fn push_words(sessions: usize, text: &[u8], words: &mut Vec<Word>) -> Result<bool, NoMemory>
    requires { sessions ≤ MAX_SESSIONS }
    ensures { IfOk result (λ are_words. MatchBool are_words (Puts (λ own. AreWords sessions own text.now) words.old.items words.new.items) (Puts (λ own. Unit {0}) words.old.items words.new.items × ((own : List Words) → AreWords sessions own text.now → ⊥))) }
{
    let mut rest = text;
    while let Some((first, after)) = cut(b' ', rest) {
        if !push_word(sessions, first, words)? {
            return Ok(false);
        }
        rest = after;
    }
    push_word(sessions, rest, words)
}

/// Puts the words of the turn line after the others, and answers whether it is one; where it is none, the words stay as
/// they were.
pub(crate) fn push_turn_line(
    sessions: usize,
    text: &[u8],
    words: &mut Vec<Word>,
) -> Result<bool, NoMemory>
    requires { sessions ≤ MAX_SESSIONS }
    ensures { IfOk result (λ is_line. MatchBool is_line (Puts (λ own. IsTurnLine sessions own text.now) words.old.items words.new.items) ((words.new.items ≡ words.old.items) × ((own : List Words) → IsTurnLine sessions own text.now → ⊥))) }
{
    if let Some(rounds) = text.strip_prefix(FINISH) {
        return push_finish(rounds, words);
    }
    let before = words.len();
    let are_words = push_words(sessions, text, words)?;
    if !are_words {
        words.truncate(before);
    }
    Ok(are_words)
}

/// Puts the word of that many rounds after the others, and answers whether the text is a number.
fn push_finish(rounds: &[u8], words: &mut Vec<Word>) -> Result<bool, NoMemory>
    ensures { IfOk result (λ is_number. MatchBool is_number (Puts (λ own. IsFinish own (codes "finish " ++ rounds.now)) words.old.items words.new.items) ((words.new.items ≡ words.old.items) × ((n : ℕ) → n < 2 ^ 32 → rounds.now ≡ decimal n → ⊥))) }
{
    let Some(rounds) = number(rounds) else {
        return Ok(false);
    };
    words.push(Word::Finish { rounds })?;
    Ok(true)
}
