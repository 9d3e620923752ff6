//! How many turns a script's words are.

ghost use Rattle.std.specs.Prelude.{◌≡◌, ◌+◌, ◌≤◌, ◌<◌, length, min, IfOk, IfErr};
ghost use Rattle.rm_script.specs.declared.limits.Which.TheVariants.{Turns};
ghost use Rattle.rm_script.specs.declared.refused.ScriptRefused.TheVariants as refused;
ghost use Rattle.rm_script.specs.Turns.{turns_in, turns_of};

use crate::limits::{MAX_TURNS, Which};
use crate::refused::ScriptRefused;
use rm_events::{Script, Word};

/// How many turns the script's words are, a round being one of each session. Words of sessions that have no line left
/// count too.
///
/// # Errors
///
/// [`ScriptRefused::Limit`] where they are more than [`MAX_TURNS`].
pub fn turn_count(script: &Script) -> Result<u32, ScriptRefused>
    ensures count { IfOk result (λ turns. turns ≡ turns_of (length script.now.sessions.items) script.now.words.items) }
    ensures few { IfOk result (λ turns. turns ≤ MAX_TURNS) }
    ensures refused { IfErr result (λ e. (e ≡ refused.Limit Turns) × (MAX_TURNS < turns_of (length script.now.sessions.items) script.now.words.items)) }
{
    let sessions = script.sessions.len();
    let mut turns = 0;
    for word in &script.words {
        turns += capped_turns(sessions, word);
        if turns > MAX_TURNS {
            return Err(ScriptRefused::Limit {
                which: Which::Turns,
            });
        }
    }
    Ok(turns)
}

/// How many turns the word is, or one more than [`MAX_TURNS`] where they are more.
fn capped_turns(sessions: usize, word: &Word) -> u32
    ensures { result ≡ min (turns_in sessions word.now) (MAX_TURNS + 1) }
{
    let turns = match word {
        Word::Turns { count, .. } => u64::from(*count),
        Word::Finish { rounds } => u64::from(*rounds).saturating_mul(sessions as u64),
    };
    turns.min(u64::from(MAX_TURNS) + 1) as u32
}
