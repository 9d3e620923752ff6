//! Whose turns the words of a script are.

ghost use Rattle.std.specs.Prelude.{◌≡◌, [], ◌∷◌, MatchOption};
ghost use Rattle.rm_play.specs.Words.{actors_of};
ghost use Rattle.rm_runs.specs.Cursors.{left_of};

use rm_events::{Actor, Word};
use std::marker::Model;

/// The actors whose turns the words of a script are, one after the other, in constant space. It stands for the list of
/// those that are left.
#[derive(Drop)]
pub struct Cursor<'a> {
    // How many sessions the script has.
    sessions: u8,
    // What is left of the present word; of its present round so many sessions had their turn.
    word: Word,
    had: u8,
    words: &'a [Word],
}

impl<'a> Model for Cursor<'a> {
    ghost use Rattle.std.specs.Prelude.{List, ◌++◌};
    ghost use Rattle.rm_core.specs.Below.{Actor};
    ghost use Rattle.rm_play.specs.Words.{actors_of};
    ghost use Rattle.rm_runs.specs.Cursors.{left_of};

    ghost Value = { List Actor };

    ghost view = { λ cursor. left_of cursor.sessions cursor.word cursor.had ++ actors_of cursor.sessions cursor.words.now };
}

impl<'a> Cursor<'a> {
    /// The actors of these words, in a script of so many sessions.
    pub fn new(sessions: u8, words: &'a [Word]) -> Cursor<'a>
        ensures { result ≡ actors_of sessions words.now }
    {
        Cursor {
            sessions,
            word: Word::Finish { rounds: 0 },
            had: sessions,
            words,
        }
    }

    /// The next actor: none at the end.
    pub fn next(&mut self) -> Option<Actor>
        ensures { MatchOption result (self.old ≡ []) (λ actor. self.old ≡ actor ∷ self.new) }
    {
        loop {
            if let Some((actor, word, had)) = next_turn(self.sessions, self.word, self.had) {
                self.word = word;
                self.had = had;
                return Some(actor);
            }
            let (word, words) = self.words.split_first()?;
            self.word = *word;
            self.had = self.sessions;
            self.words = words;
        }
    }
}

// Whose turn the next one of a word is, and what is left of the word after it: none where it gives no more.
fn next_turn(sessions: u8, word: Word, had: u8) -> Option<(Actor, Word, u8)>
    ensures { MatchOption result (left_of sessions word had ≡ []) (λ next. left_of sessions word had ≡ next.0 ∷ left_of sessions next.1 next.2) }
{
    match word {
        Word::Turns { actor, count } => {
            if count == 0 {
                return None;
            }
            let count = count - 1;
            Some((actor, Word::Turns { actor, count }, had))
        }
        Word::Finish { rounds } => {
            if had < sessions {
                return Some((Actor::Session(had + 1), Word::Finish { rounds }, had + 1));
            }
            if rounds == 0 || sessions == 0 {
                return None;
            }
            let rounds = rounds - 1;
            Some((Actor::Session(1), Word::Finish { rounds }, 1))
        }
    }
}
