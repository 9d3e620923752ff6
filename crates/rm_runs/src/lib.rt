//! How the run of a script goes on, and what is printed of it.
//!
//! A [`Cursor`] gives the actors whose turns the words of a script are, one after the other. What is printed of a run is a
//! function of its trace: a line for each reply and for each wait. A turn's text is what its event adds.
#![tactic(auto)]

mod cursor;
mod texts;

pub use cursor::Cursor;
pub use texts::answer_text;
