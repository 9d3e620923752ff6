//! Scripts of one session in the plain form and in that of `turns`, and the replies to them as text.
//!
//! A script in either form is read whole or refused at its first wrong line, and each text spells
//! at most one script, so what is read is what was written. Both limits of a script are tested before
//! any of its lines is read. A reply is appended to a buffer as one line, whole or not at all.
#![tactic(auto)]

mod instructions;
mod laws;
mod lines;
mod reading;
mod refused;
mod texts;

pub use laws::{
    bytes_spell_one_script, each_text_is_one_line, one_line_is_the_first_wrong,
    turns_spell_one_script,
};
pub use lines::{Line, Script, Which};
pub use reading::{read_plain, read_turns};
pub use refused::ScriptRefused;
pub use texts::{reply_text, turn_text};
