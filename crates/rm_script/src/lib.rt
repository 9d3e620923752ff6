//! The script language: scripts of sessions and turns, read from bytes, and what is printed of them as text.
//!
//! Bytes spell at most one script. A script is read whole or refused: its bytes and lines are counted first, and then
//! it is refused at its first wrong line alone. A text is appended to a buffer as one line, whole or not at all.
#![tactic(auto)]

mod counts;
mod cuts;
mod fields;
mod laws;
mod limits;
mod lines;
mod operations;
mod parts;
mod reading;
mod refused;
mod rows;
mod texts;
mod turns;

pub use counts::turn_count;
pub use cuts::cut;
pub use fields::{name_of, number, target_of};
pub use laws::{
    a_script_may_end_after_any_line, bytes_spell_one_script, each_text_is_one_line,
    one_line_is_the_first_wrong,
};
pub use limits::{MAX_BYTES, MAX_LINES, MAX_TURNS, Which};
pub use lines::{first_line, line_count};
pub use parts::{Part, write_line};
pub use reading::{read_plain, read_script};
pub use refused::ScriptRefused;
pub use rows::row_of;
pub use texts::{
    created_text, entry_text, mismatches_text, pages_text, reply_text, restart_text, row_text,
    rows_text, turn_text, unfinished_text, waits_text,
};
