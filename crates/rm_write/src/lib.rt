//! Writing to a sink: a whole text, or one that is gathered in a buffer and written once it is long.
//!
//! Whatever happens, the sink has taken a prefix of what was due, and the buffer has the rest.
#![tactic(auto)]

mod writing;

pub use writing::{BUFFER, flush, flush_if_long, write_all};
