//! The tests of log records and of what a log means: byte formats, and logs worked out by hand.
//!
//! What a contract says exactly is not tested again. Most tests are a table of text with one case a line, and one loop
//! over it.
#![tactic(auto)]

#[cfg(test)]
mod audits;
#[cfg(test)]
mod logs;
#[cfg(test)]
mod records;
#[cfg(test)]
mod spellings;
