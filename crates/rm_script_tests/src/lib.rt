//! The tests of scripts and of what is printed.
//!
//! What a contract says exactly is not tested again. Each test is a table of text with one case a line, and one loop
//! over it.
#![tactic(auto)]

#[cfg(test)]
mod scripts;
#[cfg(test)]
mod texts;
