//! The tests of scripts, of the engine and of the commands, over their public calls.
//!
//! What a contract says exactly is not tested again. Here stand each command on its usual path, and failures in mid-run
//! by the devices of rm_memory. Most tests are a table of text with one case a line, and one loop over it.
#![tactic(auto)]

#[cfg(test)]
mod commands;
#[cfg(test)]
mod engines;
#[cfg(test)]
mod scripts;
#[cfg(test)]
mod texts;
#[cfg(test)]
mod volumes;
