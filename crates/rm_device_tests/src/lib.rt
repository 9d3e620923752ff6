//! The tests of the devices: what a crash leaves of the volume in memory, what a volume makes of the answers of
//! its files, and the volume and the streams over real files.
//!
//! What a contract says exactly is not tested again.
#![tactic(auto)]

#[cfg(test)]
mod answers;
#[cfg(test)]
mod devices;
#[cfg(test)]
mod files;
