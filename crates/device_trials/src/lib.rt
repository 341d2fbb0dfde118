//! Devices, frames and owners tried out in memory, and a device that notes what it is told to do.
//!
//! What no contract says shows in its tests: that the calls succeed, at which call a count of an armed
//! device comes due, and what a stop or a cut leaves of the blocks. Its `WatchedDisk` notes the writes and
//! the barriers and stops where it is asked to: the trials of a node go over it. Nothing else stands on
//! this crate.
#![tactic(auto)]

mod watched;

pub use watched::{Deed, WatchedDisk};

#[cfg(test)]
mod armed_tests;
#[cfg(test)]
mod frame_tests;
#[cfg(test)]
mod memory_tests;
#[cfg(test)]
mod owner_tests;
