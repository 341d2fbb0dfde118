//! Trials of the store over sources, sinks and devices in memory that fail where they are told to.
//!
//! A write is cut and a call fails by `disk_model::Fused`; what can't be armed has a device here: a stop
//! in a read or a barrier (`CutDisk`), and a block that is read as something else (`MisreadDisk`). Both
//! meet the trait that the store stands on, so what is proved of the store holds over them; the tests
//! show what no contract says and no script reaches. A client of two writes (`write_in_order`) shows what
//! can be promised over any device. Nothing stands on this crate.
#![tactic(auto)]

mod client;
mod cut;
mod misread;

pub use client::write_in_order;
pub use cut::CutDisk;
pub use misread::MisreadDisk;

#[cfg(test)]
mod block_tests;
#[cfg(test)]
mod client_tests;
#[cfg(test)]
mod fault_tests;
#[cfg(test)]
mod format_tests;
#[cfg(test)]
mod log_tests;
#[cfg(test)]
mod stream_tests;
#[cfg(test)]
mod streams;
#[cfg(test)]
mod trial;
