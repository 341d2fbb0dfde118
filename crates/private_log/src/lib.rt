//! The private log of a node: a list of records of which a front is stable.
//!
//! It promises upward that whatever a stop leaves of the node's region on the disk, what is read there
//! is a front of the records that were appended, with every one that was forced (`Log::append`,
//! `Log::force`, `Log::move_start`); that a log is read exactly as it stands (`Log::attach`,
//! `Log::read`); and that no other block is touched. To it records are texts of 672 bytes. It stands on
//! `sd_base`, which has the device, the anchors and the places of the blocks.
#![tactic(auto)]

mod attach;
mod block;
mod laws;
mod log;
mod moving;
mod reading;
mod writing;

pub use laws::{
    law_of_foreign_logs, law_of_log_outcomes, law_of_one_log, law_of_other_calls, law_of_regions,
};
pub use log::Log;
