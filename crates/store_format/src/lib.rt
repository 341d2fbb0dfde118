//! A new store, written to two devices.
//!
//! It promises upward that a store is written whole: where a stop leaves its super, it leaves all of it
//! (`write_store`); that none is written over a store that stands there, nor to a device that is too small
//! (`may_format`); and that what was written is what the layers above read, an empty log of each node and
//! each page as it is born (the laws). It stands on `sd_base` for the device, supers and anchors, on
//! `page_image` and `space_map` for the texts of the pages, on `private_log` for what an empty log is,
//! and on `script_text` for its answers.
#![tactic(auto)]

mod block_writes;
mod formatting;
mod laws;
mod places;
mod ports;
mod refusal;
mod reply;
mod writing;

pub use formatting::{may_format, write_store};
pub use laws::{law_of_formatted_disks, law_of_formatted_outcomes, law_of_formatted_vaults};
pub use places::FIRST;
pub use ports::stop_all;
pub use reply::fault_reply;
