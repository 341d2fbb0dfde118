//! Transactions over one node's cache: eight seats, each with a transaction or none.
//!
//! It promises upward the one record of each call (begin, change, commit, taking back, end), the page
//! after it, and that the log always has room for what the open transactions may still need. Which
//! update is taken back next, and what is left of a transaction, is what the log's records tell. It
//! stands on `node_cache` for the log and the pages, and on `compensation` for what takes an update
//! back. It keeps nothing on the device, and takes no memory.
#![tactic(auto)]

mod beginning;
mod change;
mod compensating;
mod ending;
mod laws;
mod reading;
mod seats;
mod undoing;
mod updating;

pub use change::Change;
pub use ending::Ending;
pub use laws::{law_of_compensations, law_of_told_transactions};
pub use seats::Seats;
