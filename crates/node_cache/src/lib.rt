//! The cache of a node: its log, and up to 16 pages in frames.
//!
//! It carries write-ahead logging. A page is changed in its frame, with the log record of the change, and
//! nothing but the log is written then. It is written at eviction, at a flush or when its node gives it
//! up, and only when all records of the log are stable. So whatever a stop leaves of a page's block, the
//! log explains it. Each call says which pages it leaves in the cache, and what it leaves of each block,
//! also where the node's port stops in it. It stands on the typed states of pages (`state_ids`), the log,
//! the frames and the tickets; above it a transaction is a sequence of its calls.
#![tactic(auto)]

mod cache;
mod changing;
mod ending;
mod fetching;
mod laws;
mod logging;
mod pages;
mod sending;
mod slot;
mod surrendering;
mod writing;

pub use cache::NodeCache;
pub use laws::{law_of_page_writes, law_of_stopped_caches};
