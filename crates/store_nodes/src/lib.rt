//! The nodes of a store, one to eight, over what they share: frames, owners of pages, and locks.
//!
//! It promises upward that a call of one node does its part of the record machine, for every device; that
//! it leaves the other nodes as they were; and that a node whose port stops in it is down afterwards. It
//! stands on `txn_core` for a node's transactions, on `node_cache` for its pages, and on `record_locks`
//! and `page_owner` for who may touch what; above it a command is a sequence of its calls.
#![tactic(auto)]

mod changing;
mod checking;
mod halting;
mod map_page;
mod node;
mod starting;
mod store;
mod taking_back;
mod transacting;

pub use map_page::map_identifier;
pub use node::{NODES, Node, place};
pub use store::{Shared, Store};
