//! An open store of one to eight nodes, as one value: `Cluster` executes commands, one at a time.
//!
//! It promises upward that a command does what the record machine does, and is refused for what the
//! machine refuses it for; that where a node stops in it that node is down; and that a store is formatted
//! whole, or not at all. It stands on `store_nodes` for the nodes and what they share, on `store_pages` for
//! a flush, on `store_commands` for the commands on records, and on `store_format` for how a new store is
//! written.
#![tactic(auto)]

mod cluster;
mod dumping;
mod executing;
mod lifetime;
mod replies;

pub use cluster::Cluster;
pub use store_format::{
    law_of_formatted_disks, law_of_formatted_outcomes, law_of_formatted_vaults, may_format,
    write_store,
};
