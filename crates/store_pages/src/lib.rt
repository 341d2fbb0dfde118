//! The pages of the nodes of a store: how a node takes one, reads it, gives it up and writes it; and what is
//! read of a node's log for an abort.
//!
//! It promises upward that a node has a page that it takes, given up written by whichever other node had it;
//! that a flush leaves each page that its node had changed on the disk; and that what an abort takes back
//! next is what the log says. It stands on `store_nodes` for the nodes, and the store is whole at every
//! exit, a node whose port stops down; above it a command is a sequence of calls of both crates.
#![tactic(auto)]

mod abort_holders;
mod abort_updates;
mod cached_pages;
mod fetching;
mod flushing;
mod rereading;
mod surrendering;
mod taking;

pub use abort_holders::test_holders;
pub use abort_updates::{test_room, update_after};
pub use cached_pages::{
    data_ident, entry_at, free_place, map_ident, next_group, place_of_group, slot_of,
};
pub use flushing::flush;
pub use rereading::{has_page, is_clean, reread};
pub use taking::take;
