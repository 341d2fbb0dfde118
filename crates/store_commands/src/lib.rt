//! The commands that take pages, for a node of a store with one to eight nodes: those on one record, an
//! abort, and what a dump finds next.
//!
//! It promises upward that a record is read, written, deleted or found, and that all of a transaction is
//! taken back, exactly as the record machine says, or that the command is refused for the first reason that
//! there is; and that a node whose port stops in it is down, be it the one that asks or one that had to give
//! up a page. It stands on `store_nodes` and `store_pages`, of whose calls each command is a sequence; the
//! crate has no state of its own.
#![tactic(auto)]

mod abort_pages;
mod aborting;
mod deleting;
mod dumping;
mod getting;
mod group_page;
mod putting;

pub use aborting::abort;
pub use deleting::delete;
pub use dumping::{Row, find_record, reply_row};
pub use getting::{get, record_in};
pub use group_page::take_group;
pub use putting::{write_record, write_there};
