//! Who owns each page of the store.
//!
//! It promises upward that a page has one ticket at most: a ticket is made where the page had none that
//! was out, can't be copied, and has to be given back or parked. It stands on `sd_base` alone, for the
//! names of pages and nodes.
#![tactic(auto)]

mod owners;
mod ticket;

pub use owners::{Own, Owners};
pub use ticket::Ticket;
