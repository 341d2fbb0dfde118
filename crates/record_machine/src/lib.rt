//! The record machine: the definition of what the store means, and the laws about it.
//!
//! It has no run-time call but its laws. A state of the machine, what a command is refused for, and
//! what each part of a command does to the state are plain data; the store is proved to do what the
//! machine does. It stands on the words of the layers that the store is made of.
#![tactic(auto)]

mod laws;
mod recoverable;
mod recovering;
mod surviving;

pub use laws::{
    law_of_aborts, law_of_formatted_stores, law_of_holds, law_of_parts, law_of_passed_pages,
    law_of_present_records, law_of_refusals, law_of_rows, law_of_stops, law_of_sure_changes,
};
pub use recoverable::{law_of_recoverable_outcomes, law_of_recoverable_stores};
pub use recovering::{law_of_recovered_nodes, law_of_recovery_steps};
pub use surviving::{law_of_same_holds, law_of_survived_stops, law_of_surviving_stores};
