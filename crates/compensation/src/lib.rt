//! Compensation: how an update is taken back, and which one is next.
//!
//! It promises upward that the change which takes an update back puts into its slot what stood there
//! before, whatever became of the page's other slots, and which record of a transaction is to be
//! taken back next. What is left of a transaction is a definition over the records of a log. It
//! stands on `log_record` for the records and on `page_image` for what a change does.
#![tactic(auto)]

mod inverse;
mod laws;
mod next;

pub use inverse::take_back;
pub use laws::{
    law_of_a_log_cut_in_front, law_of_one_more_record, law_of_the_finding, law_of_the_next_record,
    law_of_told_logs,
};
pub use next::{next_after, next_of, record_before};
