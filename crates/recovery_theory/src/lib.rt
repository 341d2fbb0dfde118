//! The theory of recovery: what the logs and the devices of a store stand for, wherever a stop cuts the
//! logs, and one law for each elementary step.
//!
//! It promises upward that whatever step is taken, where it may be taken, the devices stand at every cut
//! of the logs, and for the same records; but for the forced end of a transaction, which overlays them
//! with what is left of it. It has no run-time call but its laws, and speaks of plain data alone: images
//! of pages, log records, and the numbers that say how much of each log is stable. The layers above tie
//! their blocks, frames and tables to these. It stands on `page_image` and `space_map`, which say what a
//! change makes of a page, on `log_record`, and on `compensation`, which says what is left of a
//! transaction.
#![tactic(auto)]

mod laws;

pub use laws::{
    law_of_chains, law_of_committed_records, law_of_ended_transactions, law_of_formatted_stores,
    law_of_headroom, law_of_kept_records, law_of_locks, law_of_logged_changes, law_of_outcomes,
    law_of_pages, law_of_redo, law_of_room, law_of_ruled_logs, law_of_standing_devices,
    law_of_stops, law_of_the_vault, law_of_words,
};
