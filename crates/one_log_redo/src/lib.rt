//! Redo of one log: what a node did is done again from its log alone.
//!
//! So far it has the steps of which redo is made. A record of the log is read (`read_record`), a page is
//! read into a frame (`read_page`), a change is made of it exactly where the page has the change's
//! identifier (`redo_change`), and a changed page is written (`write_page`, `settle_page`). For many
//! pages at once it has frames, into which pages are brought one after the other. It promises
//! upward that each step is that of the redo fold of `recovery_theory`, over any contents of a device.
//! It stands on the two kinds of pages, the log records, the frames and the theory of recovery; on a
//! device it touches the pages' blocks alone.
#![tactic(auto)]

mod applying;
mod copies;
mod frames;
mod laws;
mod leaving;
mod loading;
mod needing;
mod records;
mod redoing;
mod stale;
mod stepping;
mod writing;

pub use applying::redo_change;
pub use laws::law_of_steps;
pub use loading::read_page;
pub use records::read_record;
pub use stale::{birth_at, ident_in_life, put_in_life};
pub use stepping::{redo_data_page, redo_map_page};
pub use writing::{settle_page, write_page};
