//! The records of a node's log, and the text that each is written as.
//!
//! It promises upward that a legal record has exactly one text: it is written and read exactly as
//! `record_text` says, and a text of no legal record is refused. For a record that changes a page it
//! says which change that is. It stands on `sd_base`, which has the values, the changes of pages and
//! the fields of texts.
#![tactic(auto)]

mod fields;
mod legal;
mod reading;
mod record;
mod text;

pub use legal::is_legal;
pub use record::{LogRecord, page_op};
pub use text::{decode, encode, law_of_one_text};
