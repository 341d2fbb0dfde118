//! The text of scripts and transcripts: how a text is split into lines, which line spells which
//! command, how the bytes of a value are spelled, and the line of each reply.
//!
//! It promises upward that a line is read as the one command that it spells, and as `Bad` exactly
//! where it spells none (`read_line`), and that the line of a reply is exactly its text
//! (`write_reply`). It stands on `sd_base` for the names of nodes, transactions, keys and pages.
//! No function takes memory. The rules are in docs/COMMANDS.md.
#![tactic(auto)]

mod command;
mod lines;
mod numbers;
mod read;
mod reply;
mod spelling;
mod text;
mod words;
mod write;

pub use command::Command;
pub use lines::law_of_one_splitting;
pub use read::{law_of_one_reading, law_of_short_lines, read_line};
pub use reply::Reply;
pub use spelling::law_of_one_spelling;
pub use text::ReplyText;
pub use write::write_reply;
