//! The store as one call, `run`: it reads a script, executes its lines over a disk and a vault, and
//! writes the transcript.
//!
//! It promises upward, for every list of bytes that the source gives and over every disk that tells
//! its content, that the transcript is the answers of the record machine to the script's lines, up to
//! the first stop of a node, and that the disk left behind showed the machine's last state until all
//! its ports were stopped. It stands on `cluster_core` for the commands of an open store and on
//! `script_text` for lines and replies; what the machine answers is in `record_machine`, and the
//! rules of lines, commands and replies are in docs/COMMANDS.md.
#![tactic(auto)]

mod answer;
mod laws;
mod line;
mod output;
mod script;
mod session;
mod store;

pub use laws::law_of_runs_without_stops;
pub use script::{Status, run};
