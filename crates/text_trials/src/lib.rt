//! The texts of the store tried out: lines and replies, supers and anchors, pages and log records, and
//! the table of locks.
//!
//! Its tests show what no contract of the crates below says: the bytes that docs/FORMATS.md and
//! docs/COMMANDS.md give for a value, and that each call succeeds. Nothing stands on this crate, and
//! without its tests there is nothing in it.
#![tactic(auto)]

#[cfg(test)]
mod compensation_tests;
#[cfg(test)]
mod data_page_tests;
#[cfg(test)]
mod line_tests;
#[cfg(test)]
mod lock_tests;
#[cfg(test)]
mod map_page_tests;
#[cfg(test)]
mod place_tests;
#[cfg(test)]
mod record_tests;
#[cfg(test)]
mod super_tests;
#[cfg(test)]
mod texts;
