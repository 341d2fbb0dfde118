//! Losers and their undo: what a dead node's open transactions did is taken back from its log alone.
//!
//! So far it has the steps of which the listing of losers is made, and how the undo of one ends. Each text
//! of a log is tested to be that of a record (`check_texts`), the transactions that have no end are found
//! (`open_transactions`), the records of these are tested to lead to one another (`check_bonds`), and what
//! they tell of one is read (`tell`). A transaction of which nothing is left is ended (`end_loser`). It
//! promises upward that each step says what the records of the log say, over any contents of a device. It
//! stands on the log, its records, the steps of redo and the theory of recovery.
#![tactic(auto)]

mod bonds;
mod ending;
mod losers;
mod naming;
mod opening;
mod reading;
mod telling;
mod texts;

pub use bonds::check_bonds;
pub use ending::end_loser;
pub use losers::Loser;
pub use opening::open_transactions;
pub use telling::tell;
pub use texts::check_texts;
