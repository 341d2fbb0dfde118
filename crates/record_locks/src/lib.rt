//! Locks on records: which transaction has which key, to read or to write.
//!
//! It promises upward that the table is a finite map from locks to modes, of at most 4,096 locks, and
//! that each call is exact on it: a lock is refused exactly where another transaction is in the way,
//! of which the least is named, or where the table is full. It stands on `sd_base` for keys and
//! transactions.
#![tactic(auto)]

mod entry;
mod laws;
mod mode;
mod table;

pub use laws::{law_of_dropped_locks, law_of_the_least};
pub use mode::{LockAnswer, Mode};
pub use table::Locks;
