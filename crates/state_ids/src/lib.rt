//! The states of a page in a frame, as types.
//!
//! They carry two rules of write-ahead logging. A page changes only with the log record that names its
//! identifier: `apply` takes the token of a record that was appended (`log_page`) to the log of the
//! page's node. And a changed page never leaves its frame unwritten: out of `Held<Dirty>` there is no
//! way but `written`, with the token of the write, `freed` and `wreck`. The token of a write comes from
//! a batch of writes alone, once its barrier was answered. It stands on the log, the two kinds of pages,
//! the frames and the tickets; on a device it touches the pages' blocks alone.
#![tactic(auto)]

mod batch;
mod changing;
mod held;
mod laws;
mod loading;
mod logged;
mod writing;

pub use batch::{Batch, Covered};
pub use held::{Clean, Dirty, Held, Written};
pub use laws::{law_of_changes, law_of_one_image};
pub use loading::{load, test_block};
pub use logged::{Logged, log_page};
pub use writing::write_page;
