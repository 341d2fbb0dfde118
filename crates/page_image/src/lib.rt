//! Data pages: sixteen slots of records behind a header, and the block that a page is written as.
//!
//! It promises upward that a page has exactly one block: it is written, read and changed exactly as
//! `IsTextOf` says, and a block that isn't a data page is refused. It stands on `sd_base`, which has
//! the header that all pages share.
#![tactic(auto)]

mod change;
mod image;
mod page_view;
mod slots;

pub use change::apply;
pub use image::{identifier, parse, slot, write_birth};
pub use page_view::PageView;
