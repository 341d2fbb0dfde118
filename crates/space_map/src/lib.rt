//! Map pages: which group has which data page, and since when; and the rule by which a data page that
//! stands on the disk is of its present life, or left over from an earlier one.
//!
//! It promises upward that a map page has exactly one block: it is written, read and changed exactly as
//! `IsMapText` says, and a block that isn't a map page is refused. It also has the one type of a page,
//! of either kind, as plain data (`PageImage`). It stands on `sd_base`, which has the header that all
//! pages share, and on `page_image`, which has the data pages.
#![tactic(auto)]

mod change;
mod fields;
mod image;
mod map_entry;
mod search;
mod stale;

pub use change::apply_map;
pub use fields::ENTRIES;
pub use image::{entry, law_of_one_text, parse_map, write_birth_map};
pub use map_entry::MapEntry;
pub use search::{find_group, first_free};
pub use stale::life;
