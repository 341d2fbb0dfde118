//! The changes that a page can undergo.

use crate::names::GroupNo;
use crate::value::Value;

/// A change of one slot of a data page, or of one entry of a map page. The slots are numbered from
/// 0 to 15, and the entries from 0 to 251.
#[derive(Clone, Copy, Debug, PartialEq, Eq)]
pub enum PageOp {
    /// The slot holds this value from now on, or none.
    Put { slot: u8, after: Option<Value> },
    /// The slot's value gets these bytes behind its own, and what is past 248 bytes is dropped.
    /// An absent slot counts as empty.
    Append { slot: u8, bytes: Value },
    /// If `present`, the slot keeps the first `len` bytes of its value, or all of a shorter one.
    /// An absent slot counts as empty, and so becomes present. Otherwise the slot becomes absent.
    Cut { slot: u8, present: bool, len: u8 },
    /// The map entry at this place becomes used by a group. It keeps its identifier.
    MapUse { place: u8, group: GroupNo },
    /// The map entry at this place becomes free, with this identifier.
    MapFree { place: u8, ident: u64 },
}
