//! What a map page says of one data page: it is free, or a group uses it.

use sd_base::GroupNo;

/// What a map page has of one of its data pages. The identifiers are at most 2^63 + 2^40, and the
/// groups at most 268,435,455.
#[derive(Clone, Copy, Debug, PartialEq, Eq)]
pub enum MapEntry {
    /// No group has the page. When it comes into use, its life begins with this identifier.
    Free(u64),
    /// The group has the page, whose present life began with this identifier.
    Used(GroupNo, u64),
}
