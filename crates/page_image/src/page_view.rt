//! The content of a data page: its number, its identifier and its slots.

use sd_base::{PageNo, Value};

/// What a data page holds.
#[derive(Clone, Copy, Debug, PartialEq, Eq)]
pub struct PageView {
    /// The page's number.
    pub page: PageNo,
    /// The page's identifier, at most 2^63 + 2^40. It rises with each change.
    pub ident: u64,
    /// What each slot holds.
    pub slots: [Option<Value>; 16],
}
