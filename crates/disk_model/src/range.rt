//! Blocks that follow each other.
use sd_base::BlockNo;

/// `count` blocks from `first` on.
#[derive(Clone, Copy, Debug, PartialEq, Eq)]
pub struct Range {
    pub first: BlockNo,
    pub count: u32,
}
