//! Through which port a format writes, and the block of the super.
use sd_base::{BlockNo, NodeId};

/// The node through whose port a store is formatted and opened.
pub const FIRST: NodeId = NodeId(1);

/// The block of the super on each device.
pub(crate) const SUPER: BlockNo = BlockNo(0);
