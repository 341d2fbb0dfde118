//! Why a call that uses a device gives up.

use crate::device::{BlockNo, NodeId};
use thiserror::Error;

/// Why a call that uses a device gave up.
#[derive(Clone, Copy, Debug, PartialEq, Eq, Error)]
pub enum DevFault {
    /// The port was stopped in the call.
    #[error("the port was stopped")]
    Stopped(NodeId),
    /// The port failed in the call.
    #[error("the port failed")]
    Failed(NodeId),
    /// The block is lost.
    #[error("the block is lost")]
    Lost(BlockNo),
    /// The block isn't a text of the kind that belongs there.
    #[error("the block is damaged")]
    Damaged(BlockNo),
}
