//! A store that is open: its nodes, and what they share in memory.

ghost use Rattle.std.specs.Prelude.{◌≡◌};
ghost use Rattle.store_nodes.specs.Nodes.{IsPlace, node_at};

use crate::node::{NODES, Node, place};
use frame_pool::Pool;
use page_owner::Owners;
use record_locks::Locks;
use sd_base::{NodeId, Shape};

/// What the nodes of a store share in memory: the frames of pages, who owns which page, the locks, and
/// whether all nodes have stopped and not all of them are recovered yet.
#[derive(Drop)]
pub struct Shared {
    pub pool: Pool,
    pub owners: Owners,
    pub locks: Locks,
    pub reopening: bool,
}

/// A store that is open: its shape, its nodes, and what they share. The node of number n stands at
/// place n - 1.
///
/// It can be neither copied nor let go.
pub struct Store {
    pub shape: Shape,
    pub shared: Shared,
    pub nodes: [Node; NODES],
}

impl Store {
    /// The node of a number.
    pub fn node(&self, n: NodeId) -> &Node
        requires { IsPlace n.0 }
        ensures { result.now ≡ node_at self.now.nodes n.0 }
    {
        &self.nodes[place(n)]
    }
}
