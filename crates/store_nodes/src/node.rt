//! The three states of a node: not in use, up with its cache and transactions, or down.

ghost use Rattle.std.specs.Prelude.{◌≡◌, ◌-◌, ◌<◌};
ghost use Rattle.store_nodes.specs.Known.{is_down};
ghost use Rattle.store_nodes.specs.Nodes.{IsPlace, any_up, is_up};

use node_cache::NodeCache;
use sd_base::NodeId;
use txn_core::Seats;

/// How many nodes a store may have.
pub const NODES: usize = 8;

/// What a node is doing.
pub enum Node {
    /// It isn't in use.
    Idle,
    /// It is in use, with its cache and its transactions.
    Up(NodeCache, Seats),
    /// It has stopped, and waits to be recovered.
    Down,
}

impl Node {
    /// Whether it is in use.
    pub fn is_up(&self) -> bool
        ensures { result ≡ is_up self.now }
    {
        match self {
            Node::Up(_cache, _seats) => true,
            Node::Idle | Node::Down => false,
        }
    }

    /// Whether it has stopped, and waits to be recovered.
    pub fn is_down(&self) -> bool
        ensures { result ≡ is_down self.now }
    {
        matches!(self, Node::Down)
    }
}

/// Where a node stands among the eight.
pub fn place(n: NodeId) -> usize
    requires { IsPlace n.0 }
    ensures is { result ≡ n.0 - 1 }
    ensures low { result < 8 }
{
    usize::from(n.0) - 1
}

/// Whether a node is in use.
pub(crate) fn any_up(nodes: &[Node; NODES]) -> bool
    ensures { result ≡ any_up nodes.now }
{
    nodes.iter().any(|node| node.is_up())
}
