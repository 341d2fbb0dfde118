//! The log of a node: which records it has, which of them are stable, and the space left.

ghost use Rattle.std.specs.Prelude.{◌≡◌, ◌+◌, ◌<◌};
ghost use Rattle.private_log.specs.Log.{IsLog, used, space};

use crate::block::BLOCK_RECORDS;
use sd_base::{Block, MAX_ANCHOR, NodeId, Shape};
use std::marker::Model;

/// The log of a node: records that are numbered from 0, of which those from `6 * start()` to `tail()`
/// are there.
///
/// Six records stand in a block, and the blocks take turns in the ring of the node. A block is written
/// where it fills or at `force`; until then its records are in memory. The format is in
/// docs/FORMATS.md.
#[derive(Drop)]
pub struct Log {
    pub(crate) shape: Shape,
    pub(crate) node: NodeId,
    pub(crate) start: u64,
    pub(crate) tail: u64,
    pub(crate) stable: u64,
    /// The block that the next record goes into, as far as it is filled. It is begun with its first
    /// record; before that it holds whatever it held.
    pub(crate) block: Block,
}

impl Model for Log {
    ghost use Rattle.private_log.specs.Log.{LogState, IsLog};

    ghost Value = { LogState };

    ghost view = { λ l. record { shape = l.shape; node = l.node; start = l.start; tail = l.tail; stable = l.stable; block = l.block } };

    ghost invariant = { λ l. IsLog (record { shape = l.shape; node = l.node; start = l.start; tail = l.tail; stable = l.stable; block = l.block }) };
}

impl Log {
    /// The shape of the store that the log belongs to.
    pub fn shape(&self) -> Shape
        ensures shape { result ≡ self.now.shape }
        ensures log { IsLog self.now }
    {
        self.shape
    }

    /// The node whose log it is.
    pub fn node(&self) -> NodeId
        ensures node { result ≡ self.now.node }
        ensures log { IsLog self.now }
    {
        self.node
    }

    /// The number of the log block that the log starts with.
    pub fn start(&self) -> u64
        ensures start { result ≡ self.now.start }
        ensures log { IsLog self.now }
    {
        self.start
    }

    /// The number of the next record.
    pub fn tail(&self) -> u64
        ensures tail { result ≡ self.now.tail }
        ensures log { IsLog self.now }
    {
        self.tail
    }

    /// The records below this number are stable: no stop takes them.
    pub fn stable(&self) -> u64
        ensures stable { result ≡ self.now.stable }
        ensures log { IsLog self.now }
    {
        self.stable
    }

    /// How many records there are.
    pub fn used(&self) -> u64
        ensures used { result ≡ used self.now }
        ensures log { IsLog self.now }
    {
        self.tail - BLOCK_RECORDS * self.start
    }

    /// How many records may be appended before the start has to move.
    pub fn space(&self) -> u64
        ensures space { result ≡ space self.now }
        ensures log { IsLog self.now }
    {
        let ring = BLOCK_RECORDS * u64::from(self.shape.ring);
        let numbers = BLOCK_RECORDS * MAX_ANCHOR;
        (ring - self.used()).min(numbers - self.tail)
    }
}
