//! What the store takes for a device: blocks, and a port for each node.

ghost use Rattle.std.specs.Prelude.{◌≡◌, ◌<◌, true, false, None, ℕ, Bool, IsTrue};
ghost use Rattle.sd_base.specs.Disk.{DiskState, IsLawful, IsFreeFor, IsPort};
ghost use Rattle.sd_base.specs.Calls.{Keeps, Narrows, NarrowsBut, NoNewWriter, NoNewWriterBut, KeepsForeign, KeepsForeignBut, Writes, CutsWrite, Covers, Settles, CountsStay, IsOrdered, Loses};
ghost use Rattle.sd_base.specs.Answers.{ReadCause, WriteCause, Reads, OnWrite};

/// What a block holds.
pub type Block = [u8; 4096];

/// The number of a node, from 1 to 16, and of its port at each device.
#[derive(Clone, Copy, Debug, PartialEq, Eq, PartialOrd, Ord)]
pub struct NodeId(pub u8);

/// The number of a block, from 0.
#[derive(Clone, Copy, Debug, PartialEq, Eq, PartialOrd, Ord)]
pub struct BlockNo(pub u32);

/// How a read ended.
#[derive(Clone, Copy, Debug, PartialEq, Eq)]
pub enum ReadAnswer {
    /// The content was read.
    Done,
    /// The block is lost.
    Lost,
    /// The port was stopped.
    Stopped,
    /// The port failed.
    Failed,
}

/// How a write or a barrier ended.
#[derive(Clone, Copy, Debug, PartialEq, Eq)]
pub enum WriteAnswer {
    /// All of it was done.
    Done,
    /// The port was stopped before the call, within it or after it.
    Stopped,
    /// The port failed.
    Failed,
}

/// A device of blocks with sixteen ports, one for each node.
///
/// A write through a port is current at once, and uncovered until a barrier of that port covers it.
/// Where the port stops, each block that it had not covered holds what was written last or
/// something that the block held before, and nobody can say which.
pub trait Disk {
    /// Whether these devices tell what their blocks are. Clauses on blocks hold where they do.
    ghost told: { Bool };

    /// What the device means.
    ghost state: { Self → DiskState };

    /// The number of blocks.
    fn blocks(&self) -> u32
        ensures { result ≡ (state self.now).size };

    /// Whether the port may be used.
    fn is_live(&self, n: NodeId) -> bool
        requires { IsPort n.0 }
        ensures { result ≡ (state self.now).live n.0 };

    /// Reads a block. After `Stopped` and `Failed` the port isn't live.
    fn read(&mut self, n: NodeId, at: BlockNo, out: &mut Block) -> ReadAnswer
        requires port { IsPort n.0 }
        requires live { (state self.old).live n.0 ≡ true }
        requires reach { (state self.old).reach at.0 ≡ true }
        ensures keeps { Keeps n.0 (state self.old) (state self.new) }
        ensures cause { ReadCause result n.0 (state self.old) (state self.new) }
        ensures outcomes { IsTrue told → Narrows (state self.old).block (state self.new).block }
        ensures writers { IsTrue told → NoNewWriter (state self.old).block (state self.new).block }
        ensures foreign { IsTrue told → KeepsForeign n.0 (state self.old).block (state self.new).block }
        ensures blocks { IsTrue told → Reads result n.0 at.0 out.new (state self.old).block (state self.new).block };

    /// Writes a block. After `Stopped` and `Failed` the port isn't live.
    fn write(&mut self, n: NodeId, at: BlockNo, content: &Block) -> WriteAnswer
        requires port { IsPort n.0 }
        requires live { (state self.old).live n.0 ≡ true }
        requires reach { (state self.old).reach at.0 ≡ true }
        requires free { IsTrue told → IsFreeFor n.0 ((state self.old).block at.0) }
        ensures keeps { Keeps n.0 (state self.old) (state self.new) }
        ensures cause { WriteCause result n.0 (state self.old) (state self.new) }
        ensures outcomes { IsTrue told → NarrowsBut at.0 content.now (state self.old).block (state self.new).block }
        ensures writers { IsTrue told → NoNewWriterBut at.0 n.0 (state self.old).block (state self.new).block }
        ensures foreign { IsTrue told → KeepsForeignBut at.0 n.0 (state self.old).block (state self.new).block }
        ensures blocks { IsTrue told → OnWrite result
            (Writes n.0 at.0 content.now (state self.old).block (state self.new).block)
            (CutsWrite n.0 at.0 (state self.old).block (state self.new).block) };

    /// Covers all that the port has written. After `Stopped` and `Failed` the port isn't live.
    fn barrier(&mut self, n: NodeId) -> WriteAnswer
        requires port { IsPort n.0 }
        requires live { (state self.old).live n.0 ≡ true }
        ensures keeps { Keeps n.0 (state self.old) (state self.new) }
        ensures cause { WriteCause result n.0 (state self.old) (state self.new) }
        ensures outcomes { IsTrue told → Narrows (state self.old).block (state self.new).block }
        ensures writers { IsTrue told → NoNewWriter (state self.old).block (state self.new).block }
        ensures foreign { IsTrue told → KeepsForeign n.0 (state self.old).block (state self.new).block }
        ensures blocks { IsTrue told → OnWrite result
            (Covers n.0 (state self.old).block (state self.new).block)
            (Settles n.0 (state self.old).block (state self.new).block) };

    /// Stops a port, live or not. `picks` is advice on what its uncovered blocks are to hold.
    fn stop(&mut self, n: NodeId, picks: u64)
        requires { IsPort n.0 }
        ensures keeps { Keeps n.0 (state self.old) (state self.new) }
        ensures counts { CountsStay n.0 (state self.old) (state self.new) }
        ensures live { (state self.new).live n.0 ≡ false }
        ensures outcomes { IsTrue told → Narrows (state self.old).block (state self.new).block }
        ensures writers { IsTrue told → NoNewWriter (state self.old).block (state self.new).block }
        ensures foreign { IsTrue told → KeepsForeign n.0 (state self.old).block (state self.new).block }
        ensures blocks { IsTrue told → Settles n.0 (state self.old).block (state self.new).block };

    /// Makes a port live.
    fn start(&mut self, n: NodeId)
        requires { IsPort n.0 }
        ensures keeps { Keeps n.0 (state self.old) (state self.new) }
        ensures counts { CountsStay n.0 (state self.old) (state self.new) }
        ensures live { (state self.new).live n.0 ≡ true }
        ensures blocks { IsTrue told → (state self.new).block ≡ (state self.old).block };

    /// Loses a covered block, as a medium does.
    fn lose(&mut self, at: BlockNo)
        requires reach { (state self.old).reach at.0 ≡ true }
        requires covered { IsTrue told → ((state self.old).block at.0).writer ≡ None }
        ensures ports { IsOrdered (state self.old) (state self.new) }
        ensures blocks { IsTrue told → Loses at.0 (state self.old).block (state self.new).block };

    /// Each block below the number of blocks is in reach.
    ghost reaches: { (d : Self) (k : ℕ) → k < (state d).size → (state d).reach k ≡ true };

    /// What holds of each block.
    ghost lawful: { (d : Self) (k : ℕ) → IsTrue told → IsLawful (state d).block k };
}
