//! Two blocks are written in order: what can be proved of such a client over any device.

ghost use Rattle.std.specs.Prelude.{◌≡◌, ◌≢◌, true, IsTrue};
ghost use Rattle.sd_base.specs.Disk.{IsPort, IsFreeFor};
ghost use Rattle.sd_base.specs.Calls.{Keeps, NarrowsBut, NoNewWriterBut, KeepsForeignBut, Writes};
ghost use Rattle.sd_base.specs.Answers.{WriteCause};
ghost use Rattle.store_trials.specs.Client.{IsInOrder, NarrowsButTwo, KeepsForeignButTwo, LeavesCovered, WritesBoth};

use sd_base::{Block, BlockNo, Disk, NodeId, WriteAnswer};

/// Writes a block, and then another one. It ends at the first call that isn't done.
///
/// The first block is covered before the second one is written: no stop leaves the second content
/// without the first one, and however the call ended, nothing that the port wrote is uncovered.
pub fn write_in_order<D: Disk>(
    disk: &mut D,
    n: NodeId,
    first: BlockNo,
    x: &Block,
    second: BlockNo,
    y: &Block,
) -> WriteAnswer
    requires port { IsPort n.0 }
    requires live { (D.state disk.old).live n.0 ≡ true }
    requires first_reach { (D.state disk.old).reach first.0 ≡ true }
    requires second_reach { (D.state disk.old).reach second.0 ≡ true }
    requires apart { first.0 ≢ second.0 }
    requires first_free { IsTrue D.told → IsFreeFor n.0 ((D.state disk.old).block first.0) }
    requires second_free { IsTrue D.told → IsFreeFor n.0 ((D.state disk.old).block second.0) }
    ensures keeps { Keeps n.0 (D.state disk.old) (D.state disk.new) }
    ensures cause { WriteCause result n.0 (D.state disk.old) (D.state disk.new) }
    ensures order { IsTrue D.told → IsInOrder first.0 x.now second.0 (D.state disk.old).block (D.state disk.new).block }
    ensures outcomes { IsTrue D.told → NarrowsButTwo first.0 x.now second.0 y.now (D.state disk.old).block (D.state disk.new).block }
    ensures foreign { IsTrue D.told → KeepsForeignButTwo first.0 second.0 n.0 (D.state disk.old).block (D.state disk.new).block }
    ensures covered { IsTrue D.told → LeavesCovered n.0 (D.state disk.old).block (D.state disk.new).block }
    ensures written { IsTrue D.told → result ≡ WriteAnswer.Done → WritesBoth first.0 x.now second.0 y.now (D.state disk.old).block (D.state disk.new).block }
{
    match write_through(disk, n, first, x) {
        WriteAnswer::Done => write_through(disk, n, second, y),
        answer => answer,
    }
}

/// Writes a block and covers it.
fn write_through<D: Disk>(disk: &mut D, n: NodeId, at: BlockNo, content: &Block) -> WriteAnswer
    requires port { IsPort n.0 }
    requires live { (D.state disk.old).live n.0 ≡ true }
    requires reach { (D.state disk.old).reach at.0 ≡ true }
    requires free { IsTrue D.told → IsFreeFor n.0 ((D.state disk.old).block at.0) }
    ensures keeps { Keeps n.0 (D.state disk.old) (D.state disk.new) }
    ensures cause { WriteCause result n.0 (D.state disk.old) (D.state disk.new) }
    ensures outcomes { IsTrue D.told → NarrowsBut at.0 content.now (D.state disk.old).block (D.state disk.new).block }
    ensures writers { IsTrue D.told → NoNewWriterBut at.0 n.0 (D.state disk.old).block (D.state disk.new).block }
    ensures foreign { IsTrue D.told → KeepsForeignBut at.0 n.0 (D.state disk.old).block (D.state disk.new).block }
    ensures covered { IsTrue D.told → LeavesCovered n.0 (D.state disk.old).block (D.state disk.new).block }
    ensures written { IsTrue D.told → result ≡ WriteAnswer.Done → Writes n.0 at.0 content.now (D.state disk.old).block (D.state disk.new).block }
{
    match disk.write(n, at, content) {
        WriteAnswer::Done => disk.barrier(n),
        answer => answer,
    }
}
