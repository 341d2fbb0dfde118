//! Reads, writes and barriers as calls that give up with a fault.

ghost use Rattle.std.specs.Prelude.{◌≡◌, true, false, IsTrue, IfErr, OnErr, OnOk};
ghost use Rattle.sd_base.specs.Disk.{IsPort, IsFreeFor};
ghost use Rattle.sd_base.specs.Calls.{Keeps, Narrows, NarrowsBut, NoNewWriter, NoNewWriterBut, KeepsForeign, KeepsForeignBut, Writes, CutsWrite, Covers, Settles};
ghost use Rattle.sd_base.specs.Faults.{Caused, IsStopOf, IsReadFault, StaysLive, OnStop, ReadsBlock};

use crate::device::{Block, BlockNo, Disk, NodeId, ReadAnswer, WriteAnswer};
use crate::fault::DevFault;

/// Reads a block through a port, or says why it wasn't read: the port stopped or failed, or the block
/// is lost.
pub fn read_block<D: Disk>(
    disk: &mut D,
    n: NodeId,
    at: BlockNo,
    out: &mut Block,
) -> Result<(), DevFault>
    requires port { IsPort n.0 }
    requires live { (D.state disk.old).live n.0 ≡ true }
    requires reach { (D.state disk.old).reach at.0 ≡ true }
    ensures keeps { Keeps n.0 (D.state disk.old) (D.state disk.new) }
    ensures cause { IfErr result (λ fault. Caused fault (D.state disk.old) (D.state disk.new)) }
    ensures fault { IfErr result (IsReadFault n.0 at.0) }
    ensures live { StaysLive result ((D.state disk.new).live n.0 ≡ true) }
    ensures stopped { IfErr result (λ fault. OnStop fault ((D.state disk.new).live n.0 ≡ false)) }
    ensures outcomes { IsTrue D.told → Narrows (D.state disk.old).block (D.state disk.new).block }
    ensures writers { IsTrue D.told → NoNewWriter (D.state disk.old).block (D.state disk.new).block }
    ensures foreign { IsTrue D.told → KeepsForeign n.0 (D.state disk.old).block (D.state disk.new).block }
    ensures blocks { IsTrue D.told → ReadsBlock result n.0 at.0 out.new (D.state disk.old).block (D.state disk.new).block }
{
    match disk.read(n, at, out) {
        ReadAnswer::Done => Ok(()),
        ReadAnswer::Lost => Err(DevFault::Lost(at)),
        ReadAnswer::Stopped => Err(DevFault::Stopped(n)),
        ReadAnswer::Failed => Err(DevFault::Failed(n)),
    }
}

/// Writes a block through a port, and doesn't cover it. It gives up only where the port stopped or
/// failed.
pub fn write_block<D: Disk>(
    disk: &mut D,
    n: NodeId,
    at: BlockNo,
    content: &Block,
) -> Result<(), DevFault>
    requires port { IsPort n.0 }
    requires live { (D.state disk.old).live n.0 ≡ true }
    requires reach { (D.state disk.old).reach at.0 ≡ true }
    requires free { IsTrue D.told → IsFreeFor n.0 ((D.state disk.old).block at.0) }
    ensures keeps { Keeps n.0 (D.state disk.old) (D.state disk.new) }
    ensures cause { IfErr result (λ fault. Caused fault (D.state disk.old) (D.state disk.new)) }
    ensures fault { IfErr result (IsStopOf n.0) }
    ensures live { OnOk result ((D.state disk.new).live n.0 ≡ true) }
    ensures stopped { OnErr result ((D.state disk.new).live n.0 ≡ false) }
    ensures outcomes { IsTrue D.told → NarrowsBut at.0 content.now (D.state disk.old).block (D.state disk.new).block }
    ensures writers { IsTrue D.told → NoNewWriterBut at.0 n.0 (D.state disk.old).block (D.state disk.new).block }
    ensures foreign { IsTrue D.told → KeepsForeignBut at.0 n.0 (D.state disk.old).block (D.state disk.new).block }
    ensures written { OnOk result (IsTrue D.told → Writes n.0 at.0 content.now (D.state disk.old).block (D.state disk.new).block) }
    ensures cut { OnErr result (IsTrue D.told → CutsWrite n.0 at.0 (D.state disk.old).block (D.state disk.new).block) }
{
    match disk.write(n, at, content) {
        WriteAnswer::Done => Ok(()),
        WriteAnswer::Stopped => Err(DevFault::Stopped(n)),
        WriteAnswer::Failed => Err(DevFault::Failed(n)),
    }
}

/// Covers all that a port has written. It gives up only where the port stopped or failed.
pub fn cover<D: Disk>(disk: &mut D, n: NodeId) -> Result<(), DevFault>
    requires port { IsPort n.0 }
    requires live { (D.state disk.old).live n.0 ≡ true }
    ensures keeps { Keeps n.0 (D.state disk.old) (D.state disk.new) }
    ensures cause { IfErr result (λ fault. Caused fault (D.state disk.old) (D.state disk.new)) }
    ensures fault { IfErr result (IsStopOf n.0) }
    ensures live { OnOk result ((D.state disk.new).live n.0 ≡ true) }
    ensures stopped { OnErr result ((D.state disk.new).live n.0 ≡ false) }
    ensures outcomes { IsTrue D.told → Narrows (D.state disk.old).block (D.state disk.new).block }
    ensures writers { IsTrue D.told → NoNewWriter (D.state disk.old).block (D.state disk.new).block }
    ensures foreign { IsTrue D.told → KeepsForeign n.0 (D.state disk.old).block (D.state disk.new).block }
    ensures covered { OnOk result (IsTrue D.told → Covers n.0 (D.state disk.old).block (D.state disk.new).block) }
    ensures cut { OnErr result (IsTrue D.told → Settles n.0 (D.state disk.old).block (D.state disk.new).block) }
{
    match disk.barrier(n) {
        WriteAnswer::Done => Ok(()),
        WriteAnswer::Stopped => Err(DevFault::Stopped(n)),
        WriteAnswer::Failed => Err(DevFault::Failed(n)),
    }
}
