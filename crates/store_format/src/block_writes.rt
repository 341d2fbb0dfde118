//! One block, or a stretch of blocks, is written through port 1.
ghost use Rattle.std.specs.Prelude.{◌≡◌, ◌+◌, ◌≤◌, ◌<◌, true, IsTrue, OnOk, OnErr, IfErr};
ghost use Rattle.sd_base.specs.Calls.{Keeps, NarrowsBut};
ghost use Rattle.sd_base.specs.Faults.{Caused, IsStopOf};
ghost use Rattle.store_format.specs.Device.{IsFreeForOne, IsAllCovered};
ghost use Rattle.store_format.specs.Stretch.{Fills, CutsFill, Lays};

use crate::places::FIRST;
use sd_base::{Block, BlockNo, DevFault, Disk, cover, write_block};

/// Writes one block, and doesn't cover it.
pub(crate) fn fill_one<D: Disk>(disk: &mut D, at: BlockNo, content: &Block) -> Result<(), DevFault>
    requires live { (D.state disk.old).live 1 ≡ true }
    requires size { at.0 < (D.state disk.old).size }
    requires free { IsTrue D.told → IsFreeForOne (D.state disk.old).block }
    ensures keeps { Keeps 1 (D.state disk.old) (D.state disk.new) }
    ensures cause { IfErr result (λ fault. Caused fault (D.state disk.old) (D.state disk.new)) }
    ensures fault { IfErr result (IsStopOf 1) }
    ensures live { OnOk result ((D.state disk.new).live 1 ≡ true) }
    ensures outcomes { IsTrue D.told → NarrowsBut at.0 content.now (D.state disk.old).block (D.state disk.new).block }
    ensures filled { OnOk result (IsTrue D.told → Fills at.0 (at.0 + 1) (λ k. content.now) (D.state disk.old).block (D.state disk.new).block) }
    ensures cut { OnErr result (IsTrue D.told → CutsFill at.0 (at.0 + 1) (D.state disk.old).block (D.state disk.new).block) }
{
    write_block(disk, FIRST, at, content)
}

/// Writes the same block to each place from `first` up to `end`, and covers none.
pub(crate) fn fill<D: Disk>(
    disk: &mut D,
    first: u32,
    end: u32,
    content: &Block,
) -> Result<(), DevFault>
    requires live { (D.state disk.old).live 1 ≡ true }
    requires order { first ≤ end }
    requires size { end ≤ (D.state disk.old).size }
    requires free { IsTrue D.told → IsFreeForOne (D.state disk.old).block }
    ensures keeps { Keeps 1 (D.state disk.old) (D.state disk.new) }
    ensures cause { IfErr result (λ fault. Caused fault (D.state disk.old) (D.state disk.new)) }
    ensures fault { IfErr result (IsStopOf 1) }
    ensures live { OnOk result ((D.state disk.new).live 1 ≡ true) }
    ensures filled { OnOk result (IsTrue D.told → Fills first end (λ k. content.now) (D.state disk.old).block (D.state disk.new).block) }
    ensures cut { OnErr result (IsTrue D.told → CutsFill first end (D.state disk.old).block (D.state disk.new).block) }
{
    for at in first..end {
        fill_one(disk, BlockNo(at), content)?;
    }
    Ok(())
}

/// Writes one block and covers it, on a device that has no uncovered write.
pub(crate) fn lay_one<D: Disk>(disk: &mut D, at: BlockNo, content: &Block) -> Result<(), DevFault>
    requires live { (D.state disk.old).live 1 ≡ true }
    requires size { at.0 < (D.state disk.old).size }
    requires quiet { IsTrue D.told → IsAllCovered (D.state disk.old).block }
    ensures keeps { Keeps 1 (D.state disk.old) (D.state disk.new) }
    ensures cause { IfErr result (λ fault. Caused fault (D.state disk.old) (D.state disk.new)) }
    ensures fault { IfErr result (IsStopOf 1) }
    ensures live { OnOk result ((D.state disk.new).live 1 ≡ true) }
    ensures outcomes { IsTrue D.told → NarrowsBut at.0 content.now (D.state disk.old).block (D.state disk.new).block }
    ensures laid { OnOk result (IsTrue D.told → Lays at.0 (at.0 + 1) (λ k. content.now) (D.state disk.old).block (D.state disk.new).block) }
    ensures cut { OnErr result (IsTrue D.told → CutsFill at.0 (at.0 + 1) (D.state disk.old).block (D.state disk.new).block) }
{
    fill_one(disk, at, content)?;
    cover(disk, FIRST)
}
