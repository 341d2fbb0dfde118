//! Why a store can't be written to two devices: one stands there already, or a device is too small.
ghost use Rattle.std.specs.Prelude.{◌≡◌, true, IsTrue, OnOk, IfErr, IfOk};
ghost use Rattle.sd_base.specs.Calls.{Keeps, Narrows};
ghost use Rattle.sd_base.specs.Faults.{Caused, IsStopOf};
ghost use Rattle.sd_base.specs.Shape.{IsShape};
ghost use Rattle.store_format.specs.Device.{IsAllCovered};
ghost use Rattle.store_format.specs.Refusal.{FindsSuper, OnFound, FitsSizes, IsRefusal, HasSuper};

use crate::places::{FIRST, SUPER};
use crate::reply::fault_reply;
use script_text::Reply;
use sd_base::{DevFault, Disk, Shape, parse_super, read_block};

/// Whether block 0 is a disk super. A device without blocks has none, and a lost block is none.
fn find_super<D: Disk>(disk: &mut D) -> Result<bool, DevFault>
    requires live { (D.state disk.old).live 1 ≡ true }
    ensures keeps { Keeps 1 (D.state disk.old) (D.state disk.new) }
    ensures cause { IfErr result (λ fault. Caused fault (D.state disk.old) (D.state disk.new)) }
    ensures fault { IfErr result (IsStopOf 1) }
    ensures live { OnOk result ((D.state disk.new).live 1 ≡ true) }
    ensures outcomes { IsTrue D.told → Narrows (D.state disk.old).block (D.state disk.new).block }
    ensures writers { IsTrue D.told → IsAllCovered (D.state disk.old).block → IsAllCovered (D.state disk.new).block }
    ensures found { IfOk result (λ found. IsTrue D.told → FindsSuper found (D.state disk.new)) }
{
    if disk.blocks() == 0 {
        return Ok(false);
    }
    let mut block = [0; 4096];
    match read_block(disk, FIRST, SUPER, &mut block) {
        Ok(()) => Ok(parse_super(&block, false).is_some()),
        Err(DevFault::Lost(_)) => Ok(false),
        Err(fault) => Err(fault),
    }
}

/// Why a store can't be written to the two devices: one stands on the disk already, or a device is too
/// small for it, the disk first.
pub(crate) fn refuse<D: Disk, V: Disk>(disk: &mut D, vault: &V, s: &Shape) -> Result<(), Reply>
    requires shape { IsShape s.now }
    requires live { (D.state disk.old).live 1 ≡ true }
    ensures keeps { Keeps 1 (D.state disk.old) (D.state disk.new) }
    ensures live { OnOk result ((D.state disk.new).live 1 ≡ true) }
    ensures outcomes { IsTrue D.told → Narrows (D.state disk.old).block (D.state disk.new).block }
    ensures writers { IsTrue D.told → IsAllCovered (D.state disk.old).block → IsAllCovered (D.state disk.new).block }
    ensures cause { IfErr result (λ reply. IsRefusal reply (D.state disk.old) (D.state disk.new)) }
    ensures sizes { FitsSizes s.now result (D.state disk.old).size (V.state vault.now).size }
    ensures found { IsTrue D.told → OnFound result (HasSuper (D.state disk.new)) (¬ (HasSuper (D.state disk.new))) }
{
    match find_super(disk) {
        Ok(true) => return Err(Reply::Formatted),
        Ok(false) => {}
        Err(fault) => return Err(fault_reply(fault)),
    }
    let need = s.disk_need();
    let have = disk.blocks();
    if u64::from(have) < need {
        return Err(Reply::SmallDisk(need, have));
    }
    let need = u64::from(s.vault_need());
    let have = vault.blocks();
    if u64::from(have) < need {
        return Err(Reply::SmallVault(need, have));
    }
    Ok(())
}
