//! The two halves of a format: a test whether a store may be written, and the writing.
ghost use Rattle.std.specs.Prelude.{◌≡◌, ◌⊎◌, ◌≤◌, true, false, IsTrue, OnOk, OnErr, IfErr};
ghost use Rattle.sd_base.specs.Calls.{Keeps};
ghost use Rattle.sd_base.specs.Shape.{IsShape, disk_need, vault_need};
ghost use Rattle.store_format.specs.Device.{IsIdle, IsAllCovered, TakesOver, ComesToRest};
ghost use Rattle.store_format.specs.Refusal.{IsRefusal, FitsSizes, OnFound, HasSuper, MayHaveSuper, MustHaveSuper, IsStopAt};
ghost use Rattle.store_format.specs.Formatted.{IsBornDisk, IsFormattedDisk, IsFormattedVault, FormatsDisk, FormatsVault};

use crate::places::FIRST;
use crate::ports::stop_all;
use crate::refusal::refuse;
use crate::reply::fault_reply;
use crate::writing::{write_disk, write_vault};
use script_text::Reply;
use sd_base::{Disk, Shape};

/// Whether a store may be written to the two devices, which no node uses. It stops all ports. Then it
/// looks for a store on the disk, and tests the sizes, the disk's first. Port 1 of both devices may be
/// used afterwards exactly where the answer is `Ok`.
pub fn may_format<D: Disk, V: Disk>(disk: &mut D, vault: &mut V, s: &Shape) -> Result<(), Reply>
    requires { IsShape s.now }
    ensures disk { TakesOver (D.state disk.old) (D.state disk.new) }
    ensures vault { TakesOver (V.state vault.old) (V.state vault.new) }
    ensures disk_blocks { IsTrue D.told → ComesToRest (D.state disk.old).block (D.state disk.new).block }
    ensures vault_blocks { IsTrue V.told → ComesToRest (V.state vault.old).block (V.state vault.new).block }
    ensures live { OnOk result (((D.state disk.new).live 1 ≡ true) × ((V.state vault.new).live 1 ≡ true)) }
    ensures stopped { OnErr result (IsIdle (D.state disk.new) × IsIdle (V.state vault.new)) }
    ensures cause { IfErr result (λ reply. IsRefusal reply (D.state disk.old) (D.state disk.new)) }
    ensures sizes { FitsSizes s.now result (D.state disk.old).size (V.state vault.old).size }
    ensures found { IsTrue D.told → OnFound result (HasSuper (D.state disk.new)) (¬ (HasSuper (D.state disk.new))) }
    ensures before { IsTrue D.told → OnFound result (MayHaveSuper (D.state disk.old)) (¬ (MustHaveSuper (D.state disk.old))) }
{
    stop_all(disk);
    stop_all(vault);
    disk.start(FIRST);
    vault.start(FIRST);
    match refuse(disk, vault, s) {
        Ok(()) => Ok(()),
        Err(reply) => {
            disk.stop(FIRST, 0);
            vault.stop(FIRST, 0);
            Err(reply)
        }
    }
}

/// Writes an empty store of this shape through port 1 of both devices: first the vault, then the disk
/// behind its super, and the super last, each covered before the next is begun. Then it stops the port
/// on both.
///
/// It gives up only where the port stops or fails. The disk's super is new then only if all else of the
/// store stands, whatever a stop leaves.
pub fn write_store<D: Disk, V: Disk>(disk: &mut D, vault: &mut V, s: &Shape) -> Result<(), Reply>
    requires shape { IsShape s.now }
    requires disk_live { (D.state disk.old).live 1 ≡ true }
    requires vault_live { (V.state vault.old).live 1 ≡ true }
    requires disk_size { disk_need s.now ≤ (D.state disk.old).size }
    requires vault_size { vault_need s.now ≤ (V.state vault.old).size }
    requires disk_quiet { IsTrue D.told → IsAllCovered (D.state disk.old).block }
    requires vault_quiet { IsTrue V.told → IsAllCovered (V.state vault.old).block }
    ensures disk { Keeps 1 (D.state disk.old) (D.state disk.new) }
    ensures vault { Keeps 1 (V.state vault.old) (V.state vault.new) }
    ensures disk_stopped { (D.state disk.new).live 1 ≡ false }
    ensures vault_stopped { (V.state vault.new).live 1 ≡ false }
    ensures cause { IfErr result (λ reply. IsStopAt reply (D.state disk.old) (D.state disk.new) ⊎ IsStopAt reply (V.state vault.old) (V.state vault.new)) }
    ensures disk_blocks { IsTrue D.told → FormatsDisk s.now (D.state disk.old).block (D.state disk.new).block }
    ensures vault_blocks { IsTrue V.told → FormatsVault s.now (V.state vault.old).block (V.state vault.new).block }
    ensures disk_done { OnOk result (IsTrue D.told → IsFormattedDisk s.now (D.state disk.new).block) }
    ensures vault_done { OnOk result (IsTrue V.told → IsFormattedVault s.now (V.state vault.new).block) }
    ensures super_behind_disk { OnErr result (IsTrue D.told → ((D.state disk.new).block 0 ≡ (D.state disk.old).block 0) ⊎ IsBornDisk s.now (D.state disk.new).block) }
    ensures super_behind_vault { OnErr result (IsTrue D.told → IsTrue V.told → ((D.state disk.new).block 0 ≡ (D.state disk.old).block 0) ⊎ IsFormattedVault s.now (V.state vault.new).block) }
{
    let written = write_devices(disk, vault, s);
    disk.stop(FIRST, 0);
    vault.stop(FIRST, 0);
    written
}

/// Writes the vault, and then the disk.
fn write_devices<D: Disk, V: Disk>(disk: &mut D, vault: &mut V, s: &Shape) -> Result<(), Reply>
    requires shape { IsShape s.now }
    requires disk_live { (D.state disk.old).live 1 ≡ true }
    requires vault_live { (V.state vault.old).live 1 ≡ true }
    requires disk_size { disk_need s.now ≤ (D.state disk.old).size }
    requires vault_size { vault_need s.now ≤ (V.state vault.old).size }
    requires disk_quiet { IsTrue D.told → IsAllCovered (D.state disk.old).block }
    requires vault_quiet { IsTrue V.told → IsAllCovered (V.state vault.old).block }
    ensures disk { Keeps 1 (D.state disk.old) (D.state disk.new) }
    ensures vault { Keeps 1 (V.state vault.old) (V.state vault.new) }
    ensures cause { IfErr result (λ reply. IsStopAt reply (D.state disk.old) (D.state disk.new) ⊎ IsStopAt reply (V.state vault.old) (V.state vault.new)) }
    ensures disk_blocks { IsTrue D.told → FormatsDisk s.now (D.state disk.old).block (D.state disk.new).block }
    ensures vault_blocks { IsTrue V.told → FormatsVault s.now (V.state vault.old).block (V.state vault.new).block }
    ensures disk_done { OnOk result (IsTrue D.told → IsFormattedDisk s.now (D.state disk.new).block) }
    ensures vault_done { OnOk result (IsTrue V.told → IsFormattedVault s.now (V.state vault.new).block) }
    ensures super_behind_disk { OnErr result (IsTrue D.told → ((D.state disk.new).block 0 ≡ (D.state disk.old).block 0) ⊎ IsBornDisk s.now (D.state disk.new).block) }
    ensures super_behind_vault { OnErr result (IsTrue D.told → IsTrue V.told → ((D.state disk.new).block 0 ≡ (D.state disk.old).block 0) ⊎ IsFormattedVault s.now (V.state vault.new).block) }
{
    if let Err(fault) = write_vault(vault, s) {
        return Err(fault_reply(fault));
    }
    match write_disk(disk, s) {
        Ok(()) => Ok(()),
        Err(fault) => Err(fault_reply(fault)),
    }
}
