//! The parts of a new store, each written whole: the logs, the pages and the supers of both devices.
ghost use Rattle.std.specs.Prelude.{◌≡◌, ◌⊎◌, ◌+◌, ◌≤◌, true, false, IsTrue, OnOk, OnErr, IfErr};
ghost use Rattle.sd_base.specs.Calls.{Keeps};
ghost use Rattle.sd_base.specs.Faults.{Caused, IsStopOf};
ghost use Rattle.sd_base.specs.Shape.{IsShape, first_page, disk_need, anchor_place, vault_need};
ghost use Rattle.store_format.specs.Device.{IsFreeForOne, IsAllCovered};
ghost use Rattle.store_format.specs.Stretch.{Fills, CutsFill, Lays};
ghost use Rattle.store_format.specs.Layout.{disk_text, head_text, born_text};
ghost use Rattle.store_format.specs.Formatted.{IsBornDisk, IsFormattedDisk, IsFormattedVault, FormatsDisk, FormatsVault};

use crate::block_writes::{fill, fill_one, lay_one};
use crate::places::{FIRST, SUPER};
use page_image::write_birth;
use sd_base::{Block, DevFault, Disk, NodeId, PageNo, Shape, cover, write_anchor, write_super};
use space_map::write_birth_map;

/// A block that was never written.
const ZEROS: Block = [0; 4096];

/// Writes the empty log of a node: its anchor, and a ring of zeros.
fn write_log<D: Disk>(disk: &mut D, s: &Shape, n: NodeId) -> Result<(), DevFault>
    requires shape { IsShape s.now }
    requires node { (1 ≤ n.0) × (n.0 ≤ s.now.nodes) }
    requires live { (D.state disk.old).live 1 ≡ true }
    requires size { first_page s.now ≤ (D.state disk.old).size }
    requires free { IsTrue D.told → IsFreeForOne (D.state disk.old).block }
    ensures keeps { Keeps 1 (D.state disk.old) (D.state disk.new) }
    ensures cause { IfErr result (λ fault. Caused fault (D.state disk.old) (D.state disk.new)) }
    ensures fault { IfErr result (IsStopOf 1) }
    ensures live { OnOk result ((D.state disk.new).live 1 ≡ true) }
    ensures filled { OnOk result (IsTrue D.told → Fills (anchor_place false s.now n.0) (anchor_place false s.now n.0 + 1 + s.now.ring) (disk_text s.now) (D.state disk.old).block (D.state disk.new).block) }
    ensures cut { OnErr result (IsTrue D.told → CutsFill (anchor_place false s.now n.0) (anchor_place false s.now n.0 + 1 + s.now.ring) (D.state disk.old).block (D.state disk.new).block) }
{
    let anchor = s.anchor_block(false, n);
    let mut block = ZEROS;
    write_anchor(n, false, 0, &mut block);
    fill_one(disk, anchor, &block)?;
    let ring = anchor.0 + 1;
    fill(disk, ring, ring + s.ring, &ZEROS)
}

/// Writes the empty logs of all nodes.
fn write_logs<D: Disk>(disk: &mut D, s: &Shape) -> Result<(), DevFault>
    requires shape { IsShape s.now }
    requires live { (D.state disk.old).live 1 ≡ true }
    requires size { first_page s.now ≤ (D.state disk.old).size }
    requires free { IsTrue D.told → IsFreeForOne (D.state disk.old).block }
    ensures keeps { Keeps 1 (D.state disk.old) (D.state disk.new) }
    ensures cause { IfErr result (λ fault. Caused fault (D.state disk.old) (D.state disk.new)) }
    ensures fault { IfErr result (IsStopOf 1) }
    ensures live { OnOk result ((D.state disk.new).live 1 ≡ true) }
    ensures filled { OnOk result (IsTrue D.told → Fills 1 (first_page s.now) (disk_text s.now) (D.state disk.old).block (D.state disk.new).block) }
    ensures cut { OnErr result (IsTrue D.told → CutsFill 1 (first_page s.now) (D.state disk.old).block (D.state disk.new).block) }
{
    for n in 1..s.nodes + 1 {
        write_log(disk, s, NodeId(n))?;
    }
    Ok(())
}

/// Writes the text of a page as it is born: the map pages come first.
fn write_page_birth(s: &Shape, x: PageNo, out: &mut Block)
    requires { IsShape s.now }
    ensures { out.new ≡ born_text s.now x.0 }
{
    if x.0 < s.maps {
        write_birth_map(x, s.birth, out);
    } else {
        write_birth(x, s.birth, out);
    }
}

/// Writes all pages as they are born.
fn write_pages<D: Disk>(disk: &mut D, s: &Shape) -> Result<(), DevFault>
    requires shape { IsShape s.now }
    requires live { (D.state disk.old).live 1 ≡ true }
    requires size { disk_need s.now ≤ (D.state disk.old).size }
    requires free { IsTrue D.told → IsFreeForOne (D.state disk.old).block }
    ensures keeps { Keeps 1 (D.state disk.old) (D.state disk.new) }
    ensures cause { IfErr result (λ fault. Caused fault (D.state disk.old) (D.state disk.new)) }
    ensures fault { IfErr result (IsStopOf 1) }
    ensures live { OnOk result ((D.state disk.new).live 1 ≡ true) }
    ensures filled { OnOk result (IsTrue D.told → Fills (first_page s.now) (disk_need s.now) (disk_text s.now) (D.state disk.old).block (D.state disk.new).block) }
    ensures cut { OnErr result (IsTrue D.told → CutsFill (first_page s.now) (disk_need s.now) (D.state disk.old).block (D.state disk.new).block) }
{
    let mut block = ZEROS;
    for x in 0..s.page_count() {
        let page = PageNo(x);
        write_page_birth(s, page, &mut block);
        fill_one(disk, s.page_block(page), &block)?;
    }
    Ok(())
}

/// Writes and covers all of the disk but its super, in rising order.
fn write_behind_super<D: Disk>(disk: &mut D, s: &Shape) -> Result<(), DevFault>
    requires shape { IsShape s.now }
    requires live { (D.state disk.old).live 1 ≡ true }
    requires size { disk_need s.now ≤ (D.state disk.old).size }
    requires quiet { IsTrue D.told → IsAllCovered (D.state disk.old).block }
    ensures keeps { Keeps 1 (D.state disk.old) (D.state disk.new) }
    ensures cause { IfErr result (λ fault. Caused fault (D.state disk.old) (D.state disk.new)) }
    ensures fault { IfErr result (IsStopOf 1) }
    ensures live { OnOk result ((D.state disk.new).live 1 ≡ true) }
    ensures laid { OnOk result (IsTrue D.told → Lays 1 (disk_need s.now) (disk_text s.now) (D.state disk.old).block (D.state disk.new).block) }
    ensures cut { OnErr result (IsTrue D.told → CutsFill 1 (disk_need s.now) (D.state disk.old).block (D.state disk.new).block) }
{
    write_logs(disk, s)?;
    write_pages(disk, s)?;
    cover(disk, FIRST)
}

/// Writes the disk of an empty store. Its super comes last, when all else is covered: so where a stop
/// leaves the super, it leaves the whole disk.
pub(crate) fn write_disk<D: Disk>(disk: &mut D, s: &Shape) -> Result<(), DevFault>
    requires shape { IsShape s.now }
    requires live { (D.state disk.old).live 1 ≡ true }
    requires size { disk_need s.now ≤ (D.state disk.old).size }
    requires quiet { IsTrue D.told → IsAllCovered (D.state disk.old).block }
    ensures keeps { Keeps 1 (D.state disk.old) (D.state disk.new) }
    ensures cause { IfErr result (λ fault. Caused fault (D.state disk.old) (D.state disk.new)) }
    ensures fault { IfErr result (IsStopOf 1) }
    ensures blocks { IsTrue D.told → FormatsDisk s.now (D.state disk.old).block (D.state disk.new).block }
    ensures formatted { OnOk result (IsTrue D.told → IsFormattedDisk s.now (D.state disk.new).block) }
    ensures cut { OnErr result (IsTrue D.told → ((D.state disk.new).block 0 ≡ (D.state disk.old).block 0) ⊎ IsBornDisk s.now (D.state disk.new).block) }
{
    write_behind_super(disk, s)?;
    let mut block = ZEROS;
    write_super(s, false, &mut block);
    lay_one(disk, SUPER, &block)
}

/// Writes the super of the vault and the anchors of all nodes.
fn write_head<V: Disk>(vault: &mut V, s: &Shape) -> Result<(), DevFault>
    requires shape { IsShape s.now }
    requires live { (V.state vault.old).live 1 ≡ true }
    requires size { vault_need s.now ≤ (V.state vault.old).size }
    requires free { IsTrue V.told → IsFreeForOne (V.state vault.old).block }
    ensures keeps { Keeps 1 (V.state vault.old) (V.state vault.new) }
    ensures cause { IfErr result (λ fault. Caused fault (V.state vault.old) (V.state vault.new)) }
    ensures fault { IfErr result (IsStopOf 1) }
    ensures live { OnOk result ((V.state vault.new).live 1 ≡ true) }
    ensures filled { OnOk result (IsTrue V.told → Fills 0 (s.now.nodes + 1) (head_text s.now) (V.state vault.old).block (V.state vault.new).block) }
    ensures cut { OnErr result (IsTrue V.told → CutsFill 0 (s.now.nodes + 1) (V.state vault.old).block (V.state vault.new).block) }
{
    let mut block = ZEROS;
    write_super(s, true, &mut block);
    fill_one(vault, SUPER, &block)?;
    for n in 1..s.nodes + 1 {
        let node = NodeId(n);
        write_anchor(node, true, 0, &mut block);
        fill_one(vault, s.anchor_block(true, node), &block)?;
    }
    Ok(())
}

/// Writes the vault of an empty store, but for the areas in which log blocks are kept: an anchor says
/// that none is.
pub(crate) fn write_vault<V: Disk>(vault: &mut V, s: &Shape) -> Result<(), DevFault>
    requires shape { IsShape s.now }
    requires live { (V.state vault.old).live 1 ≡ true }
    requires size { vault_need s.now ≤ (V.state vault.old).size }
    requires quiet { IsTrue V.told → IsAllCovered (V.state vault.old).block }
    ensures keeps { Keeps 1 (V.state vault.old) (V.state vault.new) }
    ensures cause { IfErr result (λ fault. Caused fault (V.state vault.old) (V.state vault.new)) }
    ensures fault { IfErr result (IsStopOf 1) }
    ensures blocks { IsTrue V.told → FormatsVault s.now (V.state vault.old).block (V.state vault.new).block }
    ensures formatted { OnOk result (IsTrue V.told → IsFormattedVault s.now (V.state vault.new).block) }
{
    write_head(vault, s)?;
    fill(vault, s.image_block(PageNo(0)).0, s.vault_need(), &ZEROS)?;
    cover(vault, FIRST)
}
