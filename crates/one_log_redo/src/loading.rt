//! A page is read from its block into a frame, if the block is an image of it.

ghost use Rattle.std.specs.Prelude.{◌≡◌, ◌<◌, ℕ, true, false, Some, IsTrue, IfErr, OnOk};
ghost use Rattle.sd_base.specs.Disk.{IsPort};
ghost use Rattle.sd_base.specs.Calls.{Keeps, Narrows, NoNewWriter, KeepsForeign};
ghost use Rattle.sd_base.specs.Faults.{Caused, IsStopOf, OnStop, StaysLive};
ghost use Rattle.sd_base.specs.Shape.{IsShape, page_count};
ghost use Rattle.frame_pool.specs.Frames.{IsOut};
ghost use Rattle.state_ids.specs.PageImage.{PageImage, IsText, page_of};
ghost use Rattle.state_ids.specs.Held.{Shows, KeepsFrames};
ghost use Rattle.state_ids.specs.Blocks.{ShowsPage, page_place, IsOfKind, HoldsPage, IsPageFault, IsToldOfPage, HasSettled};

use frame_pool::{Frame, Pool};
use page_image::parse;
use sd_base::{Block, DevFault, Disk, NodeId, PageNo, Shape, read_block};
use space_map::parse_map;

/// Whether a block is an image of the page `x`.
fn is_image(block: &Block, s: &Shape, x: PageNo) -> bool
    ensures image { IsTrue result → (image : PageImage) × IsText image block.now × (page_of image ≡ x) × IsOfKind s.now image }
    ensures only { (image : PageImage) → IsText image block.now → page_of image ≡ x → IsOfKind s.now image → IsTrue result }
{
    if x.0 < s.maps {
        parse_map(block, x).is_some()
    } else {
        parse(block, x).is_some()
    }
}

/// Reads the block of a page, which is an image of the page then.
fn read_image<D: Disk>(
    disk: &mut D,
    port: NodeId,
    s: &Shape,
    x: PageNo,
    out: &mut Block,
) -> Result<(), DevFault>
    requires shape { IsShape s.now }
    requires page { x.0 < page_count s.now }
    requires port { IsPort port.0 }
    requires live { (D.state disk.old).live port.0 ≡ true }
    requires reach { (D.state disk.old).reach (page_place s.now x) ≡ true }
    ensures keeps { Keeps port.0 (D.state disk.old) (D.state disk.new) }
    ensures cause { IfErr result (λ fault. Caused fault (D.state disk.old) (D.state disk.new)) }
    ensures fault { IfErr result (IsPageFault s.now x port.0) }
    ensures told { IsTrue D.told → IfErr result (IsToldOfPage s.now x ((D.state disk.old).block (page_place s.now x)).current) }
    ensures live { StaysLive result ((D.state disk.new).live port.0 ≡ true) }
    ensures stopped { IfErr result (λ fault. OnStop fault ((D.state disk.new).live port.0 ≡ false)) }
    ensures outcomes { IsTrue D.told → Narrows (D.state disk.old).block (D.state disk.new).block }
    ensures writers { IsTrue D.told → NoNewWriter (D.state disk.old).block (D.state disk.new).block }
    ensures foreign { IsTrue D.told → KeepsForeign port.0 (D.state disk.old).block (D.state disk.new).block }
    ensures settled { IfErr result (λ fault. OnStop fault (IsTrue D.told → HasSettled port.0 (D.state disk.new).block)) }
    ensures blocks { IsTrue D.told → StaysLive result ((D.state disk.new).block ≡ (D.state disk.old).block) }
    ensures image { OnOk result ((image : PageImage) × IsText image out.new × (page_of image ≡ x) × IsOfKind s.now image) }
    ensures content { OnOk result (IsTrue D.told → ((D.state disk.old).block (page_place s.now x)).current ≡ Some out.new) }
    ensures there { IsTrue D.told → (image : PageImage) → HoldsPage s.now x image ((D.state disk.old).block (page_place s.now x)).current → IfErr result (IsStopOf port.0) }
{
    let at = s.page_block(x);
    read_block(disk, port, at, out)?;
    if !is_image(out, s, x) {
        return Err(DevFault::Damaged(at));
    }
    Ok(())
}

/// Reads a page into a frame, as its block has it, whatever life of the page that is of.
///
/// `Damaged` comes where the block is no image of the page, and `Lost` where it is lost. Of the blocks
/// of the device none is changed, unless the port stops.
pub fn read_page<D: Disk>(
    disk: &mut D,
    port: NodeId,
    s: &Shape,
    pool: &mut Pool,
    f: &Frame,
    x: PageNo,
) -> Result<(), DevFault>
    requires shape { IsShape s.now }
    requires page { x.0 < page_count s.now }
    requires out { IsOut pool.old f.now }
    requires port { IsPort port.0 }
    requires live { (D.state disk.old).live port.0 ≡ true }
    requires reach { (D.state disk.old).reach (page_place s.now x) ≡ true }
    ensures keeps { Keeps port.0 (D.state disk.old) (D.state disk.new) }
    ensures cause { IfErr result (λ fault. Caused fault (D.state disk.old) (D.state disk.new)) }
    ensures fault { IfErr result (IsPageFault s.now x port.0) }
    ensures told { IsTrue D.told → IfErr result (IsToldOfPage s.now x ((D.state disk.old).block (page_place s.now x)).current) }
    ensures live { StaysLive result ((D.state disk.new).live port.0 ≡ true) }
    ensures stopped { IfErr result (λ fault. OnStop fault ((D.state disk.new).live port.0 ≡ false)) }
    ensures outcomes { IsTrue D.told → Narrows (D.state disk.old).block (D.state disk.new).block }
    ensures writers { IsTrue D.told → NoNewWriter (D.state disk.old).block (D.state disk.new).block }
    ensures foreign { IsTrue D.told → KeepsForeign port.0 (D.state disk.old).block (D.state disk.new).block }
    ensures settled { IfErr result (λ fault. OnStop fault (IsTrue D.told → HasSettled port.0 (D.state disk.new).block)) }
    ensures blocks { IsTrue D.told → StaysLive result ((D.state disk.new).block ≡ (D.state disk.old).block) }
    ensures frames { KeepsFrames f.now pool.old pool.new }
    ensures out { IsOut pool.new f.now }
    ensures page { OnOk result (ShowsPage s.now x pool.new f.now) }
    ensures there { IsTrue D.told → (image : PageImage) → HoldsPage s.now x image ((D.state disk.old).block (page_place s.now x)).current → IfErr result (IsStopOf port.0) }
    ensures found { OnOk result (IsTrue D.told → (image : PageImage) × HoldsPage s.now x image ((D.state disk.old).block (page_place s.now x)).current) }
    ensures image { OnOk result (IsTrue D.told → (image : PageImage) → HoldsPage s.now x image ((D.state disk.old).block (page_place s.now x)).current → Shows pool.new f.now image) }
{
    read_image(disk, port, s, x, pool.bytes_mut(f))?;
    Ok(())
}
