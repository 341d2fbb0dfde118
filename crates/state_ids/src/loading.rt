//! A page is read from its block into a frame, if the block is an image of it.

ghost use Rattle.std.specs.Prelude.{◌≡◌, ◌↔◌, ◌<◌, ◌≤◌, ℕ, true, false, Some, IsTrue, IfOk, IfErr, OnOk, MatchResult, length};
ghost use Rattle.sd_base.specs.Disk.{IsPort};
ghost use Rattle.sd_base.specs.Calls.{Keeps, Narrows, NoNewWriter, KeepsForeign};
ghost use Rattle.sd_base.specs.Faults.{Caused, IsStopOf, OnStop, StaysLive};
ghost use Rattle.sd_base.specs.Shape.{IsShape, page_count};
ghost use Rattle.frame_pool.specs.Frames.{IsOut};
ghost use Rattle.state_ids.specs.PageImage.{PageImage, IsText, page_of, in_life};
ghost use Rattle.state_ids.specs.Held.{Shows, KeepsFrames};
ghost use Rattle.state_ids.specs.Blocks.{ShowsPage, page_place, IsOfKind, HoldsPage, IsPageFault, IsToldOfPage, FitsPage, UnlessStopped, HasSettled};

use crate::held::{Clean, Held};
use frame_pool::{Frame, Pool};
use page_image::parse;
use page_owner::Ticket;
use sd_base::{Block, DevFault, Disk, NodeId, PageNo, Shape, read_block};
use space_map::{MapEntry, life, parse_map};

/// Whether a block is an image of the page `x`.
fn is_image(block: &Block, s: &Shape, x: PageNo) -> bool
    ensures image { IsTrue result → (image : PageImage) × IsText image block.now × (page_of image ≡ x) × IsOfKind s.now image }
    ensures only { (image : PageImage) → IsText image block.now → page_of image ≡ x → IsOfKind s.now image → IsTrue result }
{
    if x.0 < s.maps {
        parse_map(block, x).is_some()
    } else {
        parse(block, x).is_some()
    }
}

/// Makes of a frame the page that it stands for under its map entry, where that is known.
fn put_in_life(pool: &mut Pool, f: &Frame, s: &Shape, x: PageNo, e: Option<MapEntry>)
    requires entry { FitsPage s.now x e }
    requires page { ShowsPage s.now x pool.old f.now }
    ensures frames { KeepsFrames f.now pool.old pool.new }
    ensures page { ShowsPage s.now x pool.new f.now }
    ensures image { (image : PageImage) → page_of image ≡ x → IsOfKind s.now image → Shows pool.old f.now image → Shows pool.new f.now (in_life e image) }
{
    if let Some(e) = e {
        life(&e, x, pool.bytes_mut(f));
    }
}

/// Reads the block of a page, which is an image of the page then.
///
/// `Damaged` comes where the block is no image of the page, and `Lost` where it is lost.
fn read_image<D: Disk>(
    disk: &mut D,
    port: NodeId,
    s: &Shape,
    x: PageNo,
    out: &mut Block,
) -> Result<(), DevFault>
    requires shape { IsShape s.now }
    requires page { x.0 < page_count s.now }
    requires port { IsPort port.0 }
    requires live { (D.state disk.old).live port.0 ≡ true }
    requires reach { (D.state disk.old).reach (page_place s.now x) ≡ true }
    ensures keeps { Keeps port.0 (D.state disk.old) (D.state disk.new) }
    ensures cause { IfErr result (λ fault. Caused fault (D.state disk.old) (D.state disk.new)) }
    ensures fault { IfErr result (IsPageFault s.now x port.0) }
    ensures told { IsTrue D.told → IfErr result (IsToldOfPage s.now x ((D.state disk.old).block (page_place s.now x)).current) }
    ensures live { StaysLive result ((D.state disk.new).live port.0 ≡ true) }
    ensures stopped { IfErr result (λ fault. OnStop fault ((D.state disk.new).live port.0 ≡ false)) }
    ensures outcomes { IsTrue D.told → Narrows (D.state disk.old).block (D.state disk.new).block }
    ensures writers { IsTrue D.told → NoNewWriter (D.state disk.old).block (D.state disk.new).block }
    ensures foreign { IsTrue D.told → KeepsForeign port.0 (D.state disk.old).block (D.state disk.new).block }
    ensures settled { IfErr result (λ fault. OnStop fault (IsTrue D.told → HasSettled port.0 (D.state disk.new).block)) }
    ensures blocks { IsTrue D.told → StaysLive result ((D.state disk.new).block ≡ (D.state disk.old).block) }
    ensures image { OnOk result ((image : PageImage) × IsText image out.new × (page_of image ≡ x) × IsOfKind s.now image) }
    ensures content { OnOk result (IsTrue D.told → ((D.state disk.old).block (page_place s.now x)).current ≡ Some out.new) }
    ensures there { IsTrue D.told → (image : PageImage) → HoldsPage s.now x image ((D.state disk.old).block (page_place s.now x)).current → IfErr result (IsStopOf port.0) }
{
    let at = s.page_block(x);
    read_block(disk, port, at, out)?;
    if !is_image(out, s, x) {
        return Err(DevFault::Damaged(at));
    }
    Ok(())
}

/// Reads the block of a page and tests that it is an image of the page. Nothing else is done with it.
///
/// `Damaged` comes where the block is no image of the page, and `Lost` where it is lost.
pub fn test_block<D: Disk>(disk: &mut D, port: NodeId, s: &Shape, x: PageNo) -> Result<(), DevFault>
    requires shape { IsShape s.now }
    requires page { x.0 < page_count s.now }
    requires port { IsPort port.0 }
    requires live { (D.state disk.old).live port.0 ≡ true }
    requires reach { (D.state disk.old).reach (page_place s.now x) ≡ true }
    ensures keeps { Keeps port.0 (D.state disk.old) (D.state disk.new) }
    ensures cause { IfErr result (λ fault. Caused fault (D.state disk.old) (D.state disk.new)) }
    ensures fault { IfErr result (IsPageFault s.now x port.0) }
    ensures told { IsTrue D.told → IfErr result (IsToldOfPage s.now x ((D.state disk.old).block (page_place s.now x)).current) }
    ensures live { StaysLive result ((D.state disk.new).live port.0 ≡ true) }
    ensures stopped { IfErr result (λ fault. OnStop fault ((D.state disk.new).live port.0 ≡ false)) }
    ensures outcomes { IsTrue D.told → Narrows (D.state disk.old).block (D.state disk.new).block }
    ensures writers { IsTrue D.told → NoNewWriter (D.state disk.old).block (D.state disk.new).block }
    ensures foreign { IsTrue D.told → KeepsForeign port.0 (D.state disk.old).block (D.state disk.new).block }
    ensures settled { IfErr result (λ fault. OnStop fault (IsTrue D.told → HasSettled port.0 (D.state disk.new).block)) }
    ensures blocks { IsTrue D.told → StaysLive result ((D.state disk.new).block ≡ (D.state disk.old).block) }
    ensures there { IsTrue D.told → (image : PageImage) → HoldsPage s.now x image ((D.state disk.old).block (page_place s.now x)).current → IfErr result (IsStopOf port.0) }
    ensures found { OnOk result (IsTrue D.told → (image : PageImage) × HoldsPage s.now x image ((D.state disk.old).block (page_place s.now x)).current) }
{
    let mut block = [0; 4096];
    read_image(disk, port, s, x, &mut block)
}

/// Reads a page into a frame, under its map entry where that is known.
fn load_frame<D: Disk>(
    disk: &mut D,
    port: NodeId,
    s: &Shape,
    pool: &mut Pool,
    f: &Frame,
    x: PageNo,
    e: Option<MapEntry>,
) -> Result<(), DevFault>
    requires shape { IsShape s.now }
    requires page { x.0 < page_count s.now }
    requires entry { FitsPage s.now x e }
    requires out { IsOut pool.old f.now }
    requires port { IsPort port.0 }
    requires live { (D.state disk.old).live port.0 ≡ true }
    requires reach { (D.state disk.old).reach (page_place s.now x) ≡ true }
    ensures keeps { Keeps port.0 (D.state disk.old) (D.state disk.new) }
    ensures cause { IfErr result (λ fault. Caused fault (D.state disk.old) (D.state disk.new)) }
    ensures fault { IfErr result (IsPageFault s.now x port.0) }
    ensures told { IsTrue D.told → IfErr result (IsToldOfPage s.now x ((D.state disk.old).block (page_place s.now x)).current) }
    ensures live { StaysLive result ((D.state disk.new).live port.0 ≡ true) }
    ensures stopped { IfErr result (λ fault. OnStop fault ((D.state disk.new).live port.0 ≡ false)) }
    ensures outcomes { IsTrue D.told → Narrows (D.state disk.old).block (D.state disk.new).block }
    ensures writers { IsTrue D.told → NoNewWriter (D.state disk.old).block (D.state disk.new).block }
    ensures foreign { IsTrue D.told → KeepsForeign port.0 (D.state disk.old).block (D.state disk.new).block }
    ensures settled { IfErr result (λ fault. OnStop fault (IsTrue D.told → HasSettled port.0 (D.state disk.new).block)) }
    ensures blocks { IsTrue D.told → StaysLive result ((D.state disk.new).block ≡ (D.state disk.old).block) }
    ensures frames { KeepsFrames f.now pool.old pool.new }
    ensures out { IsOut pool.new f.now }
    ensures page { OnOk result (ShowsPage s.now x pool.new f.now) }
    ensures there { IsTrue D.told → (image : PageImage) → HoldsPage s.now x image ((D.state disk.old).block (page_place s.now x)).current → IfErr result (IsStopOf port.0) }
    ensures found { OnOk result (IsTrue D.told → (image : PageImage) × HoldsPage s.now x image ((D.state disk.old).block (page_place s.now x)).current) }
    ensures image { OnOk result (IsTrue D.told → (image : PageImage) → HoldsPage s.now x image ((D.state disk.old).block (page_place s.now x)).current → Shows pool.new f.now (in_life e image)) }
{
    read_image(disk, port, s, x, pool.bytes_mut(f))?;
    put_in_life(pool, f, s, x, e);
    Ok(())
}

/// Reads the ticket's page into a frame, as the page that its block stands for: of a data page under
/// its map entry, where that is given.
///
/// With each fault the frame and the ticket come back. `Damaged` comes where the block is no image of
/// the page, and `Lost` where it is lost.
pub fn load<D: Disk>(
    disk: &mut D,
    port: NodeId,
    s: &Shape,
    pool: &mut Pool,
    f: Frame,
    t: Ticket,
    e: Option<MapEntry>,
) -> Result<Held<Clean>, (DevFault, Frame, Ticket)>
    requires shape { IsShape s.now }
    requires page { t.page.0 < page_count s.now }
    requires entry { FitsPage s.now t.page e }
    requires out { IsOut pool.old f }
    requires port { IsPort port.0 }
    requires live { (D.state disk.old).live port.0 ≡ true }
    requires reach { (D.state disk.old).reach (page_place s.now t.page) ≡ true }
    ensures keeps { Keeps port.0 (D.state disk.old) (D.state disk.new) }
    ensures cause { IfErr result (λ r. Caused r.0 (D.state disk.old) (D.state disk.new)) }
    ensures fault { IfErr result (λ r. IsPageFault s.now t.page port.0 r.0) }
    ensures told { IsTrue D.told → IfErr result (λ r. IsToldOfPage s.now t.page ((D.state disk.old).block (page_place s.now t.page)).current r.0) }
    ensures live { MatchResult result (λ _. (D.state disk.new).live port.0 ≡ true) (λ r. UnlessStopped r.0 ((D.state disk.new).live port.0 ≡ true)) }
    ensures stopped { IfErr result (λ r. OnStop r.0 ((D.state disk.new).live port.0 ≡ false)) }
    ensures outcomes { IsTrue D.told → Narrows (D.state disk.old).block (D.state disk.new).block }
    ensures writers { IsTrue D.told → NoNewWriter (D.state disk.old).block (D.state disk.new).block }
    ensures foreign { IsTrue D.told → KeepsForeign port.0 (D.state disk.old).block (D.state disk.new).block }
    ensures settled { IfErr result (λ r. OnStop r.0 (IsTrue D.told → HasSettled port.0 (D.state disk.new).block)) }
    ensures blocks { IsTrue D.told → MatchResult result (λ _. (D.state disk.new).block ≡ (D.state disk.old).block) (λ r. UnlessStopped r.0 ((D.state disk.new).block ≡ (D.state disk.old).block)) }
    ensures frames { KeepsFrames f pool.old pool.new }
    ensures out { IsOut pool.new f }
    ensures shows { OnOk result (ShowsPage s.now t.page pool.new f) }
    ensures frame { IfOk result (λ h. h.frame ≡ f) }
    ensures ticket { IfOk result (λ h. h.ticket ≡ t) }
    ensures shape { IfOk result (λ h. h.shape ≡ s.now) }
    ensures frame_back { IfErr result (λ r. r.1 ≡ f) }
    ensures ticket_back { IfErr result (λ r. r.2 ≡ t) }
    ensures there { IsTrue D.told → (image : PageImage) → HoldsPage s.now t.page image ((D.state disk.old).block (page_place s.now t.page)).current → IfErr result (λ r. IsStopOf port.0 r.0) }
    ensures found { OnOk result (IsTrue D.told → (image : PageImage) × HoldsPage s.now t.page image ((D.state disk.old).block (page_place s.now t.page)).current) }
    ensures image { OnOk result (IsTrue D.told → (image : PageImage) → HoldsPage s.now t.page image ((D.state disk.old).block (page_place s.now t.page)).current → Shows pool.new f (in_life e image)) }
{
    match load_frame(disk, port, s, pool, &f, t.page(), e) {
        Ok(()) => Ok(Held::clean(f, t, *s)),
        Err(fault) => Err((fault, f, t)),
    }
}
