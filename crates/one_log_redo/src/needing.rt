//! A page is brought into a frame, if it isn't in one.

ghost use Rattle.std.specs.Prelude.{◌≡◌, ◌<◌, ◌≤◌, ℕ, List, Some, None, true, false, IsTrue, IfErr, IfOk, OnOk, OnErr, length, slice_set};
ghost use Rattle.sd_base.specs.Calls.{Narrows};
ghost use Rattle.sd_base.specs.Faults.{Caused, OnStop, StaysLive};
ghost use Rattle.sd_base.specs.Shape.{page_count};
ghost use Rattle.state_ids.specs.PageImage.{PageImage};
ghost use Rattle.state_ids.specs.Blocks.{IsPageFault, IsToldOfPage, page_place};
ghost use Rattle.one_log_redo.specs.Copies.{AreCopies, AreLent, HaveImages, IsAt, IsNowhere, KeepsOthers, copy_at};
ghost use Rattle.one_log_redo.specs.Pages.{AreStill, IsReady, KeepsPages, NarrowsToImages, UsesPages};

use crate::copies::{Copied, find};
use crate::frames::Lent;
use crate::leaving::make_room;
use crate::loading::read_page;
use frame_pool::Pool;
use sd_base::{DevFault, Disk, NodeId, PageNo, Shape};

/// Reads a page that is in no frame into the frame of a free place.
fn load<D: Disk>(
    disk: &mut D,
    port: NodeId,
    s: &Shape,
    pool: &mut Pool,
    lent: &Lent,
    copies: &mut [Option<Copied>],
    k: usize,
    x: PageNo,
    since: u64,
) -> Result<(), DevFault>
    requires ready { IsReady D.told s.now port.0 (D.state disk.old) }
    requires lent { AreLent pool.old lent.now.frames lent.now.count }
    requires places { length copies.old ≡ 16 }
    requires copies { AreCopies s.now pool.old lent.now.frames lent.now.count copies.old }
    requires page { x.0 < page_count s.now }
    requires free { (k < lent.now.count) × (copy_at copies.old k ≡ None) }
    requires nowhere { IsNowhere x copies.old }
    ensures uses { UsesPages s.now port.0 D.told (D.state disk.old) (D.state disk.new) }
    ensures cause { IfErr result (λ fault. Caused fault (D.state disk.old) (D.state disk.new)) }
    ensures fault { IfErr result (IsPageFault s.now x port.0) }
    ensures told { IsTrue D.told → IfErr result (IsToldOfPage s.now x ((D.state disk.new).block (page_place s.now x)).current) }
    ensures stopped { IfErr result (λ fault. OnStop fault ((D.state disk.new).live port.0 ≡ false)) }
    ensures ready { StaysLive result (IsReady D.told s.now port.0 (D.state disk.new)) }
    ensures still { IsTrue D.told → AreStill s.now (D.state disk.new).block }
    ensures pages { StaysLive result (IsTrue D.told → KeepsPages s.now (D.state disk.old).block (D.state disk.new).block) }
    ensures outcomes { IsTrue D.told → Narrows (D.state disk.old).block (D.state disk.new).block }
    ensures images { OnOk result (IsTrue D.told → (images : ℕ → PageImage) → HaveImages s.now pool.old lent.now.frames copies.old (D.state disk.old).block images
        → HaveImages s.now pool.new lent.now.frames copies.new (D.state disk.new).block images) }
    ensures lent { AreLent pool.new lent.now.frames lent.now.count }
    ensures others { KeepsOthers lent.now.frames lent.now.count pool.old pool.new }
    ensures copies { OnOk result (AreCopies s.now pool.new lent.now.frames lent.now.count copies.new) }
    ensures there { OnOk result (copies.new ≡ slice_set copies.old k (Some (record { page = x; since = since; changed = false }))) }
{
    read_page(disk, port, s, pool, lent.frame(k), x)?;
    copies[k] = Some(Copied {
        page: x,
        since,
        changed: false,
    });
    Ok(())
}

/// Brings the page `x` into a frame, if it isn't in one, and answers its place. Where all frames have
/// pages, the one that came first leaves, other than the page `keep`.
///
/// `Damaged` comes where the block of the page is no image of it, and `Lost` where it is lost.
pub(crate) fn need_page<D: Disk>(
    disk: &mut D,
    port: NodeId,
    s: &Shape,
    pool: &mut Pool,
    lent: &Lent,
    copies: &mut [Option<Copied>],
    x: PageNo,
    keep: PageNo,
    since: u64,
) -> Result<usize, DevFault>
    requires ready { IsReady D.told s.now port.0 (D.state disk.old) }
    requires lent { AreLent pool.old lent.now.frames lent.now.count }
    requires two { 2 ≤ lent.now.count }
    requires places { length copies.old ≡ 16 }
    requires copies { AreCopies s.now pool.old lent.now.frames lent.now.count copies.old }
    requires page { x.0 < page_count s.now }
    ensures uses { UsesPages s.now port.0 D.told (D.state disk.old) (D.state disk.new) }
    ensures cause { IfErr result (λ fault. Caused fault (D.state disk.old) (D.state disk.new)) }
    ensures fault { IfErr result (IsPageFault s.now x port.0) }
    ensures told { IsTrue D.told → IfErr result (IsToldOfPage s.now x ((D.state disk.new).block (page_place s.now x)).current) }
    ensures stopped { IfErr result (λ fault. OnStop fault ((D.state disk.new).live port.0 ≡ false)) }
    ensures ready { StaysLive result (IsReady D.told s.now port.0 (D.state disk.new)) }
    ensures still { IsTrue D.told → AreStill s.now (D.state disk.new).block }
    ensures pages { StaysLive result (IsTrue D.told → KeepsPages s.now (D.state disk.old).block (D.state disk.new).block) }
    ensures outcomes { IsTrue D.told → (images : ℕ → PageImage) → HaveImages s.now pool.old lent.now.frames copies.old (D.state disk.old).block images → NarrowsToImages s.now images (D.state disk.old).block (D.state disk.new).block }
    ensures images { OnOk result (IsTrue D.told → (images : ℕ → PageImage) → HaveImages s.now pool.old lent.now.frames copies.old (D.state disk.old).block images
        → HaveImages s.now pool.new lent.now.frames copies.new (D.state disk.new).block images) }
    ensures lent { AreLent pool.new lent.now.frames lent.now.count }
    ensures others { KeepsOthers lent.now.frames lent.now.count pool.old pool.new }
    ensures copies { OnOk result (AreCopies s.now pool.new lent.now.frames lent.now.count copies.new) }
    ensures there { IfOk result (λ k. IsAt x k copies.new) }
    ensures kept { OnOk result ((j : ℕ) → IsAt keep j copies.old → IsAt keep j copies.new) }
{
    if let Some(k) = find(copies, x) {
        return Ok(k);
    }
    let k = make_room(disk, port, s, pool, lent, copies, keep)?;
    load(disk, port, s, pool, lent, copies, k, x, since)?;
    Ok(k)
}
