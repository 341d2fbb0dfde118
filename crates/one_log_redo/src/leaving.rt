//! A page leaves its frame: if it has changes, it is written and covered before.

ghost use Rattle.std.specs.Prelude.{◌≡◌, ◌<◌, ◌≤◌, ℕ, List, Some, None, true, false, IsTrue, IfErr, IfOk, OnOk, OnErr, length, slice_set};
ghost use Rattle.sd_base.specs.Faults.{Caused, IsStopOf, StaysLive};
ghost use Rattle.state_ids.specs.PageImage.{PageImage};
ghost use Rattle.one_log_redo.specs.Copies.{AreCopies, AreLent, HaveImages, IsAt, IsNowhere, copy_at};
ghost use Rattle.one_log_redo.specs.Pages.{AreStill, IsReady, KeepsPages, NarrowsToImages, UsesPages};

use crate::copies::{Copied, find_first, find_free};
use crate::frames::Lent;
use crate::writing::settle_page;
use frame_pool::Pool;
use sd_base::{DevFault, Disk, NodeId, PageNo, Shape};

/// Writes the page at a place and covers it, if it has changes that its block hasn't.
fn write_off<D: Disk>(
    disk: &mut D,
    port: NodeId,
    s: &Shape,
    pool: &Pool,
    lent: &Lent,
    copies: &[Option<Copied>],
    k: usize,
) -> Result<(), DevFault>
    requires ready { IsReady D.told s.now port.0 (D.state disk.old) }
    requires lent { AreLent pool.now lent.now.frames lent.now.count }
    requires copies { AreCopies s.now pool.now lent.now.frames lent.now.count copies.now }
    requires place { k < length copies.now }
    ensures uses { UsesPages s.now port.0 D.told (D.state disk.old) (D.state disk.new) }
    ensures cause { IfErr result (λ fault. Caused fault (D.state disk.old) (D.state disk.new)) }
    ensures fault { IfErr result (IsStopOf port.0) }
    ensures stopped { OnErr result ((D.state disk.new).live port.0 ≡ false) }
    ensures ready { OnOk result (IsReady D.told s.now port.0 (D.state disk.new)) }
    ensures still { IsTrue D.told → AreStill s.now (D.state disk.new).block }
    ensures pages { OnOk result (IsTrue D.told → KeepsPages s.now (D.state disk.old).block (D.state disk.new).block) }
    ensures outcomes { IsTrue D.told → (images : ℕ → PageImage) → HaveImages s.now pool.now lent.now.frames copies.now (D.state disk.old).block images → NarrowsToImages s.now images (D.state disk.old).block (D.state disk.new).block }
    ensures images { OnOk result (IsTrue D.told → (images : ℕ → PageImage) → HaveImages s.now pool.now lent.now.frames copies.now (D.state disk.old).block images
        → HaveImages s.now pool.now lent.now.frames (slice_set copies.now k None) (D.state disk.new).block images) }
{
    let Some(c) = copies[k] else {
        return Ok(());
    };
    if !c.changed {
        return Ok(());
    }
    settle_page(disk, port, s, pool, lent.frame(k), c.page)
}

/// A place for a page: one that has none yet, or else the place of the page that came first, other than
/// the page `keep`, which leaves it.
pub(crate) fn make_room<D: Disk>(
    disk: &mut D,
    port: NodeId,
    s: &Shape,
    pool: &Pool,
    lent: &Lent,
    copies: &mut [Option<Copied>],
    keep: PageNo,
) -> Result<usize, DevFault>
    requires ready { IsReady D.told s.now port.0 (D.state disk.old) }
    requires lent { AreLent pool.now lent.now.frames lent.now.count }
    requires two { 2 ≤ lent.now.count }
    requires places { length copies.old ≡ 16 }
    requires copies { AreCopies s.now pool.now lent.now.frames lent.now.count copies.old }
    ensures uses { UsesPages s.now port.0 D.told (D.state disk.old) (D.state disk.new) }
    ensures cause { IfErr result (λ fault. Caused fault (D.state disk.old) (D.state disk.new)) }
    ensures fault { IfErr result (IsStopOf port.0) }
    ensures stopped { OnErr result ((D.state disk.new).live port.0 ≡ false) }
    ensures ready { OnOk result (IsReady D.told s.now port.0 (D.state disk.new)) }
    ensures still { IsTrue D.told → AreStill s.now (D.state disk.new).block }
    ensures pages { OnOk result (IsTrue D.told → KeepsPages s.now (D.state disk.old).block (D.state disk.new).block) }
    ensures outcomes { IsTrue D.told → (images : ℕ → PageImage) → HaveImages s.now pool.now lent.now.frames copies.old (D.state disk.old).block images → NarrowsToImages s.now images (D.state disk.old).block (D.state disk.new).block }
    ensures images { OnOk result (IsTrue D.told → (images : ℕ → PageImage) → HaveImages s.now pool.now lent.now.frames copies.old (D.state disk.old).block images
        → HaveImages s.now pool.now lent.now.frames copies.new (D.state disk.new).block images) }
    ensures copies { OnOk result (AreCopies s.now pool.now lent.now.frames lent.now.count copies.new) }
    ensures free { IfOk result (λ k. (k < lent.now.count) × (copy_at copies.new k ≡ None)) }
    ensures fewer { OnOk result ((x : PageNo) → IsNowhere x copies.old → IsNowhere x copies.new) }
    ensures kept { OnOk result ((j : ℕ) → IsAt keep j copies.old → IsAt keep j copies.new) }
{
    if let Some(k) = find_free(copies, lent.count) {
        return Ok(k);
    }
    let Some(k) = find_first(copies, keep) else {
        unreachable!()
    };
    write_off(disk, port, s, pool, lent, copies, k)?;
    copies[k] = None;
    Ok(k)
}
