//! A page in a frame is written to its block.

ghost use Rattle.std.specs.Prelude.{◌≡◌, ◌≢◌, ◌<◌, ℕ, List, Some, None, true, false, IsTrue, IfErr, OnOk, OnErr};
ghost use Rattle.sd_base.specs.Disk.{IsPort, IsFreeFor, Holds};
ghost use Rattle.sd_base.specs.Calls.{Keeps, NarrowsBut, NoNewWriterBut, KeepsForeignBut, Writes, CutsWrite};
ghost use Rattle.sd_base.specs.Faults.{Caused, IsStopOf};
ghost use Rattle.sd_base.specs.Shape.{IsShape, page_count};
ghost use Rattle.frame_pool.specs.Frames.{IsOut, frame_at};
ghost use Rattle.state_ids.specs.Blocks.{page_place, HasSettled};

use frame_pool::{Frame, Pool};
use sd_base::{DevFault, Disk, NodeId, PageNo, Shape, cover, write_block};

/// Writes the page in a frame to the block of the page `x`, and doesn't cover it. It gives up only where
/// the port stopped or failed; then the block holds what was written or what it held before.
pub fn write_page<D: Disk>(
    disk: &mut D,
    port: NodeId,
    s: &Shape,
    pool: &Pool,
    f: &Frame,
    x: PageNo,
) -> Result<(), DevFault>
    requires shape { IsShape s.now }
    requires page { x.0 < page_count s.now }
    requires out { IsOut pool.now f.now }
    requires port { IsPort port.0 }
    requires live { (D.state disk.old).live port.0 ≡ true }
    requires reach { (D.state disk.old).reach (page_place s.now x) ≡ true }
    requires free { IsTrue D.told → IsFreeFor port.0 ((D.state disk.old).block (page_place s.now x)) }
    ensures keeps { Keeps port.0 (D.state disk.old) (D.state disk.new) }
    ensures cause { IfErr result (λ fault. Caused fault (D.state disk.old) (D.state disk.new)) }
    ensures fault { IfErr result (IsStopOf port.0) }
    ensures live { OnOk result ((D.state disk.new).live port.0 ≡ true) }
    ensures stopped { OnErr result ((D.state disk.new).live port.0 ≡ false) }
    ensures outcomes { IsTrue D.told → (b : List ℕ) → frame_at pool.now f.now ≡ Some b → NarrowsBut (page_place s.now x) b (D.state disk.old).block (D.state disk.new).block }
    ensures writers { IsTrue D.told → NoNewWriterBut (page_place s.now x) port.0 (D.state disk.old).block (D.state disk.new).block }
    ensures foreign { IsTrue D.told → KeepsForeignBut (page_place s.now x) port.0 (D.state disk.old).block (D.state disk.new).block }
    ensures written { OnOk result (IsTrue D.told → (b : List ℕ) → frame_at pool.now f.now ≡ Some b → Writes port.0 (page_place s.now x) b (D.state disk.old).block (D.state disk.new).block) }
    ensures cut { OnErr result (IsTrue D.told → CutsWrite port.0 (page_place s.now x) (D.state disk.old).block (D.state disk.new).block) }
{
    write_block(disk, port, s.page_block(x), pool.bytes(f))
}

/// Writes the page in a frame to the block of the page `x`, and covers it. It gives up only where the
/// port stopped or failed; then the block holds what was written or what it held before.
pub fn settle_page<D: Disk>(
    disk: &mut D,
    port: NodeId,
    s: &Shape,
    pool: &Pool,
    f: &Frame,
    x: PageNo,
) -> Result<(), DevFault>
    requires shape { IsShape s.now }
    requires page { x.0 < page_count s.now }
    requires out { IsOut pool.now f.now }
    requires port { IsPort port.0 }
    requires live { (D.state disk.old).live port.0 ≡ true }
    requires reach { (D.state disk.old).reach (page_place s.now x) ≡ true }
    requires free { IsTrue D.told → IsFreeFor port.0 ((D.state disk.old).block (page_place s.now x)) }
    ensures keeps { Keeps port.0 (D.state disk.old) (D.state disk.new) }
    ensures cause { IfErr result (λ fault. Caused fault (D.state disk.old) (D.state disk.new)) }
    ensures fault { IfErr result (IsStopOf port.0) }
    ensures live { OnOk result ((D.state disk.new).live port.0 ≡ true) }
    ensures stopped { OnErr result ((D.state disk.new).live port.0 ≡ false) }
    ensures outcomes { IsTrue D.told → (b : List ℕ) → frame_at pool.now f.now ≡ Some b → NarrowsBut (page_place s.now x) b (D.state disk.old).block (D.state disk.new).block }
    ensures writers { IsTrue D.told → NoNewWriterBut (page_place s.now x) port.0 (D.state disk.old).block (D.state disk.new).block }
    ensures foreign { IsTrue D.told → KeepsForeignBut (page_place s.now x) port.0 (D.state disk.old).block (D.state disk.new).block }
    ensures settled { OnErr result (IsTrue D.told → HasSettled port.0 (D.state disk.new).block) }
    ensures still { IsTrue D.told → ((D.state disk.new).block (page_place s.now x)).writer ≡ None }
    ensures others { OnOk result (IsTrue D.told → (k : ℕ) → k ≢ page_place s.now x → ((D.state disk.new).block k).current ≡ ((D.state disk.old).block k).current) }
    ensures written { OnOk result (IsTrue D.told → (b : List ℕ) → frame_at pool.now f.now ≡ Some b → Holds (D.state disk.new).block (page_place s.now x) (Some b)) }
{
    write_page(disk, port, s, pool, f, x)?;
    cover(disk, port)
}
