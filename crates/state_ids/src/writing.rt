//! A changed page is written to its block, once the log is stable up to its last change.

ghost use Rattle.std.specs.Prelude.{◌≡◌, ◌≢◌, ◌<◌, ℕ, List, Some, None, true, false, IsTrue, IfOk, IfErr, OnOk, OnErr};
ghost use Rattle.sd_base.specs.Disk.{IsPort, IsFreeFor, IsCovered, Holds};
ghost use Rattle.sd_base.specs.Calls.{Keeps, NarrowsBut, NoNewWriterBut, KeepsForeignBut};
ghost use Rattle.sd_base.specs.Faults.{Caused, IsStopOf};
ghost use Rattle.sd_base.specs.Shape.{IsShape, page_count};
ghost use Rattle.frame_pool.specs.Frames.{IsOut, frame_at};
ghost use Rattle.state_ids.specs.Blocks.{page_place, HasSettled};

use crate::batch::Batch;
use crate::held::{Dirty, Held, Written};
use frame_pool::Pool;
use private_log::Log;
use sd_base::{DevFault, Disk, NodeId, Shape};

/// Writes a changed page to its block, and covers it. The log of the page's node has to be stable past
/// the record of its last change.
///
/// After an error the block holds what was written or what it held before.
pub fn write_page<D: Disk>(
    disk: &mut D,
    port: NodeId,
    s: &Shape,
    pool: &Pool,
    log: &Log,
    h: &Held<Dirty>,
) -> Result<Written, DevFault>
    requires shape { IsShape s.now }
    requires page { h.now.ticket.page.0 < page_count s.now }
    requires out { IsOut pool.now h.now.frame }
    requires node { log.now.node ≡ h.now.ticket.node }
    requires stable { h.now.last < log.now.stable }
    requires port { IsPort port.0 }
    requires live { (D.state disk.old).live port.0 ≡ true }
    requires reach { (D.state disk.old).reach (page_place s.now h.now.ticket.page) ≡ true }
    requires free { IsTrue D.told → IsFreeFor port.0 ((D.state disk.old).block (page_place s.now h.now.ticket.page)) }
    ensures keeps { Keeps port.0 (D.state disk.old) (D.state disk.new) }
    ensures cause { IfErr result (λ fault. Caused fault (D.state disk.old) (D.state disk.new)) }
    ensures fault { IfErr result (IsStopOf port.0) }
    ensures live { OnOk result ((D.state disk.new).live port.0 ≡ true) }
    ensures stopped { OnErr result ((D.state disk.new).live port.0 ≡ false) }
    ensures page { IfOk result (λ w. w.page ≡ h.now.ticket.page) }
    ensures node { IfOk result (λ w. w.node ≡ h.now.ticket.node) }
    ensures last { IfOk result (λ w. w.last ≡ h.now.last) }
    ensures outcomes { IsTrue D.told → (b : List ℕ) → frame_at pool.now h.now.frame ≡ Some b → NarrowsBut (page_place s.now h.now.ticket.page) b (D.state disk.old).block (D.state disk.new).block }
    ensures writers { IsTrue D.told → NoNewWriterBut (page_place s.now h.now.ticket.page) port.0 (D.state disk.old).block (D.state disk.new).block }
    ensures foreign { IsTrue D.told → KeepsForeignBut (page_place s.now h.now.ticket.page) port.0 (D.state disk.old).block (D.state disk.new).block }
    ensures settled { OnErr result (IsTrue D.told → HasSettled port.0 (D.state disk.new).block) }
    ensures still { IsTrue D.told → ((D.state disk.new).block (page_place s.now h.now.ticket.page)).writer ≡ None }
    ensures others { OnOk result (IsTrue D.told → (k : ℕ) → k ≢ page_place s.now h.now.ticket.page → ((D.state disk.new).block k).current ≡ ((D.state disk.old).block k).current) }
    ensures written { OnOk result (IsTrue D.told → (b : List ℕ) → frame_at pool.now h.now.frame ≡ Some b → Holds (D.state disk.new).block (page_place s.now h.now.ticket.page) (Some b)) }
{
    let mut batch = Batch::new(port);
    batch.send(disk, s, pool, log, h)?;
    let covered = batch.cover(disk)?;
    Ok(covered.written(h.page()))
}
