//! Changed pages are written one after the other, and covered by one barrier.

ghost use Rattle.std.specs.Prelude.{◌≡◌, ◌<◌, ◌++◌, ◌∷◌, [], ℕ, List, Some, None, true, false, IsTrue, IsSome, IfOk, IfErr, OnOk, OnErr, length};
ghost use Rattle.sd_base.specs.Disk.{IsPort, IsFreeFor};
ghost use Rattle.sd_base.specs.Calls.{Keeps, Narrows, NarrowsBut, NoNewWriter, NoNewWriterBut, KeepsForeign, KeepsForeignBut, Writes, CutsWrite, Covers, Settles};
ghost use Rattle.sd_base.specs.Faults.{Caused, IsStopOf};
ghost use Rattle.sd_base.specs.Shape.{IsShape, page_count};
ghost use Rattle.frame_pool.specs.Frames.{IsOut, frame_at};
ghost use Rattle.state_ids.specs.Batch.{is_sent, sent_at};
ghost use Rattle.state_ids.specs.Blocks.{page_place};

use crate::held::{Dirty, Held, Written, WrittenPage};
use arrayvec::ArrayVec;
use frame_pool::Pool;
use private_log::Log;
use sd_base::{DevFault, Disk, NodeId, PageNo, Shape, cover, write_block};
use std::marker::Model;

/// Pages that were written through a port and aren't covered yet, at most 16. A contract sees it as the
/// port and the pages, in the order in which they were written.
///
/// It can't be copied. Where it is let go, its pages have their changes still: only `cover` gives what it
/// takes to end these.
#[derive(Drop)]
pub struct Batch {
    port: NodeId,
    sent: ArrayVec<WrittenPage, 16>,
}

impl Model for Batch {
    ghost use Rattle.state_ids.specs.Batch.{BatchState};

    ghost Value = { BatchState };

    ghost view = { λ b. record { port = b.port; sent = b.sent.items } };
}

/// Pages that were written and then covered by one barrier. A contract sees it as the pages, in the
/// order in which they were written. It is made by `Batch::cover` alone.
#[derive(Drop)]
pub struct Covered {
    sent: ArrayVec<WrittenPage, 16>,
}

impl Model for Covered {
    ghost use Rattle.std.specs.Prelude.{List};
    ghost use Rattle.state_ids.specs.declared.held.WrittenPage.{WrittenPage};

    ghost Value = { List WrittenPage };

    ghost view = { λ c. c.sent.items };
}

/// Whether this was sent of the page.
fn is_sent(w: &WrittenPage, x: PageNo) -> bool
    ensures { result ≡ is_sent x w.now }
{
    w.page == x
}

/// What was sent of the page.
fn find_sent(sent: &[WrittenPage], x: PageNo) -> Option<WrittenPage>
    ensures { result ≡ sent_at x sent.now }
{
    sent.iter().find(|w| is_sent(w, x)).copied()
}

impl Batch {
    /// A batch without a page yet, which is written through the port of this node.
    pub fn new(n: NodeId) -> Batch
        ensures port { result.port ≡ n }
        ensures sent { result.sent ≡ [] }
    {
        Batch {
            port: n,
            sent: ArrayVec::new(),
        }
    }

    /// Writes a changed page to its block, and doesn't cover it. The log of the page's node has to be
    /// stable past the record of its last change.
    ///
    /// The page keeps its changes. After an error its block holds what was written or what it held
    /// before.
    pub fn send<D: Disk>(
        &mut self,
        disk: &mut D,
        s: &Shape,
        pool: &Pool,
        log: &Log,
        h: &Held<Dirty>,
    ) -> Result<(), DevFault>
        requires room { length self.old.sent < 16 }
        requires once { sent_at h.now.ticket.page self.old.sent ≡ None }
        requires shape { IsShape s.now }
        requires page { h.now.ticket.page.0 < page_count s.now }
        requires out { IsOut pool.now h.now.frame }
        requires node { log.now.node ≡ h.now.ticket.node }
        requires stable { h.now.last < log.now.stable }
        requires port { IsPort self.old.port.0 }
        requires live { (D.state disk.old).live self.old.port.0 ≡ true }
        requires reach { (D.state disk.old).reach (page_place s.now h.now.ticket.page) ≡ true }
        requires free { IsTrue D.told → IsFreeFor self.old.port.0 ((D.state disk.old).block (page_place s.now h.now.ticket.page)) }
        ensures keeps { Keeps self.old.port.0 (D.state disk.old) (D.state disk.new) }
        ensures cause { IfErr result (λ fault. Caused fault (D.state disk.old) (D.state disk.new)) }
        ensures fault { IfErr result (IsStopOf self.old.port.0) }
        ensures live { OnOk result ((D.state disk.new).live self.old.port.0 ≡ true) }
        ensures stopped { OnErr result ((D.state disk.new).live self.old.port.0 ≡ false) }
        ensures port { self.new.port ≡ self.old.port }
        ensures sent { OnOk result (self.new.sent ≡ self.old.sent ++ record { page = h.now.ticket.page; node = h.now.ticket.node; last = h.now.last } ∷ []) }
        ensures kept { OnErr result (self.new.sent ≡ self.old.sent) }
        ensures outcomes { IsTrue D.told → (b : List ℕ) → frame_at pool.now h.now.frame ≡ Some b → NarrowsBut (page_place s.now h.now.ticket.page) b (D.state disk.old).block (D.state disk.new).block }
        ensures writers { IsTrue D.told → NoNewWriterBut (page_place s.now h.now.ticket.page) self.old.port.0 (D.state disk.old).block (D.state disk.new).block }
        ensures foreign { IsTrue D.told → KeepsForeignBut (page_place s.now h.now.ticket.page) self.old.port.0 (D.state disk.old).block (D.state disk.new).block }
        ensures written { OnOk result (IsTrue D.told → (b : List ℕ) → frame_at pool.now h.now.frame ≡ Some b → Writes self.old.port.0 (page_place s.now h.now.ticket.page) b (D.state disk.old).block (D.state disk.new).block) }
        ensures cut { OnErr result (IsTrue D.told → CutsWrite self.old.port.0 (page_place s.now h.now.ticket.page) (D.state disk.old).block (D.state disk.new).block) }
    {
        // That the log is stable is for the caller to know.
        let _log = log;
        let at = s.page_block(h.page());
        write_block(disk, self.port, at, h.bytes(pool))?;
        self.sent.push(h.as_sent());
        Ok(())
    }

    /// Covers the pages with one barrier: then each block that no other port has written holds what it
    /// holds now, whatever a stop leaves.
    pub fn cover<D: Disk>(self, disk: &mut D) -> Result<Covered, DevFault>
        requires port { IsPort self.port.0 }
        requires live { (D.state disk.old).live self.port.0 ≡ true }
        ensures keeps { Keeps self.port.0 (D.state disk.old) (D.state disk.new) }
        ensures cause { IfErr result (λ fault. Caused fault (D.state disk.old) (D.state disk.new)) }
        ensures fault { IfErr result (IsStopOf self.port.0) }
        ensures live { OnOk result ((D.state disk.new).live self.port.0 ≡ true) }
        ensures stopped { OnErr result ((D.state disk.new).live self.port.0 ≡ false) }
        ensures sent { IfOk result (λ c. c ≡ self.sent) }
        ensures outcomes { IsTrue D.told → Narrows (D.state disk.old).block (D.state disk.new).block }
        ensures writers { IsTrue D.told → NoNewWriter (D.state disk.old).block (D.state disk.new).block }
        ensures foreign { IsTrue D.told → KeepsForeign self.port.0 (D.state disk.old).block (D.state disk.new).block }
        ensures covered { OnOk result (IsTrue D.told → Covers self.port.0 (D.state disk.old).block (D.state disk.new).block) }
        ensures cut { OnErr result (IsTrue D.told → Settles self.port.0 (D.state disk.old).block (D.state disk.new).block) }
    {
        let Batch { port, sent } = self;
        cover(disk, port)?;
        Ok(Covered { sent })
    }
}

impl Covered {
    /// The token for the end of the changes of a page that is among those that were covered.
    pub fn written(&self, x: PageNo) -> Written
        requires { IsSome (sent_at x self.now) }
        ensures { sent_at x self.now ≡ Some result }
    {
        let page = find_sent(&self.sent, x).unwrap();
        Written { page }
    }
}
