//! One cached page: it is as on its block, or has changes that its block hasn't.

ghost use Rattle.std.specs.Prelude.{◌≡◌, ◌≢◌, ◌<◌, ◌++◌, ◌∷◌, [], ℕ, List, Some, None, true, false, IsTrue, IfErr, OnOk, OnErr, length};
ghost use Rattle.sd_base.specs.Disk.{IsPort, IsFreeFor};
ghost use Rattle.sd_base.specs.Calls.{Keeps, NarrowsBut, NoNewWriterBut, KeepsForeignBut, Writes, CutsWrite};
ghost use Rattle.sd_base.specs.Faults.{Caused, IsStopOf};
ghost use Rattle.sd_base.specs.Shape.{IsShape, page_count};
ghost use Rattle.frame_pool.specs.Frames.{IsOut, frame_at};
ghost use Rattle.state_ids.specs.PageImage.{PageImage, page_of, ident_of, is_map, is_map_op, changed};
ghost use Rattle.state_ids.specs.Held.{Shows, KeepsFrames};
ghost use Rattle.state_ids.specs.Batch.{sent_at};
ghost use Rattle.state_ids.specs.Blocks.{page_place};
ghost use Rattle.node_cache.specs.Cache.{Changes, IsStableTo, changed_by, first_change, written_back};
ghost use Rattle.node_cache.specs.Places.{shown};
ghost use Rattle.node_cache.specs.Sending.{IsSent, sent_as};

use frame_pool::{Frame, Pool};
use page_owner::Ticket;
use private_log::Log;
use sd_base::{Block, DevFault, Disk, NodeId, PageNo, Shape};
use space_map::MapEntry;
use state_ids::{Batch, Clean, Covered, Dirty, Held, Logged};

/// A page of the cache, with the map entry under which it was read.
pub(crate) enum Slot {
    /// The page is what its block stands for.
    Clean {
        page: Held<Clean>,
        entry: Option<MapEntry>,
    },
    /// The page has changes that its block hasn't, from the record with the number `first` on.
    Dirty {
        page: Held<Dirty>,
        entry: Option<MapEntry>,
        first: u64,
    },
}

impl Slot {
    /// The number of the page.
    pub(crate) fn page(&self) -> PageNo
        ensures { result ≡ (shown self.now).ticket.page }
    {
        match self {
            Slot::Clean { page, .. } => page.page(),
            Slot::Dirty { page, .. } => page.page(),
        }
    }

    /// What the page's frame holds.
    pub(crate) fn bytes<'a>(&self, pool: &'a Pool) -> &'a Block
        requires { IsOut pool.now (shown self.now).frame }
        ensures { frame_at pool.now (shown self.now).frame ≡ Some result.now }
    {
        match self {
            Slot::Clean { page, .. } => page.bytes(pool),
            Slot::Dirty { page, .. } => page.bytes(pool),
        }
    }

    /// The number of the first record that the page's block hasn't.
    pub(crate) fn first(&self) -> Option<u64>
        ensures { result ≡ first_change (shown self.now) }
    {
        match self {
            Slot::Clean { .. } => None,
            Slot::Dirty { first, .. } => Some(*first),
        }
    }

    /// The page after the change of a log record.
    pub(crate) fn apply(self, pool: &mut Pool, l: Logged) -> Slot
        requires page { l.page ≡ (shown self).ticket.page }
        requires node { l.node ≡ (shown self).ticket.node }
        requires image { (image : PageImage) × Shows pool.old (shown self).frame image × (page_of image ≡ (shown self).ticket.page) × (ident_of image ≡ l.ident) × (is_map image ≡ is_map_op l.op) }
        ensures slot { shown result ≡ changed_by l.number (shown self) }
        ensures frames { KeepsFrames (shown self).frame pool.old pool.new }
        ensures image { (image : PageImage) → Shows pool.old (shown self).frame image → is_map image ≡ is_map_op l.op → Shows pool.new (shown self).frame (changed l.op image) }
    {
        let number = l.number();
        match self {
            Slot::Clean { page, entry } => Slot::Dirty {
                page: page.apply(pool, l),
                entry,
                first: number,
            },
            Slot::Dirty { page, entry, first } => Slot::Dirty {
                page: page.apply(pool, l),
                entry,
                first,
            },
        }
    }

    /// Writes a page that has changes to its block, as a part of a batch. It keeps its changes.
    pub(crate) fn send<D: Disk>(
        &self,
        batch: &mut Batch,
        disk: &mut D,
        s: &Shape,
        pool: &Pool,
        log: &Log,
    ) -> Result<(), DevFault>
        requires changed { (shown self.now).changes ≢ None }
        requires room { length batch.old.sent < 16 }
        requires once { sent_at (shown self.now).ticket.page batch.old.sent ≡ None }
        requires shape { IsShape s.now }
        requires page { (shown self.now).ticket.page.0 < page_count s.now }
        requires out { IsOut pool.now (shown self.now).frame }
        requires node { log.now.node ≡ (shown self.now).ticket.node }
        requires stable { IsStableTo log.now.stable (shown self.now).changes }
        requires port { IsPort batch.old.port.0 }
        requires live { (D.state disk.old).live batch.old.port.0 ≡ true }
        requires reach { (D.state disk.old).reach (page_place s.now (shown self.now).ticket.page) ≡ true }
        requires free { IsTrue D.told → IsFreeFor batch.old.port.0 ((D.state disk.old).block (page_place s.now (shown self.now).ticket.page)) }
        ensures keeps { Keeps batch.old.port.0 (D.state disk.old) (D.state disk.new) }
        ensures cause { IfErr result (λ fault. Caused fault (D.state disk.old) (D.state disk.new)) }
        ensures fault { IfErr result (IsStopOf batch.old.port.0) }
        ensures live { OnOk result ((D.state disk.new).live batch.old.port.0 ≡ true) }
        ensures stopped { OnErr result ((D.state disk.new).live batch.old.port.0 ≡ false) }
        ensures port { batch.new.port ≡ batch.old.port }
        ensures sent { OnOk result ((c : Changes) → (shown self.now).changes ≡ Some c → batch.new.sent ≡ batch.old.sent ++ sent_as (shown self.now) c ∷ []) }
        ensures outcomes { IsTrue D.told → (b : List ℕ) → frame_at pool.now (shown self.now).frame ≡ Some b → NarrowsBut (page_place s.now (shown self.now).ticket.page) b (D.state disk.old).block (D.state disk.new).block }
        ensures writers { IsTrue D.told → NoNewWriterBut (page_place s.now (shown self.now).ticket.page) batch.old.port.0 (D.state disk.old).block (D.state disk.new).block }
        ensures foreign { IsTrue D.told → KeepsForeignBut (page_place s.now (shown self.now).ticket.page) batch.old.port.0 (D.state disk.old).block (D.state disk.new).block }
        ensures written { OnOk result (IsTrue D.told → (b : List ℕ) → frame_at pool.now (shown self.now).frame ≡ Some b → Writes batch.old.port.0 (page_place s.now (shown self.now).ticket.page) b (D.state disk.old).block (D.state disk.new).block) }
        ensures cut { OnErr result (IsTrue D.told → CutsWrite batch.old.port.0 (page_place s.now (shown self.now).ticket.page) (D.state disk.old).block (D.state disk.new).block) }
    {
        match self {
            Slot::Clean { .. } => unreachable!(),
            Slot::Dirty { page, .. } => batch.send(disk, s, pool, log, page),
        }
    }

    /// Ends the changes of the page, which was written with them and covered.
    pub(crate) fn written(self, covered: &Covered) -> Slot
        requires { IsSent covered.now (shown self) }
        ensures { shown result ≡ written_back (shown self) }
    {
        match self {
            Slot::Clean { page, entry } => Slot::Clean { page, entry },
            Slot::Dirty {
                page,
                entry,
                first: _first,
            } => {
                let w = covered.written(page.page());
                let page = page.written(w);
                Slot::Clean { page, entry }
            }
        }
    }

    /// Ends the stay of a page that has no changes.
    pub(crate) fn release(self) -> (Frame, Ticket)
        requires { (shown self).changes ≡ None }
        ensures frame { result.0 ≡ (shown self).frame }
        ensures ticket { result.1 ≡ (shown self).ticket }
    {
        match self {
            Slot::Clean {
                page,
                entry: _entry,
            } => page.release(),
            Slot::Dirty {
                page: _page,
                entry: _entry,
                first: _first,
            } => unreachable!(),
        }
    }

    /// Ends the stay of a page of a node whose port has stopped.
    pub(crate) fn wreck<D: Disk>(self, disk: &D, n: NodeId) -> (Frame, Ticket)
        requires port { IsPort n.0 }
        requires node { n ≡ (shown self).ticket.node }
        requires stopped { (D.state disk.now).live n.0 ≡ false }
        ensures frame { result.0 ≡ (shown self).frame }
        ensures ticket { result.1 ≡ (shown self).ticket }
    {
        match self {
            Slot::Clean {
                page,
                entry: _entry,
            } => page.release(),
            Slot::Dirty {
                page,
                entry: _entry,
                first: _first,
            } => page.wreck(disk, n),
        }
    }
}
