//! A bench to try a node's cache on: it checks what each call requires before it makes it.

ghost use Rattle.std.specs.Prelude.{◌≡◌, ◌+◌, ◌≤◌, ◌<◌, ℕ, Some, IfOk, IfErr, IsSome, OnOk, OnErr, length};
ghost use Rattle.sd_base.specs.Faults.{OnStop, StaysLive};
ghost use Rattle.sd_base.specs.declared.names.PageNo.{PageNo};
ghost use Rattle.sd_base.specs.declared.page_op.PageOp.{PageOp};
ghost use Rattle.frame_pool.specs.Frames.{free_count};
ghost use Rattle.page_owner.specs.declared.owners.Own.TheVariants.{Nobody};
ghost use Rattle.page_owner.specs.Owners.{owner_of};
ghost use Rattle.log_record.specs.Legal.{IsLegal};
ghost use Rattle.log_record.specs.Record.{page_op_of};
ghost use Rattle.private_log.specs.Log.{SameLog};
ghost use Rattle.node_cache.specs.Cache.{FitsCached};
ghost use Rattle.node_cache.specs.Room.{IsEntryOf};
ghost use Rattle.node_trials.specs.Bench.{IsBroken, IsReadyDevice, IsReady, IsViewed, IsWhole};

use crate::store::{MAP, NODE, PAGES, SHAPE, value};
use device_trials::WatchedDisk;
use frame_pool::Pool;
use log_record::{LogRecord, is_legal};
use node_cache::NodeCache;
use page_image::{identifier, slot};
use page_owner::{Own, Owners};
use private_log::Log;
use sd_base::{Block, DevFault, Disk, NodeId, PageNo, ReadAnswer, Value};
use space_map::{MapEntry, entry};
use std::process::Abort;

/// The port through which a test looks at the device behind the node's back.
const READER: NodeId = NodeId(2);

/// A node with its cache, and all that the calls of the cache are given.
pub(crate) struct Bench<D> {
    pub(crate) disk: D,
    pub(crate) pool: Pool,
    pub(crate) owners: Owners,
    pub(crate) cache: NodeCache,
}

/// What is left of a bench whose cache has ended.
#[derive(Drop)]
pub(crate) struct Remains<D> {
    pub(crate) disk: D,
    pub(crate) pool: Pool,
    pub(crate) owners: Owners,
}

impl<D: Disk + Drop> Bench<D> {
    /// A node with an empty cache. No page is anybody's yet.
    pub(crate) fn open(mut disk: D, pool: Pool, owners: Owners) -> Result<Bench<D>, DevFault>
        requires quiet { IsReadyDevice SHAPE NODE.0 D.told (D.state disk) }
        requires frames { 16 ≤ free_count pool }
        requires table { PAGES ≤ length owners }
        requires nobody { (x : ℕ) → owner_of owners x ≡ Nobody }
        ensures { IfOk result (λ b. IsReady SHAPE D.told (D.state b.disk) b.pool b.owners b.cache) }
    {
        let log = Log::attach(&mut disk, &SHAPE, NODE, NODE)?;
        let cache = NodeCache::new(log, NODE);
        Ok(Bench {
            disk,
            pool,
            owners,
            cache,
        })
    }
}

impl<D: Disk> Bench<D> {
    /// What the frame of a cached page holds.
    pub(crate) fn view<'a>(&'a self, rt: &impl Abort, x: PageNo) -> &'a Block
        requires { IsReady SHAPE D.told (D.state self.now.disk) self.now.pool self.now.owners self.now.cache }
        ensures { IsViewed SHAPE self.now.pool self.now.cache.pages x result.now }
    {
        assert!(rt; self.cache.has(x), "{x:?} is not cached");
        self.cache.view(&self.pool, x)
    }

    /// The map entry of a page, which stands in its map page. A map page has none.
    fn entry(&self, rt: &impl Abort, x: PageNo) -> Option<MapEntry>
        requires page { x.0 < PAGES }
        requires ready { IsReady SHAPE D.told (D.state self.now.disk) self.now.pool self.now.owners self.now.cache }
        ensures { IsEntryOf SHAPE self.now.pool self.now.cache x result }
    {
        if x.0 < SHAPE.maps {
            return None;
        }
        let map = self.view(rt, SHAPE.map_of_data(x));
        Some(entry(map, SHAPE.place_of_page(x)))
    }

    /// Makes a page cached, whose map page is cached already.
    pub(crate) fn fetch(&mut self, rt: &impl Abort, x: PageNo) -> Result<(), DevFault>
        requires ready { IsReady SHAPE D.told (D.state self.old.disk) self.old.pool self.old.owners self.old.cache }
        ensures ready { StaysLive result (IsReady SHAPE D.told (D.state self.new.disk) self.new.pool self.new.owners self.new.cache) }
        ensures broken { IfErr result (λ fault. OnStop fault (IsBroken SHAPE (D.state self.new.disk) self.new.pool self.new.owners self.new.cache)) }
        ensures node { self.new.cache.node ≡ self.old.cache.node }
        ensures same { SameLog self.old.cache.log self.new.cache.log }
        ensures tail { self.new.cache.log.tail ≡ self.old.cache.log.tail }
    {
        assert!(rt; x.0 < PAGES, "{x:?} is no page");
        let e = self.entry(rt, x);
        let owner = self.owners.state(x);
        assert!(rt; owner == Own::Nobody || owner == Own::Parked(NODE) || owner == Own::Out(NODE));
        self.cache.fetch(
            &mut self.disk,
            &SHAPE,
            &mut self.pool,
            &mut self.owners,
            x,
            e,
        )
    }

    /// Makes pages cached that can be read, one after the other.
    pub(crate) fn fetch_all(&mut self, rt: &impl Abort, pages: &[PageNo])
        requires ready { IsReady SHAPE D.told (D.state self.old.disk) self.old.pool self.old.owners self.old.cache }
        ensures ready { IsReady SHAPE D.told (D.state self.new.disk) self.new.pool self.new.owners self.new.cache }
    {
        for x in pages {
            self.fetch(rt, *x).expect(rt, "a page");
        }
    }

    /// The record of a put of slot 0 of a cached data page.
    fn record(&self, rt: &impl Abort, x: PageNo, value: Value) -> LogRecord
        requires { IsReady SHAPE D.told (D.state self.now.disk) self.now.pool self.now.owners self.now.cache }
        ensures legal { IsLegal result }
        ensures change { IsSome (page_op_of result) }
        ensures fits { (y : PageNo) (ident : ℕ) (op : PageOp) → page_op_of result ≡ Some (y, ident, op) → FitsCached self.now.pool self.now.cache.pages y ident op }
    {
        assert!(rt; x.0 >= SHAPE.maps, "{x:?} is no data page");
        let page = self.view(rt, x);
        let rec = LogRecord::Set {
            txn: 0,
            prev: 0,
            page: x,
            bsi: identifier(page),
            slot: 0,
            before: slot(page, 0),
            after: Some(value),
        };
        assert!(rt; is_legal(&rec));
        rec
    }

    /// Puts a value into slot 0 of a cached data page, and answers the number of the record.
    pub(crate) fn change(
        &mut self,
        rt: &impl Abort,
        x: PageNo,
        value: Value,
    ) -> Result<u64, DevFault>
        requires ready { IsReady SHAPE D.told (D.state self.old.disk) self.old.pool self.old.owners self.old.cache }
        ensures ready { OnOk result (IsReady SHAPE D.told (D.state self.new.disk) self.new.pool self.new.owners self.new.cache) }
        ensures broken { OnErr result (IsBroken SHAPE (D.state self.new.disk) self.new.pool self.new.owners self.new.cache) }
    {
        let rec = self.record(rt, x, value);
        assert!(rt; self.cache.log().space() > 0, "the log is full");
        self.cache.change(&mut self.disk, &mut self.pool, &rec)
    }

    /// Changes two cached data pages one after the other, and answers the numbers of the records.
    pub(crate) fn change_both(
        &mut self,
        rt: &impl Abort,
        first: PageNo,
        second: PageNo,
    ) -> Result<[u64; 2], DevFault>
        requires ready { IsReady SHAPE D.told (D.state self.old.disk) self.old.pool self.old.owners self.old.cache }
        ensures ready { OnOk result (IsReady SHAPE D.told (D.state self.new.disk) self.new.pool self.new.owners self.new.cache) }
        ensures broken { OnErr result (IsBroken SHAPE (D.state self.new.disk) self.new.pool self.new.owners self.new.cache) }
    {
        let one = self.change(rt, first, value(rt, first, 1))?;
        let two = self.change(rt, second, value(rt, second, 2))?;
        Ok([one, two])
    }

    /// Fetches the map page, and then the first data pages, each of which is changed when it has come.
    pub(crate) fn change_in_turn(&mut self, rt: &impl Abort, pages: u32)
        requires pages { pages ≤ 252 }
        requires ready { IsReady SHAPE D.told (D.state self.old.disk) self.old.pool self.old.owners self.old.cache }
        ensures ready { IsReady SHAPE D.told (D.state self.new.disk) self.new.pool self.new.owners self.new.cache }
    {
        self.fetch_all(rt, &[MAP]);
        for x in 1..pages + 1 {
            let page = PageNo(x);
            self.fetch_all(rt, &[page]);
            self.change(rt, page, value(rt, page, 7))
                .expect(rt, "a change");
        }
    }

    /// Writes a page that has changes to its block.
    pub(crate) fn flush_page(&mut self, x: PageNo) -> Result<(), DevFault>
        requires ready { IsReady SHAPE D.told (D.state self.old.disk) self.old.pool self.old.owners self.old.cache }
        ensures ready { OnOk result (IsReady SHAPE D.told (D.state self.new.disk) self.new.pool self.new.owners self.new.cache) }
        ensures broken { OnErr result (IsBroken SHAPE (D.state self.new.disk) self.new.pool self.new.owners self.new.cache) }
    {
        self.cache.flush_page(&mut self.disk, &SHAPE, &self.pool, x)
    }

    /// Writes all pages that have changes, and answers their number.
    pub(crate) fn flush_all(&mut self) -> Result<u32, DevFault>
        requires ready { IsReady SHAPE D.told (D.state self.old.disk) self.old.pool self.old.owners self.old.cache }
        ensures ready { OnOk result (IsReady SHAPE D.told (D.state self.new.disk) self.new.pool self.new.owners self.new.cache) }
        ensures broken { OnErr result (IsBroken SHAPE (D.state self.new.disk) self.new.pool self.new.owners self.new.cache) }
    {
        self.cache.flush_all(&mut self.disk, &SHAPE, &self.pool)
    }

    /// Gives up a page that the node has.
    pub(crate) fn surrender(&mut self, rt: &impl Abort, x: PageNo) -> Result<(), DevFault>
        requires ready { IsReady SHAPE D.told (D.state self.old.disk) self.old.pool self.old.owners self.old.cache }
        ensures ready { OnOk result (IsReady SHAPE D.told (D.state self.new.disk) self.new.pool self.new.owners self.new.cache) }
        ensures broken { OnErr result (IsBroken SHAPE (D.state self.new.disk) self.new.pool self.new.owners self.new.cache) }
    {
        assert!(rt; x.0 < PAGES, "{x:?} is no page");
        let owner = self.owners.state(x);
        assert!(rt; owner == Own::Parked(NODE) || owner == Own::Out(NODE));
        self.cache.surrender(&mut self.disk, &SHAPE, &mut self.pool, &mut self.owners, x)
    }

    /// Whether the block of a page holds this on the device, read through a port that isn't the node's.
    pub(crate) fn stores(&mut self, x: PageNo, content: &Block) -> bool
        requires page { x.0 < PAGES }
        requires ready { IsReady SHAPE D.told (D.state self.old.disk) self.old.pool self.old.owners self.old.cache }
        ensures ready { IsReady SHAPE D.told (D.state self.new.disk) self.new.pool self.new.owners self.new.cache }
    {
        let mut block = [0; 4096];
        self.disk.start(READER);
        let answer = self.disk.read(READER, SHAPE.page_block(x), &mut block);
        answer == ReadAnswer::Done && block == *content
    }

    /// Stops the node's port, and ends the cache.
    pub(crate) fn end(mut self, picks: u64) -> Remains<D>
        requires ready { IsReady SHAPE D.told (D.state self.disk) self.pool self.owners self.cache }
        ensures table { PAGES ≤ length result.owners }
        ensures whole { IsWhole SHAPE (D.state result.disk) }
    {
        let node = self.cache.log().node();
        self.disk.stop(node, picks);
        self.wreck()
    }

    /// Ends the cache, whose port has stopped.
    pub(crate) fn wreck(self) -> Remains<D>
        requires broken { IsBroken SHAPE (D.state self.disk) self.pool self.owners self.cache }
        ensures table { PAGES ≤ length result.owners }
        ensures whole { IsWhole SHAPE (D.state result.disk) }
    {
        let Bench {
            disk,
            mut pool,
            mut owners,
            cache,
        } = self;
        cache.wreck(&disk, &mut pool, &mut owners);
        Remains { disk, pool, owners }
    }
}

impl<D: Disk> Bench<WatchedDisk<D>> {
    /// Notes what the device is told from here on, and stops the port at a call from here on.
    pub(crate) fn watch(&mut self, stop_at: u64, picks: u64)
        requires ready { IsReady SHAPE D.told (⟦<WatchedDisk<D> as Disk>⟧.state self.old.disk) self.old.pool self.old.owners self.old.cache }
        ensures ready { IsReady SHAPE D.told (⟦<WatchedDisk<D> as Disk>⟧.state self.new.disk) self.new.pool self.new.owners self.new.cache }
    {
        self.disk.watch(stop_at, picks);
    }
}
