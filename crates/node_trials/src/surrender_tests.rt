//! A node gives up a page that is as on its block, one with changes, and one that is parked.

ghost use Rattle.std.specs.Prelude.{◌<◌};
ghost use Rattle.node_trials.specs.Bench.{IsReady};

use crate::bench::Bench;
use crate::store::{MAP, NODE, PAGES, SHAPE, changed, new_bench};
use Deed::{Barrier, Write};
use device_trials::{Deed, WatchedDisk};
use page_owner::Own;
use sd_base::{BlockNo, Disk, PageNo};
use std::process::Abort;
use std::test::Fail;

const FIRST: PageNo = PageNo(1);

const SECOND: PageNo = PageNo(2);

/// The first block of the ring, and the block of the first page.
const LOG: BlockNo = BlockNo(2);

const FIRST_BLOCK: BlockNo = BlockNo(11);

/// Gives up a page, and compares what the device is told meanwhile. The page is nobody's then.
fn surrender<D: Disk>(rt: &impl Abort, bench: &mut Bench<WatchedDisk<D>>, x: PageNo, deeds: &[Deed])
    requires page { x.0 < PAGES }
    requires ready { IsReady SHAPE D.told (⟦<WatchedDisk<D> as Disk>⟧.state bench.old.disk) bench.old.pool bench.old.owners bench.old.cache }
    ensures ready { IsReady SHAPE D.told (⟦<WatchedDisk<D> as Disk>⟧.state bench.new.disk) bench.new.pool bench.new.owners bench.new.cache }
{
    bench.watch(0, 0);
    bench.surrender(rt, x).expect(rt, "a page to give up");
    assert_eq!(rt; bench.disk.deeds(), deeds, "{x:?}");
    assert_eq!(rt; bench.owners.state(x), Own::Nobody);
    assert!(rt; !bench.cache.has(x));
}

/// A page without changes is given up without a word to the device, and its frame is free.
fn try_clean<D: Disk>(rt: &impl Abort, bench: &mut Bench<WatchedDisk<D>>)
    requires ready { IsReady SHAPE D.told (⟦<WatchedDisk<D> as Disk>⟧.state bench.old.disk) bench.old.pool bench.old.owners bench.old.cache }
    ensures ready { IsReady SHAPE D.told (⟦<WatchedDisk<D> as Disk>⟧.state bench.new.disk) bench.new.pool bench.new.owners bench.new.cache }
{
    bench.fetch_all(rt, &[MAP, FIRST, SECOND]);
    assert_eq!(rt; bench.pool.free(), 13);
    surrender(rt, bench, FIRST, &[]);
    assert_eq!(rt; bench.pool.free(), 14);
    assert!(rt; bench.cache.has(MAP));
    assert!(rt; bench.cache.has(SECOND));
}

/// A page with changes is written behind the log. The changes of the other page stay where they are.
fn try_changed<D: Disk>(rt: &impl Abort, bench: &mut Bench<WatchedDisk<D>>)
    requires ready { IsReady SHAPE D.told (⟦<WatchedDisk<D> as Disk>⟧.state bench.old.disk) bench.old.pool bench.old.owners bench.old.cache }
    ensures ready { IsReady SHAPE D.told (⟦<WatchedDisk<D> as Disk>⟧.state bench.new.disk) bench.new.pool bench.new.owners bench.new.cache }
{
    bench.fetch_all(rt, &[FIRST]);
    assert_eq!(rt;
        bench
            .change_both(rt, FIRST, SECOND)
            .expect(rt, "two changes"),
        [0, 1]
    );
    let page = [Write(LOG), Barrier, Write(FIRST_BLOCK), Barrier];
    surrender(rt, bench, FIRST, &page);
    assert!(rt; bench.stores(FIRST, &changed(rt, FIRST, SHAPE.birth, 1)));
    assert!(rt; bench.cache.is_dirty(SECOND));
    assert_eq!(rt; bench.cache.first_dirty(), Some(1));
    // The next one who fetches the page finds the change.
    bench.fetch_all(rt, &[FIRST]);
    assert!(rt; *bench.view(rt, FIRST) == changed(rt, FIRST, SHAPE.birth, 1));
    assert!(rt; !bench.cache.is_dirty(FIRST));
}

/// The first page has left a full cache and is parked. It is given up, and the cache stays as it is.
fn try_parked<D: Disk>(rt: &impl Abort, bench: &mut Bench<WatchedDisk<D>>)
    requires ready { IsReady SHAPE D.told (⟦<WatchedDisk<D> as Disk>⟧.state bench.old.disk) bench.old.pool bench.old.owners bench.old.cache }
    ensures ready { IsReady SHAPE D.told (⟦<WatchedDisk<D> as Disk>⟧.state bench.new.disk) bench.new.pool bench.new.owners bench.new.cache }
{
    bench.change_in_turn(rt, 16);
    assert_eq!(rt; bench.owners.state(FIRST), Own::Parked(NODE));
    surrender(rt, bench, FIRST, &[]);
    assert_eq!(rt; bench.pool.free(), 0);
    assert!(rt; bench.cache.is_dirty(SECOND));
    assert!(rt; bench.stores(FIRST, &changed(rt, FIRST, SHAPE.birth, 7)));
}

#[test]
fn a_page_is_given_up(rt: HostRuntime) -> Result<(), Fail> {
    let mut bench = new_bench(rt.alloc(), 2)?;
    try_clean(&rt, &mut bench);
    try_changed(&rt, &mut bench);
    bench.end(0);
    let mut bench = new_bench(rt.alloc(), 16)?;
    try_parked(&rt, &mut bench);
    bench.end(0);
    Ok(())
}
