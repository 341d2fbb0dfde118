//! Which page leaves a full cache, and what its block holds then.

ghost use Rattle.std.specs.Prelude.{◌<◌};
ghost use Rattle.node_trials.specs.Bench.{IsReady};

use crate::bench::Bench;
use crate::store::{MAP, NODE, PAGES, SHAPE, born, changed, new_bench};
use page_owner::Own;
use sd_base::{Disk, PageNo};
use std::process::Abort;
use std::test::Fail;

const FIRST: PageNo = PageNo(1);

const SECOND: PageNo = PageNo(2);

const THIRD: PageNo = PageNo(3);

/// A changed page has left the cache, and its block holds the change.
fn check_gone<D: Disk>(rt: &impl Abort, bench: &mut Bench<D>, x: PageNo)
    requires page { x.0 < PAGES }
    requires ready { IsReady SHAPE D.told (D.state bench.old.disk) bench.old.pool bench.old.owners bench.old.cache }
    ensures ready { IsReady SHAPE D.told (D.state bench.new.disk) bench.new.pool bench.new.owners bench.new.cache }
{
    assert!(rt; !bench.cache.has(x));
    assert!(rt; !bench.cache.is_dirty(x));
    assert_eq!(rt; bench.owners.state(x), Own::Parked(NODE));
    assert!(rt; bench.stores(x, &changed(rt, x, SHAPE.birth, 7)));
}

/// What 17 changed pages have left of a cache of 16, beside the map page.
fn check_left<D: Disk>(rt: &impl Abort, bench: &mut Bench<D>)
    requires ready { IsReady SHAPE D.told (D.state bench.old.disk) bench.old.pool bench.old.owners bench.old.cache }
    ensures ready { IsReady SHAPE D.told (D.state bench.new.disk) bench.new.pool bench.new.owners bench.new.cache }
{
    check_gone(rt, bench, FIRST);
    check_gone(rt, bench, SECOND);
    // The page that came in next stays, and its block is as the page was born.
    assert!(rt; *bench.view(rt, THIRD) == changed(rt, THIRD, SHAPE.birth, 7));
    assert!(rt; bench.cache.is_dirty(THIRD));
    assert!(rt; bench.stores(THIRD, &born(THIRD, SHAPE.birth)));
    assert_eq!(rt; bench.owners.state(THIRD), Own::Out(NODE));
    assert!(rt; bench.cache.has(MAP));
    assert_eq!(rt; bench.pool.free(), 0);
}

/// A hit leaves the order as it is, and a page that has left is fetched as it was changed.
fn check_again<D: Disk>(rt: &impl Abort, bench: &mut Bench<D>)
    requires ready { IsReady SHAPE D.told (D.state bench.old.disk) bench.old.pool bench.old.owners bench.old.cache }
    ensures ready { IsReady SHAPE D.told (D.state bench.new.disk) bench.new.pool bench.new.owners bench.new.cache }
{
    bench.fetch_all(rt, &[THIRD, FIRST]);
    assert!(rt; *bench.view(rt, FIRST) == changed(rt, FIRST, SHAPE.birth, 7));
    assert!(rt; !bench.cache.is_dirty(FIRST));
    assert!(rt; !bench.cache.has(THIRD));
    assert!(rt; bench.cache.has(PageNo(4)));
    assert!(rt; bench.cache.has(MAP));
    assert_eq!(rt; bench.owners.state(FIRST), Own::Out(NODE));
    assert_eq!(rt; bench.owners.state(THIRD), Own::Parked(NODE));
}

#[test]
fn a_changed_page_makes_room(rt: HostRuntime) -> Result<(), Fail> {
    let mut bench = new_bench(rt.alloc(), 17)?;
    bench.change_in_turn(&rt, 17);
    check_left(&rt, &mut bench);
    check_again(&rt, &mut bench);
    let remains = bench.end(0);
    assert_eq!(rt; remains.pool.free(), 16);
    Ok(())
}
