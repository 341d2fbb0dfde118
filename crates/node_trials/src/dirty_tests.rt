//! Which pages count as changed, and from which log record on.

ghost use Rattle.node_trials.specs.Bench.{IsReady};

use crate::bench::Bench;
use crate::store::{MAP, SHAPE, new_bench, value};
use sd_base::{Disk, PageNo};
use std::process::Abort;
use std::test::Fail;

const FIRST: PageNo = PageNo(1);

const SECOND: PageNo = PageNo(2);

/// Changes a page, and compares the number of the record and the least number that a block hasn't.
fn change<D: Disk>(rt: &impl Abort, bench: &mut Bench<D>, x: PageNo, number: u64, least: u64)
    requires ready { IsReady SHAPE D.told (D.state bench.old.disk) bench.old.pool bench.old.owners bench.old.cache }
    ensures ready { IsReady SHAPE D.told (D.state bench.new.disk) bench.new.pool bench.new.owners bench.new.cache }
{
    let done = bench.change(rt, x, value(rt, x, 7));
    assert_eq!(rt; done, Ok(number));
    assert_eq!(rt; bench.cache.first_dirty(), Some(least));
    assert!(rt; bench.cache.is_dirty(x));
}

/// Writes all pages, and compares their number.
fn flush_all<D: Disk>(rt: &impl Abort, bench: &mut Bench<D>, count: u32)
    requires ready { IsReady SHAPE D.told (D.state bench.old.disk) bench.old.pool bench.old.owners bench.old.cache }
    ensures ready { IsReady SHAPE D.told (D.state bench.new.disk) bench.new.pool bench.new.owners bench.new.cache }
{
    let done = bench.flush_all();
    assert_eq!(rt; done, Ok(count));
    assert_eq!(rt; bench.cache.first_dirty(), None);
}

/// Pages that are fetched have no changes.
fn fetch_clean<D: Disk>(rt: &impl Abort, bench: &mut Bench<D>)
    requires ready { IsReady SHAPE D.told (D.state bench.old.disk) bench.old.pool bench.old.owners bench.old.cache }
    ensures ready { IsReady SHAPE D.told (D.state bench.new.disk) bench.new.pool bench.new.owners bench.new.cache }
{
    assert_eq!(rt; bench.cache.first_dirty(), None);
    assert!(rt; !bench.cache.is_dirty(FIRST));
    bench.fetch_all(rt, &[MAP, FIRST, SECOND]);
    assert_eq!(rt; bench.cache.first_dirty(), None);
    assert!(rt; !bench.cache.is_dirty(FIRST));
}

/// The oldest change is that of the first page until that page is written, and then the second one's.
fn write_the_oldest<D: Disk>(rt: &impl Abort, bench: &mut Bench<D>)
    requires ready { IsReady SHAPE D.told (D.state bench.old.disk) bench.old.pool bench.old.owners bench.old.cache }
    ensures ready { IsReady SHAPE D.told (D.state bench.new.disk) bench.new.pool bench.new.owners bench.new.cache }
{
    change(rt, bench, FIRST, 0, 0);
    assert!(rt; !bench.cache.is_dirty(SECOND));
    change(rt, bench, FIRST, 1, 0);
    change(rt, bench, SECOND, 2, 0);
    change(rt, bench, FIRST, 3, 0);
    bench.flush_page(FIRST).expect(rt, "a write");
    assert_eq!(rt; bench.cache.first_dirty(), Some(2));
    assert!(rt; !bench.cache.is_dirty(FIRST));
    assert!(rt; bench.cache.is_dirty(SECOND));
    // The first page is changed anew, by a later record.
    change(rt, bench, FIRST, 4, 2);
    bench.flush_page(SECOND).expect(rt, "a write");
    assert_eq!(rt; bench.cache.first_dirty(), Some(4));
    change(rt, bench, SECOND, 5, 4);
}

#[test]
fn first_dirty_and_is_dirty(rt: HostRuntime) -> Result<(), Fail> {
    let mut bench = new_bench(rt.alloc(), 2)?;
    fetch_clean(&rt, &mut bench);
    write_the_oldest(&rt, &mut bench);
    flush_all(&rt, &mut bench, 2);
    flush_all(&rt, &mut bench, 0);
    bench.end(0);
    Ok(())
}
