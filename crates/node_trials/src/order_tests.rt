//! The log records of a page reach the device before the page does, and pages that are flushed together
//! in rising order and under one barrier.

ghost use Rattle.node_trials.specs.Bench.{IsReady};

use crate::bench::Bench;
use crate::store::{MAP, SHAPE, new_bench, value};
use Deed::{Barrier, Write};
use device_trials::{Deed, WatchedDisk};
use sd_base::{BlockNo, Disk, PageNo};
use std::process::Abort;
use std::test::Fail;

const FIRST: PageNo = PageNo(1);

const SECOND: PageNo = PageNo(2);

const THIRD: PageNo = PageNo(3);

const FIRST_BLOCK: BlockNo = BlockNo(11);

const SECOND_BLOCK: BlockNo = BlockNo(12);

const THIRD_BLOCK: BlockNo = BlockNo(13);

/// The first blocks of the ring, of six records each.
const FIRST_LOG: BlockNo = BlockNo(2);

const SECOND_LOG: BlockNo = BlockNo(3);

const THIRD_LOG: BlockNo = BlockNo(4);

/// Changes a page so many times.
fn change<D: Disk>(rt: &impl Abort, bench: &mut Bench<D>, x: PageNo, times: u8)
    requires ready { IsReady SHAPE D.told (D.state bench.old.disk) bench.old.pool bench.old.owners bench.old.cache }
    ensures ready { IsReady SHAPE D.told (D.state bench.new.disk) bench.new.pool bench.new.owners bench.new.cache }
{
    for byte in 0..times {
        bench
            .change(rt, x, value(rt, x, byte))
            .expect(rt, "a change");
    }
}

/// Writes a page, and compares what the device is told meanwhile.
fn flush<D: Disk>(rt: &impl Abort, bench: &mut Bench<WatchedDisk<D>>, x: PageNo, deeds: &[Deed])
    requires ready { IsReady SHAPE D.told (⟦<WatchedDisk<D> as Disk>⟧.state bench.old.disk) bench.old.pool bench.old.owners bench.old.cache }
    ensures ready { IsReady SHAPE D.told (⟦<WatchedDisk<D> as Disk>⟧.state bench.new.disk) bench.new.pool bench.new.owners bench.new.cache }
{
    bench.watch(0, 0);
    bench.flush_page(x).expect(rt, "a write");
    assert_eq!(rt; bench.disk.deeds(), deeds, "{x:?}");
}

/// Two changed pages, whose records are in memory alone.
fn try_two<D: Disk>(rt: &impl Abort, bench: &mut Bench<WatchedDisk<D>>)
    requires ready { IsReady SHAPE D.told (⟦<WatchedDisk<D> as Disk>⟧.state bench.old.disk) bench.old.pool bench.old.owners bench.old.cache }
    ensures ready { IsReady SHAPE D.told (⟦<WatchedDisk<D> as Disk>⟧.state bench.new.disk) bench.new.pool bench.new.owners bench.new.cache }
{
    bench.watch(0, 0);
    bench.fetch_all(rt, &[MAP, FIRST, SECOND]);
    let numbers = bench.change_both(rt, FIRST, SECOND);
    assert_eq!(rt; numbers, Ok([0, 1]));
    assert_eq!(rt; bench.disk.deeds(), [].as_slice());
    let page = [Write(FIRST_LOG), Barrier, Write(FIRST_BLOCK), Barrier];
    flush(rt, bench, FIRST, &page);
    // The records of both pages are stable now.
    let page = [Write(SECOND_BLOCK), Barrier];
    flush(rt, bench, SECOND, &page);
    flush(rt, bench, SECOND, &[]);
}

/// A page with more records than a block of the log has: the full block is written as it fills.
fn try_many<D: Disk>(rt: &impl Abort, bench: &mut Bench<WatchedDisk<D>>)
    requires ready { IsReady SHAPE D.told (⟦<WatchedDisk<D> as Disk>⟧.state bench.old.disk) bench.old.pool bench.old.owners bench.old.cache }
    ensures ready { IsReady SHAPE D.told (⟦<WatchedDisk<D> as Disk>⟧.state bench.new.disk) bench.new.pool bench.new.owners bench.new.cache }
{
    bench.watch(0, 0);
    bench.fetch_all(rt, &[MAP, FIRST, SECOND]);
    change(rt, bench, FIRST, 7);
    assert_eq!(rt; bench.disk.deeds(), [Write(FIRST_LOG)].as_slice());
    let page = [
        Barrier,
        Write(SECOND_LOG),
        Barrier,
        Write(FIRST_BLOCK),
        Barrier,
    ];
    flush(rt, bench, FIRST, &page);
}

/// A page with changes leaves a full cache: its record, one of 15, is stable before it is written.
fn try_room<D: Disk>(rt: &impl Abort, bench: &mut Bench<WatchedDisk<D>>)
    requires ready { IsReady SHAPE D.told (⟦<WatchedDisk<D> as Disk>⟧.state bench.old.disk) bench.old.pool bench.old.owners bench.old.cache }
    ensures ready { IsReady SHAPE D.told (⟦<WatchedDisk<D> as Disk>⟧.state bench.new.disk) bench.new.pool bench.new.owners bench.new.cache }
{
    bench.change_in_turn(rt, 15);
    bench.watch(0, 0);
    bench.fetch_all(rt, &[PageNo(16)]);
    let page = Write(FIRST_BLOCK);
    let deeds = [Barrier, Write(THIRD_LOG), Barrier, page, Barrier];
    assert_eq!(rt; bench.disk.deeds(), deeds.as_slice());
}

/// Three changed pages that came in and were changed in another order than that of their numbers.
fn try_all<D: Disk>(rt: &impl Abort, bench: &mut Bench<WatchedDisk<D>>)
    requires ready { IsReady SHAPE D.told (⟦<WatchedDisk<D> as Disk>⟧.state bench.old.disk) bench.old.pool bench.old.owners bench.old.cache }
    ensures ready { IsReady SHAPE D.told (⟦<WatchedDisk<D> as Disk>⟧.state bench.new.disk) bench.new.pool bench.new.owners bench.new.cache }
{
    bench.fetch_all(rt, &[MAP, THIRD, FIRST, SECOND]);
    change(rt, bench, SECOND, 1);
    change(rt, bench, THIRD, 2);
    change(rt, bench, FIRST, 1);
    bench.watch(0, 0);
    let done = bench.flush_all();
    assert_eq!(rt; done, Ok(3));
    let deeds = [
        Write(FIRST_LOG),
        Barrier,
        Write(FIRST_BLOCK),
        Write(SECOND_BLOCK),
        Write(THIRD_BLOCK),
        Barrier,
    ];
    assert_eq!(rt; bench.disk.deeds(), deeds.as_slice());
}

#[test]
fn pages_are_flushed_in_rising_order_under_one_barrier(rt: HostRuntime) -> Result<(), Fail> {
    let mut bench = new_bench(rt.alloc(), 3)?;
    try_all(&rt, &mut bench);
    bench.end(0);
    Ok(())
}

#[test]
fn records_reach_the_device_before_their_page(rt: HostRuntime) -> Result<(), Fail> {
    let mut bench = new_bench(rt.alloc(), 2)?;
    try_two(&rt, &mut bench);
    bench.end(0);
    let mut bench = new_bench(rt.alloc(), 2)?;
    try_many(&rt, &mut bench);
    bench.end(0);
    let mut bench = new_bench(rt.alloc(), 16)?;
    try_room(&rt, &mut bench);
    bench.end(0);
    Ok(())
}
