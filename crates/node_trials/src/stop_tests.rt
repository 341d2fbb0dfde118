//! A stop while pages are written leaves no page ahead of the log, nor takes one from its node.

ghost use Rattle.std.specs.Prelude.{◌≡◌, ◌≤◌, ◌<◌, true, length, OnOk};
ghost use Rattle.node_trials.specs.Bench.{IsReady, IsWhole};

use crate::bench::{Bench, Remains};
use crate::store::{MAP, NODE, PAGES, SHAPE, new_bench, value};
use device_trials::WatchedDisk;
use frame_pool::Pool;
use log_record::{LogRecord, decode};
use page_image::parse;
use page_owner::{Own, Owners};
use private_log::Log;
use sd_base::{DevFault, Disk, PageNo, read_block};
use std::process::Abort;
use std::test::Fail;

/// The pages of the records, in the order of the records.
const CHANGED: [PageNo; 4] = [PageNo(1), PageNo(2), PageNo(1), PageNo(3)];

/// What a stop has left: how many records are in the log, and the identifiers of pages 1 to 3.
#[derive(Clone, Copy, Debug, PartialEq, Eq)]
struct Left {
    records: u64,
    idents: [u64; 3],
}

/// How a call that writes pages is stopped: at which call of the device, and whether what was written
/// last stays.
#[derive(Clone, Copy, Debug)]
struct Stop {
    call: u64,
    picks: u64,
}

/// Fetches three pages and changes them, one of them twice, without forcing the log.
fn change_three<D: Disk>(rt: &impl Abort, bench: &mut Bench<D>)
    requires ready { IsReady SHAPE D.told (D.state bench.old.disk) bench.old.pool bench.old.owners bench.old.cache }
    ensures ready { IsReady SHAPE D.told (D.state bench.new.disk) bench.new.pool bench.new.owners bench.new.cache }
{
    bench.fetch_all(rt, &[MAP, PageNo(3), PageNo(1), PageNo(2)]);
    for (number, page) in CHANGED.iter().enumerate() {
        let after = value(rt, *page, number as u8);
        let done = bench.change(rt, *page, after);
        assert_eq!(rt; done, Ok(number as u64));
    }
}

/// Writes all pages, and ends the cache however that went.
fn flush_and_end<D: Disk>(rt: &impl Abort, mut bench: Bench<D>, stop: Stop) -> Remains<D>
    requires ready { IsReady SHAPE D.told (D.state bench.disk) bench.pool bench.owners bench.cache }
    ensures table { PAGES ≤ length result.owners }
    ensures whole { IsWhole SHAPE (D.state result.disk) }
{
    let done = bench.flush_all();
    if stop.call == 0 {
        assert_eq!(rt; done, Ok(3));
        bench.end(stop.picks)
    } else {
        assert_eq!(rt; done, Err(DevFault::Stopped(NODE)), "{stop:?}");
        bench.wreck()
    }
}

/// Gives up the first page, and ends the cache however that went. A page that was given up is nobody's,
/// and after a stop it is the node's still.
fn surrender_and_end<D: Disk>(rt: &impl Abort, mut bench: Bench<D>, stop: Stop) -> Remains<D>
    requires ready { IsReady SHAPE D.told (D.state bench.disk) bench.pool bench.owners bench.cache }
    ensures table { PAGES ≤ length result.owners }
    ensures whole { IsWhole SHAPE (D.state result.disk) }
{
    let done = bench.surrender(rt, PageNo(1));
    if stop.call == 0 {
        assert_eq!(rt; done, Ok(()));
        let remains = bench.end(stop.picks);
        assert_eq!(rt; remains.owners.state(PageNo(1)), Own::Nobody);
        remains
    } else {
        assert_eq!(rt; done, Err(DevFault::Stopped(NODE)), "{stop:?}");
        let remains = bench.wreck();
        assert_eq!(rt; remains.owners.state(PageNo(1)), Own::Parked(NODE));
        remains
    }
}

/// The record of this number, as it was appended.
fn appended(rt: &impl Abort, number: u64) -> LogRecord {
    let page = *CHANGED.get(number as usize).expect(rt, "a record");
    // The third record changes page 1 again, which the first one has changed.
    let (bsi, before) = if number == 2 {
        (SHAPE.birth + 1, Some(value(rt, page, 0)))
    } else {
        (SHAPE.birth, None)
    };
    LogRecord::Set {
        txn: 0,
        prev: 0,
        page,
        bsi,
        slot: 0,
        before,
        after: Some(value(rt, page, number as u8)),
    }
}

/// Attaches the log again, and answers how many records it has. They are the first that were appended.
fn read_log<D: Disk>(rt: &impl Abort, disk: &mut D) -> Result<u64, DevFault>
    requires live { (D.state disk.old).live NODE.0 ≡ true }
    requires whole { IsWhole SHAPE (D.state disk.old) }
    ensures live { OnOk result ((D.state disk.new).live NODE.0 ≡ true) }
    ensures whole { IsWhole SHAPE (D.state disk.new) }
{
    let log = Log::attach(disk, &SHAPE, NODE, NODE)?;
    assert_eq!(rt; log.start(), 0);
    let mut text = [0; 672];
    for number in 0..log.tail() {
        log.read(disk, NODE, number, &mut text)?;
        assert_eq!(rt; decode(&text), Some(appended(rt, number)));
    }
    Ok(log.tail())
}

/// The identifiers of pages 1 to 3 on the device.
fn read_idents<D: Disk>(rt: &impl Abort, disk: &mut D) -> Result<[u64; 3], DevFault>
    requires live { (D.state disk.old).live NODE.0 ≡ true }
    requires whole { IsWhole SHAPE (D.state disk.old) }
{
    let mut idents = [0; 3];
    let mut block = [0; 4096];
    for x in 1..4 {
        let page = PageNo(x);
        read_block(disk, NODE, SHAPE.page_block(page), &mut block)?;
        let view = parse(&block, page).expect(rt, "a data page");
        idents[x as usize - 1] = view.ident;
    }
    Ok(idents)
}

fn read_left<D: Disk>(rt: &impl Abort, disk: &mut D) -> Result<Left, DevFault>
    requires whole { IsWhole SHAPE (D.state disk.old) }
{
    disk.start(NODE);
    let records = read_log(rt, disk)?;
    let idents = read_idents(rt, disk)?;
    Ok(Left { records, idents })
}

/// No page is ahead of the log: the records that are there explain its identifier.
fn check_explained(rt: &impl Abort, left: &Left, stop: Stop) {
    for (i, ident) in left.idents.iter().enumerate() {
        let page = PageNo(i as u32 + 1);
        let records = CHANGED.iter().take(left.records as usize);
        let explained = records.filter(|x| **x == page).count() as u64;
        assert!(rt; *ident <= SHAPE.birth + explained, "{page:?} at {stop:?}");
    }
}

/// All frames are free, and all pages but the first one are parked.
fn check_given_up(rt: &impl Abort, pool: &Pool, owners: &Owners)
    requires { PAGES ≤ length owners.now }
{
    assert_eq!(rt; pool.free(), 16);
    for x in [MAP, PageNo(2), PageNo(3)] {
        assert_eq!(rt; owners.state(x), Own::Parked(NODE));
    }
}

/// Stops a flush of three changed pages, and compares what is left.
fn try_stop<D: Disk + Drop>(
    rt: &impl Abort,
    mut bench: Bench<WatchedDisk<D>>,
    stop: Stop,
    left: Left,
) -> Result<(), DevFault>
    requires ready { IsReady SHAPE D.told (⟦<WatchedDisk<D> as Disk>⟧.state bench.disk) bench.pool bench.owners bench.cache }
{
    change_three(rt, &mut bench);
    bench.watch(stop.call, stop.picks);
    let remains = flush_and_end(rt, bench, stop);
    assert_eq!(rt; remains.owners.state(PageNo(1)), Own::Parked(NODE));
    compare(rt, remains, stop, left)
}

/// Stops the first of three changed pages being given up, and compares what is left.
fn try_stopped_surrender<D: Disk + Drop>(
    rt: &impl Abort,
    mut bench: Bench<WatchedDisk<D>>,
    stop: Stop,
    left: Left,
) -> Result<(), DevFault>
    requires ready { IsReady SHAPE D.told (⟦<WatchedDisk<D> as Disk>⟧.state bench.disk) bench.pool bench.owners bench.cache }
{
    change_three(rt, &mut bench);
    bench.watch(stop.call, stop.picks);
    let remains = surrender_and_end(rt, bench, stop);
    compare(rt, remains, stop, left)
}

/// Compares what is left.
fn compare<D: Disk + Drop>(
    rt: &impl Abort,
    mut remains: Remains<D>,
    stop: Stop,
    left: Left,
) -> Result<(), DevFault>
    requires table { PAGES ≤ length remains.owners }
    requires whole { IsWhole SHAPE (D.state remains.disk) }
{
    check_given_up(rt, &remains.pool, &remains.owners);
    let found = read_left(rt, &mut remains.disk)?;
    check_explained(rt, &found, stop);
    assert_eq!(rt; found, left, "{stop:?}");
    Ok(())
}

/// The identifiers that the blocks of pages 1 to 3 have before the flush, and those that their frames
/// have.
const STORED: [u64; 3] = [5, 5, 5];

const CHANGED_TO: [u64; 3] = [7, 6, 6];

/// What is left of the pages where so many were written and none is covered: each block holds what it
/// held or what its frame does, as its own pick says.
fn left_of(sent: usize, picks: u64) -> Left
    requires { sent ≤ 3 }
{
    let mut idents = STORED;
    for i in 0..sent {
        if (picks >> i) & 1 == 1 {
            idents[i] = CHANGED_TO[i];
        }
    }
    Left { records: 4, idents }
}

#[test]
fn a_stop_before_the_pages_leaves_them(rt: HostRuntime) -> Result<(), Fail> {
    // The log is written, and then covered. With no pick its block is undone.
    for call in [1, 2] {
        for (picks, records) in [(0, 0), (u64::MAX, 4)] {
            let bench = new_bench(rt.alloc(), 3)?;
            let left = Left {
                records,
                idents: STORED,
            };
            try_stop(&rt, bench, Stop { call, picks }, left)?;
        }
    }
    Ok(())
}

#[test]
fn a_stop_in_a_flush_leaves_each_page_by_itself(rt: HostRuntime) -> Result<(), Fail> {
    // Pages 1 to 3 are written in this order, though page 3 came in first, and then the barrier covers
    // them together.
    for (call, sent) in [(3, 1), (4, 2), (5, 3), (6, 3)] {
        for picks in 0..8 {
            let bench = new_bench(rt.alloc(), 3)?;
            let left = left_of(sent, picks);
            try_stop(&rt, bench, Stop { call, picks }, left)?;
        }
    }
    Ok(())
}

#[test]
fn a_stop_after_a_flush_leaves_all_pages(rt: HostRuntime) -> Result<(), Fail> {
    for picks in [0, u64::MAX] {
        let bench = new_bench(rt.alloc(), 3)?;
        let left = Left {
            records: 4,
            idents: CHANGED_TO,
        };
        try_stop(&rt, bench, Stop { call: 0, picks }, left)?;
    }
    Ok(())
}

#[test]
fn a_stop_leaves_a_page_that_is_given_up_with_its_node(rt: HostRuntime) -> Result<(), Fail> {
    // The calls: the log is written and covered, and then the page.
    for (calls, without, with) in [
        ([1, 2], (0, [5, 5, 5]), (4, [5, 5, 5])),
        ([3, 4], (4, [5, 5, 5]), (4, [7, 5, 5])),
        ([0, 0], (4, [7, 5, 5]), (4, [7, 5, 5])),
    ] {
        for call in calls {
            for (picks, (records, idents)) in [(0, without), (u64::MAX, with)] {
                let bench = new_bench(rt.alloc(), 3)?;
                let left = Left { records, idents };
                try_stopped_surrender(&rt, bench, Stop { call, picks }, left)?;
            }
        }
    }
    Ok(())
}
