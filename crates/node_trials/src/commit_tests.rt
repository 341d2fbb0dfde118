//! Which blocks a commit writes, and how much of the log a stop in it leaves.

ghost use Rattle.std.specs.Prelude.{◌≤◌, length};
ghost use Rattle.node_trials.specs.Bench.{IsWhole};
ghost use Rattle.node_trials.specs.SeatBench.{IsSeated};

use crate::bench::Remains;
use crate::reading::check_log;
use crate::records::{PAGE, append, commit, of, text};
use crate::seat_bench::SeatBench;
use crate::store::{MAP, NODE, PAGES, SHAPE, new_bench};
use Deed::{Barrier, Write};
use device_trials::{Deed, WatchedDisk};
use log_record::LogRecord;
use sd_base::{BlockNo, DevFault, Disk};
use std::process::Abort;
use std::test::Fail;
use txn_core::Change;

const SEAT: u8 = 2;

/// The first blocks of the ring, of six records each.
const FIRST_LOG: BlockNo = BlockNo(2);

const SECOND_LOG: BlockNo = BlockNo(3);

/// How a commit is stopped: at which call of the device, and whether what was written last stays.
#[derive(Clone, Copy, Debug)]
struct Stop {
    call: u64,
    picks: u64,
}

/// Begins a transaction, which appends so many bytes to a slot.
fn change<D: Disk>(rt: &impl Abort, bench: &mut SeatBench<D>, updates: u8)
    requires seated { IsSeated SHAPE D.told (D.state bench.old.bench.disk) bench.old.bench.pool bench.old.bench.owners bench.old.bench.cache bench.old.seats bench.old.left }
    ensures seated { IsSeated SHAPE D.told (D.state bench.new.bench.disk) bench.new.bench.pool bench.new.bench.owners bench.new.bench.cache bench.new.seats bench.new.left }
{
    bench.fetch_all(rt, &[MAP, PAGE]);
    bench.begin(rt, SEAT);
    for _ in 0..updates {
        bench.change(rt, SEAT, PAGE, 0, &Change::Append(text(rt, b"x")));
    }
}

/// What is in the log behind its commit.
fn records(rt: &impl Abort, updates: u8) -> [LogRecord; 7] {
    assert!(rt; updates <= 5);
    let mut all = [
        LogRecord::Begin,
        append(rt, of(0, 0, 5), 0, None, b"x"),
        append(rt, of(0, 1, 6), 0, Some(1), b"x"),
        append(rt, of(0, 2, 7), 0, Some(2), b"x"),
        append(rt, of(0, 3, 8), 0, Some(3), b"x"),
        append(rt, of(0, 4, 9), 0, Some(4), b"x"),
        LogRecord::Begin,
    ];
    all[updates as usize + 1] = commit(0, updates as u64);
    all
}

/// Commits the transaction, and ends the cache however that went.
fn commit_and_end<D: Disk>(rt: &impl Abort, mut bench: SeatBench<D>, stop: Stop) -> Remains<D>
    requires seated { IsSeated SHAPE D.told (D.state bench.bench.disk) bench.bench.pool bench.bench.owners bench.bench.cache bench.seats bench.left }
    ensures table { PAGES ≤ length result.owners }
    ensures whole { IsWhole SHAPE (D.state result.disk) }
{
    let done = bench.commit(rt, SEAT);
    if stop.call == 0 {
        assert_eq!(rt; done, Ok(()));
        bench.end(stop.picks)
    } else {
        assert_eq!(rt; done, Err(DevFault::Stopped(NODE)), "{stop:?}");
        bench.wreck()
    }
}

/// Stops a commit, and compares what is left of the log: so many records.
fn try_stop<D: Disk + Drop>(
    rt: &impl Abort,
    mut bench: SeatBench<WatchedDisk<D>>,
    updates: u8,
    stop: Stop,
    left: usize,
) -> Result<(), DevFault>
    requires seated { IsSeated SHAPE D.told (⟦<WatchedDisk<D> as Disk>⟧.state bench.bench.disk) bench.bench.pool bench.bench.owners bench.bench.cache bench.seats bench.left }
{
    change(rt, &mut bench, updates);
    bench.watch(stop.call, stop.picks);
    let mut remains = commit_and_end(rt, bench, stop);
    assert!(rt; left <= 7);
    check_log(rt, &mut remains.disk, &records(rt, updates)[..left])
}

#[test]
fn a_stop_leaves_a_front_of_the_log(rt: HostRuntime) -> Result<(), Fail> {
    // A block has six records. Of two records before the commit, none is on the device yet. With five, the
    // commit fills the block, so it is written as it is appended. With six, the block is written and not
    // covered. With no pick what isn't covered is undone.
    for (updates, call, without, with) in [
        (1, 1, 0, 3),
        (1, 2, 0, 3),
        (1, 0, 3, 3),
        (4, 1, 0, 6),
        (4, 2, 0, 6),
        (4, 0, 6, 6),
        (5, 1, 0, 6),
        (5, 2, 6, 7),
        (5, 3, 6, 7),
        (5, 0, 7, 7),
    ] {
        for (picks, left) in [(0, without), (u64::MAX, with)] {
            let bench = SeatBench::new(new_bench(rt.alloc(), 1)?);
            try_stop(&rt, bench, updates, Stop { call, picks }, left)?;
        }
    }
    Ok(())
}

/// Commits a transaction, and compares what the device is told meanwhile.
fn try_deeds<D: Disk>(
    rt: &impl Abort,
    bench: &mut SeatBench<WatchedDisk<D>>,
    updates: u8,
    deeds: &[Deed],
)
    requires seated { IsSeated SHAPE D.told (⟦<WatchedDisk<D> as Disk>⟧.state bench.old.bench.disk) bench.old.bench.pool bench.old.bench.owners bench.old.bench.cache bench.old.seats bench.old.left }
    ensures seated { IsSeated SHAPE D.told (⟦<WatchedDisk<D> as Disk>⟧.state bench.new.bench.disk) bench.new.bench.pool bench.new.bench.owners bench.new.bench.cache bench.new.seats bench.new.left }
{
    change(rt, bench, updates);
    bench.watch(0, 0);
    bench.commit(rt, SEAT).expect(rt, "a commit");
    assert_eq!(rt; bench.bench.disk.deeds(), deeds, "{updates}");
    assert!(rt; bench.bench.cache.is_dirty(PAGE));
}

#[test]
fn a_commit_writes_the_log_alone(rt: HostRuntime) -> Result<(), Fail> {
    for (updates, deeds) in [
        (1, [Write(FIRST_LOG), Barrier].as_slice()),
        (4, [Write(FIRST_LOG), Barrier].as_slice()),
        (5, [Barrier, Write(SECOND_LOG), Barrier].as_slice()),
    ] {
        let mut bench = SeatBench::new(new_bench(rt.alloc(), 1)?);
        try_deeds(&rt, &mut bench, updates, deeds);
        bench.end(0);
    }
    Ok(())
}
