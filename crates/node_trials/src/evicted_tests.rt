//! Updates are taken back whose page has left the cache since.

ghost use Rattle.std.specs.Prelude.{◌≤◌};
ghost use Rattle.node_trials.specs.SeatBench.{IsSeated};

use crate::reading::{check_log, check_page};
use crate::records::{PAGE, abort, append, cut, of, restore, set};
use crate::seat_bench::SeatBench;
use crate::steps::{Act, Step, row, run};
use crate::store::{MAP, SHAPE, new_bench};
use log_record::LogRecord;
use sd_base::{Disk, PageNo};
use std::process::Abort;
use std::test::Fail;

const SEAT: u8 = 6;

fn steps() -> [Step; 3] {
    [
        row(SEAT, Act::Begin, 1, Some(0), &[SEAT]),
        row(SEAT, Act::Put(0, b"a"), 2, Some(0), &[SEAT]),
        row(SEAT, Act::Append(0, b"b"), 3, Some(0), &[SEAT]),
    ]
}

/// Makes the page leave the cache, by 16 pages that come in.
fn push_out<D: Disk>(rt: &impl Abort, bench: &mut SeatBench<D>, first: u32)
    requires first { first ≤ 100 }
    requires seated { IsSeated SHAPE D.told (D.state bench.old.bench.disk) bench.old.bench.pool bench.old.bench.owners bench.old.bench.cache bench.old.seats bench.old.left }
    ensures seated { IsSeated SHAPE D.told (D.state bench.new.bench.disk) bench.new.bench.pool bench.new.bench.owners bench.new.bench.cache bench.new.seats bench.new.left }
{
    assert!(rt; bench.bench.cache.has(PAGE));
    for x in first..first + 16 {
        bench.fetch_all(rt, &[PageNo(x)]);
    }
    assert!(rt; !bench.bench.cache.has(PAGE));
}

/// Takes the two updates back, each after the page has left and come again.
fn take_back<D: Disk>(rt: &impl Abort, bench: &mut SeatBench<D>)
    requires seated { IsSeated SHAPE D.told (D.state bench.old.bench.disk) bench.old.bench.pool bench.old.bench.owners bench.old.bench.cache bench.old.seats bench.old.left }
    ensures seated { IsSeated SHAPE D.told (D.state bench.new.bench.disk) bench.new.bench.pool bench.new.bench.owners bench.new.bench.cache bench.new.seats bench.new.left }
{
    push_out(rt, bench, 2);
    // What is next is known without the page.
    let next = bench.next(rt, SEAT);
    assert_eq!(rt; next, Some((2, PAGE)));
    bench.fetch_all(rt, &[PAGE]);
    let taken = bench.take_back(rt, SEAT);
    assert_eq!(rt; taken, Some(2));
    check_page(rt, &bench.bench, 8, &[(0, b"a")]);
    push_out(rt, bench, 18);
    bench.fetch_all(rt, &[PAGE]);
    bench.take_back_all(rt, SEAT);
    check_page(rt, &bench.bench, 9, &[]);
    assert_eq!(rt; bench.seats.owed(), 0);
}

/// What is in the log then.
fn records(rt: &impl Abort) -> [LogRecord; 6] {
    [
        LogRecord::Begin,
        set(rt, of(0, 0, 5), 0, None, Some(b"a")),
        append(rt, of(0, 1, 6), 0, Some(1), b"b"),
        cut(of(0, 2, 7), 1, 0, Some(1)),
        restore(rt, of(0, 3, 8), 0, 0, None),
        abort(0, 4),
    ]
}

#[test]
fn an_update_of_a_page_that_has_left_is_taken_back(rt: HostRuntime) -> Result<(), Fail> {
    let mut bench = SeatBench::new(new_bench(rt.alloc(), 33)?);
    bench.fetch_all(&rt, &[MAP, PAGE]);
    run(&rt, &mut bench, &steps());
    take_back(&rt, &mut bench);
    let mut remains = bench.end(0);
    check_log(&rt, &mut remains.disk, &records(&rt))?;
    Ok(())
}
