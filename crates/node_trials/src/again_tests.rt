//! A seat is used again: after a commit, after an abort, and beside other transactions.

use crate::reading::{check_log, check_page};
use crate::records::{PAGE, abort, commit, of, restore, set};
use crate::seat_bench::SeatBench;
use crate::steps::{Act, Step, row, run};
use crate::store::{MAP, new_bench};
use log_record::LogRecord;
use std::process::Abort;
use std::test::Fail;

/// A transaction begins in seat 4 after one was committed there, after one was taken back, and beside one
/// in a lower seat that began before it.
fn steps() -> [Step; 12] {
    [
        row(4, Act::Begin, 1, Some(0), &[4]),
        row(4, Act::Commit, 0, None, &[]),
        row(4, Act::Begin, 1, Some(2), &[4]),
        row(4, Act::Put(0, b"x"), 2, Some(2), &[4]),
        row(4, Act::TakeBack(3), 1, Some(2), &[4]),
        row(4, Act::EndAbort, 0, None, &[]),
        row(4, Act::Begin, 1, Some(6), &[4]),
        row(1, Act::Begin, 2, Some(6), &[1, 4]),
        row(4, Act::Commit, 1, Some(7), &[1]),
        row(4, Act::Begin, 2, Some(7), &[1, 4]),
        row(1, Act::Commit, 1, Some(9), &[4]),
        row(4, Act::EndAbort, 0, None, &[]),
    ]
}

/// What is in the log then.
fn records(rt: &impl Abort) -> [LogRecord; 12] {
    [
        LogRecord::Begin,
        commit(0, 0),
        LogRecord::Begin,
        set(rt, of(2, 2, 5), 0, None, Some(b"x")),
        restore(rt, of(2, 3, 6), 2, 0, None),
        abort(2, 4),
        LogRecord::Begin,
        LogRecord::Begin,
        commit(6, 6),
        LogRecord::Begin,
        commit(7, 7),
        abort(9, 9),
    ]
}

#[test]
fn a_seat_begins_again(rt: HostRuntime) -> Result<(), Fail> {
    let mut bench = SeatBench::new(new_bench(rt.alloc(), 1)?);
    bench.fetch_all(&rt, &[MAP, PAGE]);
    run(&rt, &mut bench, &steps());
    check_page(&rt, &bench.bench, 7, &[]);
    let mut remains = bench.end(0);
    check_log(&rt, &mut remains.disk, &records(&rt))?;
    Ok(())
}
