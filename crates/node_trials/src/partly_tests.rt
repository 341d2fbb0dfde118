//! A transaction goes on after some of its updates were taken back.

use crate::reading::{check_log, check_page};
use crate::records::{PAGE, abort, append, commit, cut, of, restore, set};
use crate::seat_bench::SeatBench;
use crate::steps::{Act, Step, row, run};
use crate::store::{MAP, new_bench};
use log_record::LogRecord;
use std::process::Abort;
use std::test::Fail;

/// A transaction is committed, and then one is taken back in part again and again, and goes on each time.
fn steps() -> [Step; 19] {
    [
        row(5, Act::Begin, 1, Some(0), &[5]),
        row(5, Act::Put(9, b"old"), 2, Some(0), &[5]),
        row(5, Act::Commit, 0, None, &[]),
        row(2, Act::Begin, 1, Some(3), &[2]),
        row(2, Act::Put(0, b"a"), 2, Some(3), &[2]),
        row(2, Act::Put(9, b"b"), 3, Some(3), &[2]),
        row(2, Act::Append(5, b"xyz"), 4, Some(3), &[2]),
        row(2, Act::TakeBack(6), 3, Some(3), &[2]),
        row(2, Act::TakeBack(5), 2, Some(3), &[2]),
        row(2, Act::Put(9, b"c"), 3, Some(3), &[2]),
        row(2, Act::Append(9, b"d"), 4, Some(3), &[2]),
        row(2, Act::TakeBack(10), 3, Some(3), &[2]),
        row(2, Act::TakeBack(9), 2, Some(3), &[2]),
        row(2, Act::Delete(9), 3, Some(3), &[2]),
        row(2, Act::TakeBack(13), 2, Some(3), &[2]),
        row(2, Act::TakeBack(4), 1, Some(3), &[2]),
        row(2, Act::Append(0, b"z"), 2, Some(3), &[2]),
        row(2, Act::TakeBack(16), 1, Some(3), &[2]),
        row(2, Act::EndAbort, 0, None, &[]),
    ]
}

/// What is in the log then. Records 9, 13 and 16 are updates with a compensation before them: what is
/// taken back behind them is what that one says.
fn records(rt: &impl Abort) -> [LogRecord; 19] {
    [
        LogRecord::Begin,
        set(rt, of(0, 0, 5), 9, None, Some(b"old")),
        commit(0, 1),
        LogRecord::Begin,
        set(rt, of(3, 3, 6), 0, None, Some(b"a")),
        set(rt, of(3, 4, 7), 9, Some(b"old"), Some(b"b")),
        append(rt, of(3, 5, 8), 5, None, b"xyz"),
        cut(of(3, 6, 9), 5, 5, None),
        restore(rt, of(3, 7, 10), 4, 9, Some(b"old")),
        set(rt, of(3, 8, 11), 9, Some(b"old"), Some(b"c")),
        append(rt, of(3, 9, 12), 9, Some(1), b"d"),
        cut(of(3, 10, 13), 9, 9, Some(1)),
        restore(rt, of(3, 11, 14), 4, 9, Some(b"old")),
        set(rt, of(3, 12, 15), 9, Some(b"old"), None),
        restore(rt, of(3, 13, 16), 4, 9, Some(b"old")),
        restore(rt, of(3, 14, 17), 3, 0, None),
        append(rt, of(3, 15, 18), 0, None, b"z"),
        cut(of(3, 16, 19), 3, 0, None),
        abort(3, 17),
    ]
}

#[test]
fn a_transaction_goes_on_behind_a_compensation(rt: HostRuntime) -> Result<(), Fail> {
    let mut bench = SeatBench::new(new_bench(rt.alloc(), 1)?);
    bench.fetch_all(&rt, &[MAP, PAGE]);
    run(&rt, &mut bench, &steps());
    check_page(&rt, &bench.bench, 20, &[(9, b"old")]);
    let mut remains = bench.end(0);
    check_log(&rt, &mut remains.disk, &records(&rt))?;
    Ok(())
}
