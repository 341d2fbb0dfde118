//! Three transactions change one page in turns, and one of them is taken back.

use crate::reading::{check_log, check_page};
use crate::records::{PAGE, abort, append, commit, cut, of, restore, set};
use crate::seat_bench::SeatBench;
use crate::steps::{Act, Step, row, run};
use crate::store::{MAP, new_bench};
use log_record::LogRecord;
use std::process::Abort;
use std::test::Fail;

/// The transactions in seats 0, 3 and 7 take turns. That in seat 3 is taken back, and the others go on
/// meanwhile.
fn steps() -> [Step; 20] {
    [
        row(0, Act::Begin, 1, Some(0), &[0]),
        row(0, Act::Put(0, b"one"), 2, Some(0), &[0]),
        row(3, Act::Begin, 3, Some(0), &[0, 3]),
        row(3, Act::Append(1, b"ab"), 4, Some(0), &[0, 3]),
        row(7, Act::Begin, 5, Some(0), &[0, 3, 7]),
        row(0, Act::Append(0, b"more"), 6, Some(0), &[0, 3, 7]),
        row(3, Act::Append(1, b"cd"), 7, Some(0), &[0, 3, 7]),
        row(7, Act::Put(2, b"kept"), 8, Some(0), &[0, 3, 7]),
        row(3, Act::Put(15, b"last"), 9, Some(0), &[0, 3, 7]),
        row(0, Act::Delete(0), 10, Some(0), &[0, 3, 7]),
        row(3, Act::Delete(1), 11, Some(0), &[0, 3, 7]),
        row(3, Act::TakeBack(10), 10, Some(0), &[0, 3, 7]),
        row(3, Act::TakeBack(8), 9, Some(0), &[0, 3, 7]),
        row(7, Act::Append(2, b"!"), 10, Some(0), &[0, 3, 7]),
        row(3, Act::TakeBack(6), 9, Some(0), &[0, 3, 7]),
        row(3, Act::TakeBack(3), 8, Some(0), &[0, 3, 7]),
        row(0, Act::Put(4, b""), 9, Some(0), &[0, 3, 7]),
        row(3, Act::EndAbort, 8, Some(0), &[0, 7]),
        row(0, Act::Commit, 3, Some(4), &[7]),
        row(7, Act::Commit, 0, None, &[]),
    ]
}

/// What is in the log then. Each step has one record, so they have the same numbers.
fn records(rt: &impl Abort) -> [LogRecord; 20] {
    [
        LogRecord::Begin,
        set(rt, of(0, 0, 5), 0, None, Some(b"one")),
        LogRecord::Begin,
        append(rt, of(2, 2, 6), 1, None, b"ab"),
        LogRecord::Begin,
        append(rt, of(0, 1, 7), 0, Some(3), b"more"),
        append(rt, of(2, 3, 8), 1, Some(2), b"cd"),
        set(rt, of(4, 4, 9), 2, None, Some(b"kept")),
        set(rt, of(2, 6, 10), 15, None, Some(b"last")),
        set(rt, of(0, 5, 11), 0, Some(b"onemore"), None),
        set(rt, of(2, 8, 12), 1, Some(b"abcd"), None),
        restore(rt, of(2, 10, 13), 8, 1, Some(b"abcd")),
        restore(rt, of(2, 11, 14), 6, 15, None),
        append(rt, of(4, 7, 15), 2, Some(4), b"!"),
        cut(of(2, 12, 16), 3, 1, Some(2)),
        cut(of(2, 14, 17), 2, 1, None),
        set(rt, of(0, 9, 18), 4, None, Some(b"")),
        abort(2, 15),
        commit(0, 16),
        commit(4, 13),
    ]
}

#[test]
fn one_of_three_transactions_on_a_page_is_taken_back(rt: HostRuntime) -> Result<(), Fail> {
    let mut bench = SeatBench::new(new_bench(rt.alloc(), 1)?);
    bench.fetch_all(&rt, &[MAP, PAGE]);
    run(&rt, &mut bench, &steps());
    check_page(&rt, &bench.bench, 19, &[(2, b"kept!"), (4, b"")]);
    let mut remains = bench.end(0);
    check_log(&rt, &mut remains.disk, &records(&rt))?;
    Ok(())
}
