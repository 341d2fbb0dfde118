//! What the records of a transaction say to one who takes it back.
use compensation::{next_after, next_of, record_before, take_back};
use log_record::LogRecord;
use sd_base::{PageNo, PageOp, Value};
use std::process::Abort;

// A record. Of it: which is next where it is record 11 and the last; which is before it; which it names
// as a compensation of transaction 6; and the change that takes it back.
type Row = (LogRecord, Option<u64>, u64, Option<u64>, Option<PageOp>);

fn check(rt: &impl Abort, rows: &[Row]) {
    for (record, next, before, named, back) in rows {
        assert_eq!(rt; next_of(record, 11), *next, "{record:?}");
        assert_eq!(rt; record_before(record), *before, "{record:?}");
        assert_eq!(rt; next_after(record, 6), *named, "{record:?}");
        assert_eq!(rt; take_back(record), *back, "{record:?}");
    }
}

// Records without a value.
const ROWS: [Row; 4] = [
    (LogRecord::Begin, None, 0, None, None),
    (
        LogRecord::Restore {
            txn: 6,
            prev: 9,
            next: 7,
            page: PageNo(9),
            bsi: 43,
            slot: 5,
            after: None,
        },
        Some(7),
        9,
        Some(7),
        None,
    ),
    (
        LogRecord::Cut {
            txn: 5,
            prev: 10,
            next: 6,
            page: PageNo(9),
            bsi: 44,
            slot: 5,
            present: true,
            len: 3,
        },
        Some(6),
        10,
        None,
        None,
    ),
    (LogRecord::Commit { txn: 6, prev: 8 }, None, 8, None, None),
];

// Updates of slot 5 of page 9, which held a value of four bytes.
fn updates() -> [Row; 2] {
    [
        (
            LogRecord::Set {
                txn: 6,
                prev: 7,
                page: PageNo(9),
                bsi: 41,
                slot: 5,
                before: Value::from_slice(b"held"),
                after: None,
            },
            Some(11),
            7,
            None,
            Some(PageOp::Put {
                slot: 5,
                after: Value::from_slice(b"held"),
            }),
        ),
        (
            LogRecord::Append {
                txn: 6,
                prev: 8,
                page: PageNo(9),
                bsi: 41,
                slot: 5,
                present: true,
                len: 4,
                bytes: Value::empty(),
            },
            Some(11),
            8,
            None,
            Some(PageOp::Cut {
                slot: 5,
                present: true,
                len: 4,
            }),
        ),
    ]
}

#[test]
fn records_say_how_they_are_taken_back(rt: HostRuntime) {
    check(&rt, &ROWS);
    check(&rt, &updates());
}
