//! The texts of log records.
use log_record::{LogRecord, decode, encode, is_legal, page_op};
use sd_base::{GroupNo, PageNo, PageOp, Value, put_bytes, put_u64};
use std::process::Abort;

// A record and its text.
#[derive(Clone, Copy)]
struct Row {
    record: LogRecord,
    // The first 48 bytes: kind, place, two zeros and page; the identifier before; the transaction;
    // the record before; next or the new identifier; the group, and before and after each a state
    // and a length.
    head: [u64; 6],
    before: &'static [u8],
    after: &'static [u8],
}

// The records with a value.
fn rows_of_values() -> [Row; 4] {
    [
        Row {
            record: LogRecord::Set {
                txn: 0,
                prev: 0,
                page: PageNo(1),
                bsi: 0,
                slot: 5,
                before: None,
                after: Value::from_slice(b"hello"),
            },
            head: [0x0205_0000_0000_0001, 0, 0, 0, 0, 0x0000_0000_0000_0105],
            before: b"",
            after: b"hello",
        },
        Row {
            record: LogRecord::Set {
                txn: 6,
                prev: 7,
                page: PageNo(0x0a0b_0c0d),
                bsi: 1 << 63,
                slot: 15,
                before: Value::from_slice(b"ab"),
                after: None,
            },
            head: [
                0x020f_0000_0a0b_0c0d,
                0x8000_0000_0000_0000,
                6,
                7,
                0,
                0x0000_0000_0102_0000,
            ],
            before: b"ab",
            after: b"",
        },
        Row {
            record: LogRecord::Append {
                txn: 1,
                prev: 2,
                page: PageNo(3),
                bsi: 4,
                slot: 0,
                present: true,
                len: 248,
                bytes: Value::from_slice(b"xyz").unwrap_or(Value::empty()),
            },
            head: [0x0300_0000_0000_0003, 4, 1, 2, 0, 0x0000_0000_01f8_0103],
            before: b"",
            after: b"xyz",
        },
        Row {
            record: LogRecord::Restore {
                txn: 1,
                prev: 3,
                next: 2,
                page: PageNo(300),
                bsi: 7,
                slot: 9,
                after: Some(Value::empty()),
            },
            head: [0x0609_0000_0000_012c, 7, 1, 3, 2, 0x0000_0000_0000_0100],
            before: b"",
            after: b"",
        },
    ]
}

// The records without one. Commit has the greatest numbers of records, and the entry that is freed the
// greatest identifier.
const ROWS: [Row; 6] = [
    Row {
        record: LogRecord::Begin,
        head: [0x0100_0000_0000_0000, 0, 0, 0, 0, 0],
        before: b"",
        after: b"",
    },
    Row {
        record: LogRecord::Commit {
            txn: 5 << 56,
            prev: (6 << 56) - 1,
        },
        head: [
            0x0400_0000_0000_0000,
            0,
            0x0500_0000_0000_0000,
            0x05ff_ffff_ffff_ffff,
            0,
            0,
        ],
        before: b"",
        after: b"",
    },
    Row {
        record: LogRecord::Abort { txn: 8, prev: 9 },
        head: [0x0500_0000_0000_0000, 0, 8, 9, 0, 0],
        before: b"",
        after: b"",
    },
    Row {
        record: LogRecord::Cut {
            txn: 10,
            prev: 13,
            next: 12,
            page: PageNo(252),
            bsi: (1 << 63) + (1 << 40) - 1,
            slot: 15,
            present: true,
            len: 3,
        },
        head: [
            0x070f_0000_0000_00fc,
            0x8000_00ff_ffff_ffff,
            10,
            13,
            12,
            0x0000_0000_0000_0103,
        ],
        before: b"",
        after: b"",
    },
    Row {
        record: LogRecord::MapUse {
            page: PageNo(0),
            bsi: 1,
            place: 251,
            group: GroupNo((1 << 28) - 1),
        },
        head: [0x08fb_0000_0000_0000, 1, 0, 0, 0, 0x0fff_ffff_0000_0000],
        before: b"",
        after: b"",
    },
    Row {
        record: LogRecord::MapFree {
            page: PageNo(253),
            bsi: 2,
            place: 17,
            group: GroupNo(0),
            ident: (1 << 63) + (1 << 40),
        },
        head: [0x0911_0000_0000_00fd, 2, 0, 0, 0x8000_0100_0000_0000, 0],
        before: b"",
        after: b"",
    },
];

fn text_of(rt: &impl Abort, row: &Row) -> [u8; 672] {
    let mut text = [0; 672];
    for i in 0..6 {
        put_u64(&mut text, 8 * i, row.head[i]);
    }
    assert!(rt; row.before.len() <= 248 && row.after.len() <= 248);
    put_bytes(&mut text, 48, row.before);
    put_bytes(&mut text, 296, row.after);
    text
}

fn check(rt: &impl Abort, rows: &[Row]) {
    for row in rows {
        let text = text_of(rt, row);
        assert!(rt; is_legal(&row.record));
        let mut written = [7; 672];
        encode(&row.record, &mut written);
        assert_eq!(rt; &written[..], &text[..], "{:?}", row.record);
        assert_eq!(rt; decode(&text), Some(row.record));
    }
}

#[test]
fn records_have_their_texts(rt: HostRuntime) {
    let rows = rows_of_values();
    check(&rt, &rows);
    check(&rt, &ROWS);
    let put = PageOp::Put {
        slot: 5,
        after: Value::from_slice(b"hello"),
    };
    assert_eq!(rt; page_op(&rows[0].record), Some((PageNo(1), 0, put)));
    assert_eq!(rt; page_op(&ROWS[0].record), None);
}
