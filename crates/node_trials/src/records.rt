//! Short ways to write down the log records that a test expects.

use log_record::LogRecord;
use sd_base::{PageNo, Value};
use std::process::Abort;

/// The page that the transactions change.
pub(crate) const PAGE: PageNo = PageNo(1);

/// Where a record of a change stands in its transaction and in the life of the page: the record that
/// began the transaction, the record of it before this one, and the page's identifier before the change.
#[derive(Clone, Copy, Debug)]
pub(crate) struct Origin {
    txn: u64,
    prev: u64,
    bsi: u64,
}

pub(crate) fn of(txn: u64, prev: u64, bsi: u64) -> Origin {
    Origin { txn, prev, bsi }
}

/// A value of these bytes.
pub(crate) fn text(rt: &impl Abort, bytes: &[u8]) -> Value {
    Value::from_slice(bytes).expect(rt, "a short value")
}

/// A slot that held `before` holds `after`.
pub(crate) fn set(
    rt: &impl Abort,
    at: Origin,
    slot: u8,
    before: Option<&[u8]>,
    after: Option<&[u8]>,
) -> LogRecord {
    LogRecord::Set {
        txn: at.txn,
        prev: at.prev,
        page: PAGE,
        bsi: at.bsi,
        slot,
        before: before.map(|bytes| text(rt, bytes)),
        after: after.map(|bytes| text(rt, bytes)),
    }
}

/// A slot whose value had this length, if it was present, gets these bytes behind its value.
pub(crate) fn append(
    rt: &impl Abort,
    at: Origin,
    slot: u8,
    before: Option<u8>,
    bytes: &[u8],
) -> LogRecord {
    LogRecord::Append {
        txn: at.txn,
        prev: at.prev,
        page: PAGE,
        bsi: at.bsi,
        slot,
        present: before.is_some(),
        len: before.unwrap_or(0),
        bytes: text(rt, bytes),
    }
}

/// A slot holds what it held before an update, and the record `next` is to be taken back then.
pub(crate) fn restore(
    rt: &impl Abort,
    at: Origin,
    next: u64,
    slot: u8,
    after: Option<&[u8]>,
) -> LogRecord {
    LogRecord::Restore {
        txn: at.txn,
        prev: at.prev,
        next,
        page: PAGE,
        bsi: at.bsi,
        slot,
        after: after.map(|bytes| text(rt, bytes)),
    }
}

/// A slot keeps so many bytes, or is absent, and the record `next` is to be taken back then.
pub(crate) fn cut(at: Origin, next: u64, slot: u8, kept: Option<u8>) -> LogRecord {
    LogRecord::Cut {
        txn: at.txn,
        prev: at.prev,
        next,
        page: PAGE,
        bsi: at.bsi,
        slot,
        present: kept.is_some(),
        len: kept.unwrap_or(0),
    }
}

pub(crate) fn commit(txn: u64, prev: u64) -> LogRecord {
    LogRecord::Commit { txn, prev }
}

pub(crate) fn abort(txn: u64, prev: u64) -> LogRecord {
    LogRecord::Abort { txn, prev }
}
