//! Which records are legal: those of which each number is in its range.

ghost use Rattle.std.specs.Prelude.{◌≡◌, ◌↔◌, IsTrue};
ghost use Rattle.log_record.specs.Legal.{IsContent, IsMark, HasPlace, HasExtra, HasContents, IsLegal};

use crate::fields::{bsi_of, group_of, page_of, prev_of, txn_of};
use crate::record::LogRecord;
use sd_base::{MAX_GROUP, MAX_IDENT, Value};

/// Record numbers are below this.
const RECORD_NO_END: u64 = 6 << 56;

fn is_content(content: &Option<Value>) -> bool
    ensures { IsTrue result ↔ IsContent content.now }
{
    match content {
        // Always true: no value is longer. Of a value in an option the prover doesn't know that,
        // but the contract of `as_slice` says it.
        Some(value) => value.as_slice().len() <= Value::MAX_LEN,
        None => true,
    }
}

fn is_mark(present: bool, len: u8) -> bool
    ensures { IsTrue result ↔ IsMark present len }
{
    if present { len <= 248 } else { len == 0 }
}

fn has_place(rec: &LogRecord) -> bool
    ensures { IsTrue result ↔ HasPlace rec.now }
{
    match rec {
        LogRecord::Set { slot, .. }
        | LogRecord::Append { slot, .. }
        | LogRecord::Restore { slot, .. }
        | LogRecord::Cut { slot, .. } => *slot <= 15,
        LogRecord::MapUse { place, .. } | LogRecord::MapFree { place, .. } => *place <= 251,
        LogRecord::Begin | LogRecord::Commit { .. } | LogRecord::Abort { .. } => true,
    }
}

fn has_extra(rec: &LogRecord) -> bool
    ensures { IsTrue result ↔ HasExtra rec.now }
{
    match rec {
        LogRecord::Restore { next, .. } | LogRecord::Cut { next, .. } => *next < RECORD_NO_END,
        LogRecord::MapFree { ident, .. } => *ident <= MAX_IDENT,
        _ => true,
    }
}

fn has_contents(rec: &LogRecord) -> bool
    ensures { IsTrue result ↔ HasContents rec.now }
{
    match rec {
        LogRecord::Set { before, after, .. } => is_content(before) && is_content(after),
        LogRecord::Append {
            present,
            len,
            bytes,
            ..
        } => is_mark(*present, *len) && bytes.as_slice().len() <= Value::MAX_LEN,
        LogRecord::Restore { after, .. } => is_content(after),
        LogRecord::Cut { present, len, .. } => is_mark(*present, *len),
        _ => true,
    }
}

/// Whether each number of a record is in its range, in the format of docs/FORMATS.md.
pub fn is_legal(rec: &LogRecord) -> bool
    ensures { IsTrue result ↔ IsLegal rec.now }
{
    // Each `u32` is the number of a page, so there is nothing to test. Of a number in an enum the
    // prover doesn't know that it is a `u32`, but the type of this call's result says it.
    let _page = page_of(rec);
    bsi_of(rec) < MAX_IDENT
        && txn_of(rec) < RECORD_NO_END
        && prev_of(rec) < RECORD_NO_END
        && group_of(rec).0 <= MAX_GROUP
        && has_place(rec)
        && has_extra(rec)
        && has_contents(rec)
}
