//! The fields that all texts of records have, and what a record has in each of them.

ghost use Rattle.std.specs.Prelude.{◌≡◌, Some};
ghost use Rattle.log_record.specs.Fields.{half_of, half_of_value, half_of_mark, fields_of};

use crate::record::LogRecord;
use sd_base::{GroupNo, PageNo, Value, put_bytes};

/// What a text says of a slot: its state, the length of its value, and the value with zeros behind.
#[derive(Clone, Copy)]
pub(crate) struct Half {
    pub(crate) state: u8,
    pub(crate) len: u8,
    pub(crate) value: [u8; 248],
}

/// What a text has at its places.
#[derive(Clone, Copy)]
pub(crate) struct Fields {
    pub(crate) kind: u8,
    pub(crate) place: u8,
    pub(crate) page: u32,
    pub(crate) bsi: u64,
    pub(crate) txn: u64,
    pub(crate) prev: u64,
    pub(crate) extra: u64,
    pub(crate) group: u32,
    pub(crate) before: Half,
    pub(crate) after: Half,
}

const NO_HALF: Half = Half {
    state: 0,
    len: 0,
    value: [0; 248],
};

fn half_of_value(value: &Value) -> Half
    ensures { result ≡ half_of_value value.now }
{
    let mut bytes = [0; 248];
    put_bytes(&mut bytes, 0, value.as_slice());
    Half {
        state: 1,
        len: value.as_slice().len() as u8,
        value: bytes,
    }
}

fn half_of(content: &Option<Value>) -> Half
    ensures { result ≡ half_of content.now }
{
    match content {
        Some(value) => half_of_value(value),
        None => NO_HALF,
    }
}

/// The half of which only the state and the length are kept.
fn half_of_mark(present: bool, len: u8) -> Half
    ensures { result ≡ half_of_mark present len }
{
    Half {
        state: u8::from(present),
        len,
        value: [0; 248],
    }
}

fn kind_of(rec: &LogRecord) -> u8
    ensures { result ≡ (fields_of rec.now).kind }
{
    match rec {
        LogRecord::Begin => 1,
        LogRecord::Set { .. } => 2,
        LogRecord::Append { .. } => 3,
        LogRecord::Commit { .. } => 4,
        LogRecord::Abort { .. } => 5,
        LogRecord::Restore { .. } => 6,
        LogRecord::Cut { .. } => 7,
        LogRecord::MapUse { .. } => 8,
        LogRecord::MapFree { .. } => 9,
    }
}

fn place_of(rec: &LogRecord) -> u8
    ensures { result ≡ (fields_of rec.now).place }
{
    match rec {
        LogRecord::Set { slot, .. }
        | LogRecord::Append { slot, .. }
        | LogRecord::Restore { slot, .. }
        | LogRecord::Cut { slot, .. } => *slot,
        LogRecord::MapUse { place, .. } | LogRecord::MapFree { place, .. } => *place,
        LogRecord::Begin | LogRecord::Commit { .. } | LogRecord::Abort { .. } => 0,
    }
}

/// The page of a record, 0 where it has none.
pub(crate) fn page_of(rec: &LogRecord) -> PageNo
    ensures { result.0 ≡ (fields_of rec.now).page }
{
    match rec {
        LogRecord::Set { page, .. }
        | LogRecord::Append { page, .. }
        | LogRecord::Restore { page, .. }
        | LogRecord::Cut { page, .. }
        | LogRecord::MapUse { page, .. }
        | LogRecord::MapFree { page, .. } => *page,
        LogRecord::Begin | LogRecord::Commit { .. } | LogRecord::Abort { .. } => PageNo(0),
    }
}

/// The before-state identifier of a record, 0 where it has none.
pub(crate) fn bsi_of(rec: &LogRecord) -> u64
    ensures { result ≡ (fields_of rec.now).bsi }
{
    match rec {
        LogRecord::Set { bsi, .. }
        | LogRecord::Append { bsi, .. }
        | LogRecord::Restore { bsi, .. }
        | LogRecord::Cut { bsi, .. }
        | LogRecord::MapUse { bsi, .. }
        | LogRecord::MapFree { bsi, .. } => *bsi,
        LogRecord::Begin | LogRecord::Commit { .. } | LogRecord::Abort { .. } => 0,
    }
}

/// The number of the record that began the transaction, 0 where the record has none.
pub(crate) fn txn_of(rec: &LogRecord) -> u64
    ensures { result ≡ (fields_of rec.now).txn }
{
    match rec {
        LogRecord::Set { txn, .. }
        | LogRecord::Append { txn, .. }
        | LogRecord::Commit { txn, .. }
        | LogRecord::Abort { txn, .. }
        | LogRecord::Restore { txn, .. }
        | LogRecord::Cut { txn, .. } => *txn,
        LogRecord::Begin | LogRecord::MapUse { .. } | LogRecord::MapFree { .. } => 0,
    }
}

/// The number of the transaction's record before a record, 0 where it has none.
pub(crate) fn prev_of(rec: &LogRecord) -> u64
    ensures { result ≡ (fields_of rec.now).prev }
{
    match rec {
        LogRecord::Set { prev, .. }
        | LogRecord::Append { prev, .. }
        | LogRecord::Commit { prev, .. }
        | LogRecord::Abort { prev, .. }
        | LogRecord::Restore { prev, .. }
        | LogRecord::Cut { prev, .. } => *prev,
        LogRecord::Begin | LogRecord::MapUse { .. } | LogRecord::MapFree { .. } => 0,
    }
}

/// The number of the next record or the new identifier, 0 where a record has neither.
fn extra_of(rec: &LogRecord) -> u64
    ensures { result ≡ (fields_of rec.now).extra }
{
    match rec {
        LogRecord::Restore { next, .. } | LogRecord::Cut { next, .. } => *next,
        LogRecord::MapFree { ident, .. } => *ident,
        _ => 0,
    }
}

/// The group of a record, 0 where it has none.
pub(crate) fn group_of(rec: &LogRecord) -> GroupNo
    ensures { result.0 ≡ (fields_of rec.now).group }
{
    match rec {
        LogRecord::MapUse { group, .. } | LogRecord::MapFree { group, .. } => *group,
        _ => GroupNo(0),
    }
}

fn before_of(rec: &LogRecord) -> Half
    ensures { result ≡ (fields_of rec.now).before }
{
    match rec {
        LogRecord::Set { before, .. } => half_of(before),
        LogRecord::Append { present, len, .. } => half_of_mark(*present, *len),
        _ => NO_HALF,
    }
}

fn after_of(rec: &LogRecord) -> Half
    ensures { result ≡ (fields_of rec.now).after }
{
    match rec {
        LogRecord::Set { after, .. } | LogRecord::Restore { after, .. } => half_of(after),
        LogRecord::Append { bytes, .. } => half_of_value(bytes),
        LogRecord::Cut { present, len, .. } => half_of_mark(*present, *len),
        _ => NO_HALF,
    }
}

/// The fields of a record.
pub(crate) fn fields_of(rec: &LogRecord) -> Fields
    ensures { result ≡ fields_of rec.now }
{
    Fields {
        kind: kind_of(rec),
        place: place_of(rec),
        page: page_of(rec).0,
        bsi: bsi_of(rec),
        txn: txn_of(rec),
        prev: prev_of(rec),
        extra: extra_of(rec),
        group: group_of(rec).0,
        before: before_of(rec),
        after: after_of(rec),
    }
}
