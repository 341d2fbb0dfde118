//! The fields that stand in a text, and the record that has them.

ghost use Rattle.std.specs.Prelude.{◌≡◌, ◌+◌, ◌≤◌};
ghost use Rattle.sd_base.specs.Text.{bytes_at};
ghost use Rattle.log_record.specs.Reading.{HasFields, content_in, set_in, append_in, restore_in, cut_in, map_use_in, map_free_in, record_in};

use crate::fields::{Fields, Half};
use crate::record::LogRecord;
use sd_base::{GroupNo, PageNo, Value, u32_at, u64_at};

fn value_at(text: &[u8; 672], at: usize) -> [u8; 248]
    requires { at + 248 ≤ 672 }
    ensures { result ≡ bytes_at 248 at text.now }
{
    let mut bytes = [0; 248];
    bytes.copy_from_slice(&text[at..at + 248]);
    bytes
}

/// The fields that stand in a text.
pub(crate) fn fields_at(text: &[u8; 672]) -> Fields
    ensures { HasFields result text.now }
{
    Fields {
        kind: text[0],
        place: text[1],
        page: u32_at(text, 4),
        bsi: u64_at(text, 8),
        txn: u64_at(text, 16),
        prev: u64_at(text, 24),
        extra: u64_at(text, 32),
        group: u32_at(text, 40),
        before: Half {
            state: text[44],
            len: text[45],
            value: value_at(text, 48),
        },
        after: Half {
            state: text[46],
            len: text[47],
            value: value_at(text, 296),
        },
    }
}

fn content_in(half: &Half) -> Option<Value>
    ensures { result ≡ content_in half.now }
{
    if half.state == 0 {
        return None;
    }
    // A longer one is of no record: the text that is written of it differs.
    let len = half.len.min(248) as usize;
    Value::from_slice(&half.value[..len])
}

fn set_in(f: &Fields) -> LogRecord
    ensures { result ≡ set_in f.now }
{
    LogRecord::Set {
        txn: f.txn,
        prev: f.prev,
        page: PageNo(f.page),
        bsi: f.bsi,
        slot: f.place,
        before: content_in(&f.before),
        after: content_in(&f.after),
    }
}

fn append_in(f: &Fields) -> LogRecord
    ensures { result ≡ append_in f.now }
{
    LogRecord::Append {
        txn: f.txn,
        prev: f.prev,
        page: PageNo(f.page),
        bsi: f.bsi,
        slot: f.place,
        present: f.before.state != 0,
        len: f.before.len,
        bytes: content_in(&f.after).unwrap_or(Value::empty()),
    }
}

fn restore_in(f: &Fields) -> LogRecord
    ensures { result ≡ restore_in f.now }
{
    LogRecord::Restore {
        txn: f.txn,
        prev: f.prev,
        next: f.extra,
        page: PageNo(f.page),
        bsi: f.bsi,
        slot: f.place,
        after: content_in(&f.after),
    }
}

fn cut_in(f: &Fields) -> LogRecord
    ensures { result ≡ cut_in f.now }
{
    LogRecord::Cut {
        txn: f.txn,
        prev: f.prev,
        next: f.extra,
        page: PageNo(f.page),
        bsi: f.bsi,
        slot: f.place,
        present: f.after.state != 0,
        len: f.after.len,
    }
}

fn map_use_in(f: &Fields) -> LogRecord
    ensures { result ≡ map_use_in f.now }
{
    LogRecord::MapUse {
        page: PageNo(f.page),
        bsi: f.bsi,
        place: f.place,
        group: GroupNo(f.group),
    }
}

fn map_free_in(f: &Fields) -> LogRecord
    ensures { result ≡ map_free_in f.now }
{
    LogRecord::MapFree {
        page: PageNo(f.page),
        bsi: f.bsi,
        place: f.place,
        group: GroupNo(f.group),
        ident: f.extra,
    }
}

/// The record that has these fields, whether or not it is legal.
pub(crate) fn record_in(f: &Fields) -> Option<LogRecord>
    ensures { result ≡ record_in f.now }
{
    match f.kind {
        1 => Some(LogRecord::Begin),
        2 => Some(set_in(f)),
        3 => Some(append_in(f)),
        4 => Some(LogRecord::Commit {
            txn: f.txn,
            prev: f.prev,
        }),
        5 => Some(LogRecord::Abort {
            txn: f.txn,
            prev: f.prev,
        }),
        6 => Some(restore_in(f)),
        7 => Some(cut_in(f)),
        8 => Some(map_use_in(f)),
        9 => Some(map_free_in(f)),
        _ => None,
    }
}
