//! The kinds of log records, and the change that a record makes of its page.

ghost use Rattle.std.specs.Prelude.{◌≡◌};
ghost use Rattle.log_record.specs.Record.{change_of, page_op_of};

use crate::fields::{bsi_of, page_of};
use sd_base::{GroupNo, PageNo, PageOp, Value};

/// A record of a node's log.
///
/// In all variants: `txn` is the number of the record that began the transaction, and `prev` that of
/// the transaction's record before this one. `page` is the page that is changed, and `bsi` its
/// before-state identifier: the page's identifier before the change. `slot` is the slot of a data
/// page, from 0 to 15, and `place` the entry of a map page, from 0 to 251.
#[derive(Clone, Copy, Debug, PartialEq, Eq)]
pub enum LogRecord {
    /// A transaction begins.
    Begin,
    /// A slot that held `before` holds `after`.
    Set {
        txn: u64,
        prev: u64,
        page: PageNo,
        bsi: u64,
        slot: u8,
        before: Option<Value>,
        after: Option<Value>,
    },
    /// A slot's value gets these bytes behind its own. Before that the slot was present or absent,
    /// and its value had `len` bytes.
    Append {
        txn: u64,
        prev: u64,
        page: PageNo,
        bsi: u64,
        slot: u8,
        present: bool,
        len: u8,
        bytes: Value,
    },
    /// A transaction is committed.
    Commit {
        txn: u64,
        prev: u64,
    },
    /// A transaction is given up: what it did is taken back from here on.
    Abort {
        txn: u64,
        prev: u64,
    },
    /// Takes a `Set` back: the slot holds `after`. `next` is the number of the record that is to be
    /// taken back next, or `txn` if none is left.
    Restore {
        txn: u64,
        prev: u64,
        next: u64,
        page: PageNo,
        bsi: u64,
        slot: u8,
        after: Option<Value>,
    },
    /// Takes an `Append` back: the slot keeps the first `len` bytes of its value, or becomes absent
    /// unless `present`. `next` is as in `Restore`.
    Cut {
        txn: u64,
        prev: u64,
        next: u64,
        page: PageNo,
        bsi: u64,
        slot: u8,
        present: bool,
        len: u8,
    },
    /// A map entry becomes used by a group.
    MapUse {
        page: PageNo,
        bsi: u64,
        place: u8,
        group: GroupNo,
    },
    /// A map entry that a group used becomes free, with this identifier.
    MapFree {
        page: PageNo,
        bsi: u64,
        place: u8,
        group: GroupNo,
        ident: u64,
    },
}

/// The change that a record makes of its page.
fn change_of(rec: &LogRecord) -> Option<PageOp>
    ensures { result ≡ change_of rec.now }
{
    match *rec {
        LogRecord::Begin | LogRecord::Commit { .. } | LogRecord::Abort { .. } => None,
        LogRecord::Set { slot, after, .. } | LogRecord::Restore { slot, after, .. } => {
            Some(PageOp::Put { slot, after })
        }
        LogRecord::Append { slot, bytes, .. } => Some(PageOp::Append { slot, bytes }),
        LogRecord::Cut {
            slot,
            present,
            len,
            ..
        } => Some(PageOp::Cut { slot, present, len }),
        LogRecord::MapUse { place, group, .. } => Some(PageOp::MapUse { place, group }),
        LogRecord::MapFree { place, ident, .. } => Some(PageOp::MapFree { place, ident }),
    }
}

/// The page that a record changes, its identifier before the change, and the change. `None` exactly
/// for `Begin`, `Commit` and `Abort`.
pub fn page_op(rec: &LogRecord) -> Option<(PageNo, u64, PageOp)>
    ensures { result ≡ page_op_of rec.now }
{
    let change = change_of(rec)?;
    Some((page_of(rec), bsi_of(rec), change))
}
