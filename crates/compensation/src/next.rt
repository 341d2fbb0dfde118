//! What a log record says of others: which one stands before it, and which to take back next.

ghost use Rattle.std.specs.Prelude.{◌≡◌};
ghost use Rattle.compensation.specs.Finding.{next_to_undo, record_before};
ghost use Rattle.compensation.specs.Left.{next_after};

use log_record::LogRecord;

/// The record of its transaction that is to be taken back next, where record `r` is the last one: `r`
/// itself for an update, and what a compensation names. `None` exactly for other records.
pub fn next_of(rec: &LogRecord, r: u64) -> Option<u64>
    ensures { result ≡ next_to_undo rec.now r }
{
    match *rec {
        LogRecord::Set { .. } | LogRecord::Append { .. } => Some(r),
        LogRecord::Restore { next, .. } | LogRecord::Cut { next, .. } => Some(next),
        LogRecord::Begin
        | LogRecord::Commit { .. }
        | LogRecord::Abort { .. }
        | LogRecord::MapUse { .. }
        | LogRecord::MapFree { .. } => None,
    }
}

/// The record of its transaction before this one, which names it; zero for a record that names none.
pub fn record_before(rec: &LogRecord) -> u64
    ensures { result ≡ record_before rec.now }
{
    match *rec {
        LogRecord::Set { prev, .. }
        | LogRecord::Append { prev, .. }
        | LogRecord::Commit { prev, .. }
        | LogRecord::Abort { prev, .. }
        | LogRecord::Restore { prev, .. }
        | LogRecord::Cut { prev, .. } => prev,
        LogRecord::Begin | LogRecord::MapUse { .. } | LogRecord::MapFree { .. } => 0,
    }
}

/// The record that a compensation of the transaction `t` names as the one to be taken back next.
/// `None` exactly for other records.
pub fn next_after(rec: &LogRecord, t: u64) -> Option<u64>
    ensures { result ≡ next_after t rec.now }
{
    match *rec {
        LogRecord::Restore { txn, next, .. } | LogRecord::Cut { txn, next, .. } if txn == t => {
            Some(next)
        }
        _ => None,
    }
}
