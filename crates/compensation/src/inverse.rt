//! The change of a page that takes an update back.

ghost use Rattle.std.specs.Prelude.{◌≡◌, IfSome};
ghost use Rattle.compensation.specs.Inverse.{taking_back, Undoes};

use log_record::LogRecord;
use sd_base::PageOp;

/// The change of its page that takes an update back: what `Restore` does for `Set`, and `Cut` for
/// `Append`. `None` exactly for other records.
pub fn take_back(rec: &LogRecord) -> Option<PageOp>
    ensures change { result ≡ taking_back rec.now }
    ensures undoes { IfSome result (Undoes rec.now) }
{
    match *rec {
        LogRecord::Set { slot, before, .. } => Some(PageOp::Put {
            slot,
            after: before,
        }),
        LogRecord::Append {
            slot,
            present,
            len,
            ..
        } => Some(PageOp::Cut { slot, present, len }),
        LogRecord::Begin
        | LogRecord::Commit { .. }
        | LogRecord::Abort { .. }
        | LogRecord::Restore { .. }
        | LogRecord::Cut { .. }
        | LogRecord::MapUse { .. }
        | LogRecord::MapFree { .. } => None,
    }
}
