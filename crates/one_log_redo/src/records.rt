//! A record of a log is read, and tested as far as redo tests it.

ghost use Rattle.std.specs.Prelude.{◌≡◌, ◌↔◌, ◌≤◌, ◌<◌, IfSome, IsTrue, Some};
ghost use Rattle.sd_base.specs.Shape.{IsShape, page_count};
ghost use Rattle.log_record.specs.declared.record.LogRecord.{LogRecord};
ghost use Rattle.recovery_theory.specs.Effect.{effect_of};
ghost use Rattle.one_log_redo.specs.Records.{IsRecordOf, NamesPage};

use log_record::{LogRecord, decode};
use sd_base::{PageNo, Shape};

/// Whether this is a data page of a store.
fn is_data(s: &Shape, x: PageNo) -> bool
    requires { IsShape s.now }
    ensures { IsTrue result ↔ (s.now.maps ≤ x.0) × (x.0 < page_count s.now) }
{
    s.maps <= x.0 && x.0 < s.page_count()
}

/// Whether the page of a record is one of the store, and of the kind that the record changes.
fn names_page(s: &Shape, rec: &LogRecord) -> bool
    requires { IsShape s.now }
    ensures { IsTrue result ↔ NamesPage s.now (effect_of rec.now) }
{
    match rec {
        LogRecord::Begin | LogRecord::Commit { .. } | LogRecord::Abort { .. } => true,
        LogRecord::Set { page, .. }
        | LogRecord::Append { page, .. }
        | LogRecord::Restore { page, .. }
        | LogRecord::Cut { page, .. } => is_data(s, *page),
        LogRecord::MapUse { page, .. } | LogRecord::MapFree { page, .. } => page.0 < s.maps,
    }
}

/// Reads the text of a record of a log. `None` exactly where it is of no legal record, or of one whose
/// page isn't of the store or not of the kind that the record changes: kinds 8 and 9 change map pages,
/// and the others data pages.
pub fn read_record(text: &[u8; 672], s: &Shape) -> Option<LogRecord>
    requires { IsShape s.now }
    ensures found { IfSome result (IsRecordOf s.now text.now) }
    ensures only { (rec : LogRecord) → IsRecordOf s.now text.now rec → result ≡ Some rec }
{
    let rec = decode(text)?;
    if names_page(s, &rec) { Some(rec) } else { None }
}
