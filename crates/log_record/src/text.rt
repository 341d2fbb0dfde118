//! A record is written as a text of 672 bytes, and read back.

ghost use Rattle.std.specs.Prelude.{◌≡◌, IfSome, Some};
ghost use Rattle.log_record.specs.declared.fields.Fields.{Fields};
ghost use Rattle.log_record.specs.declared.record.LogRecord.{LogRecord};
ghost use Rattle.log_record.specs.Legal.{IsLegal};
ghost use Rattle.log_record.specs.Text.{fields_text, record_text};

use crate::fields::{Fields, fields_of};
use crate::legal::is_legal;
use crate::reading::{fields_at, record_in};
use crate::record::LogRecord;
use sd_base::{put_bytes, put_u32, put_u64};

/// A text is read in one way: no two legal records have one text.
pub fn law_of_one_text()
    ensures { (r s : LogRecord) → IsLegal r → IsLegal s → record_text r ≡ record_text s → r ≡ s }
{}

fn write_fields(f: &Fields, out: &mut [u8; 672])
    ensures { out.new ≡ fields_text f.now }
{
    *out = [0; 672];
    put_bytes(out, 0, &[f.kind, f.place]);
    put_u32(out, 4, f.page);
    put_u64(out, 8, f.bsi);
    put_u64(out, 16, f.txn);
    put_u64(out, 24, f.prev);
    put_u64(out, 32, f.extra);
    put_u32(out, 40, f.group);
    let states = [f.before.state, f.before.len, f.after.state, f.after.len];
    put_bytes(out, 44, &states);
    put_bytes(out, 48, &f.before.value);
    put_bytes(out, 296, &f.after.value);
}

/// Writes the text of a record. The format is in docs/FORMATS.md.
pub fn encode(rec: &LogRecord, out: &mut [u8; 672])
    requires { IsLegal rec.now }
    ensures { out.new ≡ record_text rec.now }
{
    write_fields(&fields_of(rec), out);
}

/// The record whose fields stand in a text, if it is legal, whatever else stands there.
fn record_at(text: &[u8; 672]) -> Option<LogRecord>
    ensures legal { IfSome result IsLegal }
    ensures read { (r : LogRecord) → IsLegal r → text.now ≡ record_text r → result ≡ Some r }
{
    let rec = record_in(&fields_at(text))?;
    if is_legal(&rec) { Some(rec) } else { None }
}

/// Reads the text of a record. `None` exactly where it is of no legal record.
///
/// The format is in docs/FORMATS.md.
pub fn decode(text: &[u8; 672]) -> Option<LogRecord>
    ensures found { IfSome result (λ r. IsLegal r × (text.now ≡ record_text r)) }
    ensures only { (r : LogRecord) → IsLegal r → text.now ≡ record_text r → result ≡ Some r }
{
    let rec = record_at(text)?;
    // Each other byte is that of the record's own text, or it isn't one.
    let mut again = [0; 672];
    encode(&rec, &mut again);
    if again == *text { Some(rec) } else { None }
}
