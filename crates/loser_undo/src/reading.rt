//! A record of a log is read by its number, and tested as far as redo tests it.

ghost use Rattle.std.specs.Prelude.{◌≡◌, ◌/◌, ◌≤◌, ◌<◌, ℕ, true, false, List, Some, IsTrue, IfOk, IfErr};
ghost use Rattle.sd_base.specs.Calls.{Keeps, KeepsForeign, Narrows, NoNewWriter};
ghost use Rattle.sd_base.specs.Disk.{IsPort};
ghost use Rattle.sd_base.specs.Faults.{Caused, IsStopOf, OnStop, StaysLive};
ghost use Rattle.log_record.specs.declared.record.LogRecord.{LogRecord};
ghost use Rattle.log_record.specs.Legal.{IsLegal};
ghost use Rattle.private_log.specs.Spread.{IsFreeRegion, IsStill};
ghost use Rattle.private_log.specs.Frames.{IsInReach};
ghost use Rattle.private_log.specs.Content.{place};
ghost use Rattle.private_log.specs.Log.{IsLog, IsLogOn, region};
ghost use Rattle.private_log.specs.Reading.{IsLogFault};
ghost use Rattle.compensation.specs.Finding.{record_at};
ghost use Rattle.loser_undo.specs.Logs.{HasRecords, IsNoRecordAt, IsTextOf, first_of};

use log_record::LogRecord;
use private_log::Log;
use sd_base::{DevFault, Disk, NodeId};

/// The number of the first record of a log.
pub(crate) fn first_of(log: &Log) -> u64
    ensures first { result ≡ first_of log.now }
    ensures log { IsLog log.now }
{
    6 * log.start()
}

/// That the block of a record doesn't keep the rules of a log.
pub(crate) fn damaged(log: &Log, r: u64) -> DevFault
    ensures is { result ≡ DevFault.Damaged (record { 0 = place (region log.now) (r / 6) }) }
    ensures fault { (port : ℕ) → IsLogFault (region log.now) port result }
{
    DevFault::Damaged(log.shape().ring_block(log.node(), r / 6))
}

/// Reads a record of a log. It answers `Damaged` where the record's block isn't the log block that should
/// stand there, or the text is of no legal record, or of one whose page isn't of the store or not of the
/// kind that the record changes.
pub(crate) fn read_record<D: Disk>(
    disk: &mut D,
    log: &Log,
    port: NodeId,
    r: u64,
) -> Result<LogRecord, DevFault>
    requires from { first_of log.now ≤ r }
    requires below { r < log.now.tail }
    requires port { IsPort port.0 }
    requires live { (D.state disk.old).live port.0 ≡ true }
    requires reach { IsInReach (region log.now) (D.state disk.old).reach }
    ensures keeps { Keeps port.0 (D.state disk.old) (D.state disk.new) }
    ensures cause { IfErr result (λ fault. Caused fault (D.state disk.old) (D.state disk.new)) }
    ensures fault { IfErr result (IsLogFault (region log.now) port.0) }
    ensures live { StaysLive result ((D.state disk.new).live port.0 ≡ true) }
    ensures stopped { IfErr result (λ fault. OnStop fault ((D.state disk.new).live port.0 ≡ false)) }
    ensures outcomes { IsTrue D.told → Narrows (D.state disk.old).block (D.state disk.new).block }
    ensures writers { IsTrue D.told → NoNewWriter (D.state disk.old).block (D.state disk.new).block }
    ensures foreign { IsTrue D.told → KeepsForeign port.0 (D.state disk.old).block (D.state disk.new).block }
    ensures blocks { IsTrue D.told → StaysLive result ((D.state disk.new).block ≡ (D.state disk.old).block) }
    ensures still { IfErr result (λ fault. OnStop fault (IsTrue D.told → IsFreeRegion (region log.now) port.0 (D.state disk.old).block → IsStill (region log.now) (D.state disk.new).block)) }
    ensures legal { IfOk result IsLegal }
    ensures text { IfOk result (λ rec. IsTrue D.told → (xs : List (List ℕ)) → IsLogOn log.now (D.state disk.old).block xs → IsTextOf log.now xs r rec) }
    ensures damaged { IsTrue D.told → (xs : List (List ℕ)) → IsLogOn log.now (D.state disk.old).block xs → IfErr result (IsNoRecordAt log.now xs r) }
    ensures record { IfOk result (λ rec. IsTrue D.told → (recs : List LogRecord) → HasRecords log.now (D.state disk.old).block recs → record_at (first_of log.now) recs r ≡ Some rec) }
    ensures there { IsTrue D.told → (recs : List LogRecord) → HasRecords log.now (D.state disk.old).block recs → IfErr result (IsStopOf port.0) }
{
    let mut text = [0; 672];
    log.read(disk, port, r, &mut text)?;
    match one_log_redo::read_record(&text, &log.shape()) {
        Some(rec) => Ok(rec),
        None => Err(damaged(log, r)),
    }
}
