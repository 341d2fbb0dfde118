//! A log record is read by its number; a text that is no record counts as damage.

ghost use Rattle.std.specs.Prelude.{◌≡◌, ◌*◌, ◌≤◌, ◌<◌, true, false, List, Option, Some, IsTrue, IfOk, IfErr};
ghost use Rattle.sd_base.specs.Calls.{Keeps, KeepsForeign, Narrows, NoNewWriter};
ghost use Rattle.sd_base.specs.Faults.{Caused, IsStopOf, OnStop, StaysLive};
ghost use Rattle.log_record.specs.declared.record.LogRecord.{LogRecord};
ghost use Rattle.log_record.specs.Legal.{IsLegal};
ghost use Rattle.private_log.specs.Spread.{IsFreeRegion, IsStill};
ghost use Rattle.private_log.specs.Frames.{IsInReach};
ghost use Rattle.private_log.specs.Log.{region};
ghost use Rattle.private_log.specs.Reading.{IsLogFault};
ghost use Rattle.compensation.specs.Finding.{record_at};
ghost use Rattle.txn_core.specs.Told.{HasRecords};

use log_record::{LogRecord, decode};
use private_log::Log;
use sd_base::{DevFault, Disk};

/// Reads a record of a log. It answers `Damaged` where the record's block isn't the log block that should
/// stand there, or the record is none.
pub(crate) fn read_record<D: Disk>(disk: &mut D, log: &Log, r: u64) -> Result<LogRecord, DevFault>
    requires from { 6 * log.now.start ≤ r }
    requires below { r < log.now.tail }
    requires live { (D.state disk.old).live log.now.node.0 ≡ true }
    requires reach { IsInReach (region log.now) (D.state disk.old).reach }
    ensures keeps { Keeps log.now.node.0 (D.state disk.old) (D.state disk.new) }
    ensures cause { IfErr result (λ fault. Caused fault (D.state disk.old) (D.state disk.new)) }
    ensures fault { IfErr result (IsLogFault (region log.now) log.now.node.0) }
    ensures live { StaysLive result ((D.state disk.new).live log.now.node.0 ≡ true) }
    ensures stopped { IfErr result (λ fault. OnStop fault ((D.state disk.new).live log.now.node.0 ≡ false)) }
    ensures outcomes { IsTrue D.told → Narrows (D.state disk.old).block (D.state disk.new).block }
    ensures writers { IsTrue D.told → NoNewWriter (D.state disk.old).block (D.state disk.new).block }
    ensures foreign { IsTrue D.told → KeepsForeign log.now.node.0 (D.state disk.old).block (D.state disk.new).block }
    ensures blocks { IsTrue D.told → StaysLive result ((D.state disk.new).block ≡ (D.state disk.old).block) }
    ensures still { IfErr result (λ fault. OnStop fault (IsTrue D.told → IsFreeRegion (region log.now) log.now.node.0 (D.state disk.old).block → IsStill (region log.now) (D.state disk.new).block)) }
    ensures legal { IfOk result IsLegal }
    ensures record { IfOk result (λ rec. IsTrue D.told → (recs : List LogRecord) → HasRecords log.now (D.state disk.old).block recs → record_at (6 * log.now.start) recs r ≡ Some rec) }
    ensures there { IsTrue D.told → (recs : List LogRecord) → HasRecords log.now (D.state disk.old).block recs → IfErr result (IsStopOf log.now.node.0) }
{
    let node = log.node();
    let mut text = [0; 672];
    log.read(disk, node, r, &mut text)?;
    match decode(&text) {
        Some(rec) => Ok(rec),
        None => Err(DevFault::Damaged(log.shape().ring_block(node, r / 6))),
    }
}
