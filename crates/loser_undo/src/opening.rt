//! Which transactions are open in a log, as it is read record by record.

ghost use Rattle.std.specs.Prelude.{◌≡◌, ◌≢◌, ◌*◌, ◌≤◌, ◌<◌, ℕ, true, false, List, Contains, IfNone, IfSome, IsTrue, IfOk, IfErr, OnOk, length, remove};
ghost use Rattle.sd_base.specs.Calls.{Keeps, KeepsForeign, Narrows, NoNewWriter};
ghost use Rattle.sd_base.specs.Disk.{IsPort};
ghost use Rattle.sd_base.specs.Faults.{Caused, OnStop, StaysLive};
ghost use Rattle.log_record.specs.declared.record.LogRecord.{LogRecord};
ghost use Rattle.private_log.specs.Spread.{IsFreeRegion, IsStill};
ghost use Rattle.private_log.specs.Frames.{IsInReach};
ghost use Rattle.private_log.specs.Log.{region};
ghost use Rattle.private_log.specs.Reading.{IsLogFault};
ghost use Rattle.compensation.specs.Finding.{record_at};
ghost use Rattle.recovery_theory.specs.Effect.{effect_of};
ghost use Rattle.loser_undo.specs.Logs.{HasRecords, first_of};
ghost use Rattle.loser_undo.specs.Losers.{IsBreach};
ghost use Rattle.loser_undo.specs.Rules.{AllFollow, AreBetween, MayFollow, open_by, open_in, without};

use crate::naming::{is_begin, is_end, txn_of};
use crate::reading::{damaged, first_of, read_record};
use arrayvec::ArrayVec;
use log_record::LogRecord;
use private_log::Log;
use sd_base::{DevFault, Disk, NodeId};

/// The place of a transaction among the open ones.
pub(crate) fn find(open: &[u64], t: u64) -> Option<usize>
    ensures some { IfSome result (λ i. (i < length open.now) × Contains open.now t × (remove open.now i ≡ without t open.now)) }
    ensures none { IfNone result (¬ (Contains open.now t) × (without t open.now ≡ open.now)) }
{
    for i in 0..open.len() {
        if open[i] == t {
            return Some(i);
        }
    }
    None
}

/// Takes record `r` into account, and answers whether it may follow: a record names an open transaction,
/// or one that began before the log's first record, and at most eight are open.
fn follow(open: &mut ArrayVec<u64, 8>, first: u64, r: u64, rec: &LogRecord) -> bool
    ensures kept { IsTrue result → MayFollow first open.old.items (effect_of rec.now) }
    ensures after { IsTrue result → open.new.items ≡ open_by r (effect_of rec.now) open.old.items }
    ensures broken { result ≡ false → ¬ (MayFollow first open.old.items (effect_of rec.now)) }
{
    let Some(t) = txn_of(rec) else {
        return !is_begin(rec) || open.try_push(r).is_ok();
    };
    let Some(i) = find(open.as_slice(), t) else {
        return t < first;
    };
    if is_end(rec) {
        open.remove(i);
    }
    true
}

/// The transactions that have no end in a log, by the numbers of the records that began them, in rising
/// order. The log is read record by record.
///
/// It answers `Damaged` for the block of the first record that may not follow those before it.
pub fn open_transactions<D: Disk>(
    disk: &mut D,
    log: &Log,
    port: NodeId,
) -> Result<ArrayVec<u64, 8>, DevFault>
    requires port { IsPort port.0 }
    requires live { (D.state disk.old).live port.0 ≡ true }
    requires reach { IsInReach (region log.now) (D.state disk.old).reach }
    ensures keeps { Keeps port.0 (D.state disk.old) (D.state disk.new) }
    ensures cause { IfErr result (λ fault. Caused fault (D.state disk.old) (D.state disk.new)) }
    ensures fault { IfErr result (IsLogFault (region log.now) port.0) }
    ensures live { StaysLive result ((D.state disk.new).live port.0 ≡ true) }
    ensures stopped { IfErr result (λ fault. OnStop fault ((D.state disk.new).live port.0 ≡ false)) }
    ensures outcomes { IsTrue D.told → Narrows (D.state disk.old).block (D.state disk.new).block }
    ensures writers { IsTrue D.told → NoNewWriter (D.state disk.old).block (D.state disk.new).block }
    ensures foreign { IsTrue D.told → KeepsForeign port.0 (D.state disk.old).block (D.state disk.new).block }
    ensures blocks { IsTrue D.told → StaysLive result ((D.state disk.new).block ≡ (D.state disk.old).block) }
    ensures still { IfErr result (λ fault. OnStop fault (IsTrue D.told → IsFreeRegion (region log.now) port.0 (D.state disk.old).block → IsStill (region log.now) (D.state disk.new).block)) }
    ensures within { IfOk result (λ ts. AreBetween (first_of log.now) log.now.tail ts.items) }
    ensures begun { IfOk result (λ ts. IsTrue D.told → (recs : List LogRecord) → HasRecords log.now (D.state disk.old).block recs → ts.items ≡ open_in (first_of log.now) recs) }
    ensures follow { OnOk result (IsTrue D.told → (recs : List LogRecord) → HasRecords log.now (D.state disk.old).block recs → AllFollow (first_of log.now) recs) }
    ensures breach { IsTrue D.told → (recs : List LogRecord) → HasRecords log.now (D.state disk.old).block recs → IfErr result (IsBreach log.now recs) }
{
    let first = first_of(log);
    let mut open = ArrayVec::new();
    for r in first..log.tail() {
        let rec = read_record(disk, log, port, r)?;
        if !follow(&mut open, first, r, &rec) {
            return Err(damaged(log, r));
        }
    }
    Ok(open)
}
