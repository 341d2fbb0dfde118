//! Which records of a log a record leads to: those of transactions without an end lead back to earlier
//! ones of the same transaction.

ghost use Rattle.std.specs.Prelude.{◌≡◌, ◌≤◌, ◌<◌, ℕ, true, false, List, Some, IsTrue, IfOk, IfErr, OnOk};
ghost use Rattle.sd_base.specs.Calls.{Keeps, KeepsForeign, Narrows, NoNewWriter};
ghost use Rattle.sd_base.specs.Disk.{IsPort};
ghost use Rattle.sd_base.specs.Faults.{Caused, IsStopOf, OnStop, StaysLive};
ghost use Rattle.log_record.specs.declared.record.LogRecord.{LogRecord};
ghost use Rattle.log_record.specs.Legal.{IsLegal};
ghost use Rattle.private_log.specs.Spread.{IsFreeRegion, IsStill};
ghost use Rattle.private_log.specs.Frames.{IsInReach};
ghost use Rattle.private_log.specs.Log.{region};
ghost use Rattle.private_log.specs.Reading.{IsLogFault};
ghost use Rattle.compensation.specs.Finding.{record_at};
ghost use Rattle.loser_undo.specs.Logs.{HasRecords, first_of};
ghost use Rattle.loser_undo.specs.Losers.{IsBreach};
ghost use Rattle.loser_undo.specs.Rules.{AllAreBound, IsBound, IsEarlier, IsFollowed, IsOfPast, LeadsBack, Names, open_in};

use crate::naming::{is_end, names, names_so, txn_of};
use crate::opening::find;
use crate::reading::{damaged, first_of, read_record};
use compensation::{next_after, record_before};
use log_record::LogRecord;
use private_log::Log;
use sd_base::{DevFault, Disk, NodeId};

/// Whether a record behind record `r` names the transaction `t`, and ends it where `ending` says so.
fn is_followed<D: Disk>(
    disk: &mut D,
    log: &Log,
    port: NodeId,
    t: u64,
    r: u64,
    ending: bool,
) -> Result<bool, DevFault>
    requires from { first_of log.now ≤ r }
    requires below { r < log.now.tail }
    requires port { IsPort port.0 }
    requires live { (D.state disk.old).live port.0 ≡ true }
    requires reach { IsInReach (region log.now) (D.state disk.old).reach }
    ensures keeps { Keeps port.0 (D.state disk.old) (D.state disk.new) }
    ensures cause { IfErr result (λ fault. Caused fault (D.state disk.old) (D.state disk.new)) }
    ensures fault { IfErr result (IsLogFault (region log.now) port.0) }
    ensures live { StaysLive result ((D.state disk.new).live port.0 ≡ true) }
    ensures stopped { IfErr result (λ fault. OnStop fault ((D.state disk.new).live port.0 ≡ false)) }
    ensures outcomes { IsTrue D.told → Narrows (D.state disk.old).block (D.state disk.new).block }
    ensures writers { IsTrue D.told → NoNewWriter (D.state disk.old).block (D.state disk.new).block }
    ensures foreign { IsTrue D.told → KeepsForeign port.0 (D.state disk.old).block (D.state disk.new).block }
    ensures blocks { IsTrue D.told → StaysLive result ((D.state disk.new).block ≡ (D.state disk.old).block) }
    ensures still { IfErr result (λ fault. OnStop fault (IsTrue D.told → IsFreeRegion (region log.now) port.0 (D.state disk.old).block → IsStill (region log.now) (D.state disk.new).block)) }
    ensures there { IsTrue D.told → (recs : List LogRecord) → HasRecords log.now (D.state disk.old).block recs → IfErr result (IsStopOf port.0) }
    ensures yes { IfOk result (λ found. found ≡ true → IsTrue D.told → (recs : List LogRecord) → HasRecords log.now (D.state disk.old).block recs → IsFollowed (first_of log.now) recs ending t r) }
    ensures no { IfOk result (λ found. found ≡ false → IsTrue D.told → (recs : List LogRecord) → HasRecords log.now (D.state disk.old).block recs → ¬ (IsFollowed (first_of log.now) recs ending t r)) }
{
    let end = log.tail();
    for q in r + 1..end {
        let rec = read_record(disk, log, port, q)?;
        if names_so(&rec, t, ending) {
            return Ok(true);
        }
    }
    Ok(false)
}

/// Whether record `r` keeps the rule of a transaction that began before the log's first record.
fn is_of_past<D: Disk>(
    disk: &mut D,
    log: &Log,
    port: NodeId,
    t: u64,
    r: u64,
    rec: &LogRecord,
) -> Result<bool, DevFault>
    requires from { first_of log.now ≤ r }
    requires below { r < log.now.tail }
    requires port { IsPort port.0 }
    requires live { (D.state disk.old).live port.0 ≡ true }
    requires reach { IsInReach (region log.now) (D.state disk.old).reach }
    ensures keeps { Keeps port.0 (D.state disk.old) (D.state disk.new) }
    ensures cause { IfErr result (λ fault. Caused fault (D.state disk.old) (D.state disk.new)) }
    ensures fault { IfErr result (IsLogFault (region log.now) port.0) }
    ensures live { StaysLive result ((D.state disk.new).live port.0 ≡ true) }
    ensures stopped { IfErr result (λ fault. OnStop fault ((D.state disk.new).live port.0 ≡ false)) }
    ensures outcomes { IsTrue D.told → Narrows (D.state disk.old).block (D.state disk.new).block }
    ensures writers { IsTrue D.told → NoNewWriter (D.state disk.old).block (D.state disk.new).block }
    ensures foreign { IsTrue D.told → KeepsForeign port.0 (D.state disk.old).block (D.state disk.new).block }
    ensures blocks { IsTrue D.told → StaysLive result ((D.state disk.new).block ≡ (D.state disk.old).block) }
    ensures still { IfErr result (λ fault. OnStop fault (IsTrue D.told → IsFreeRegion (region log.now) port.0 (D.state disk.old).block → IsStill (region log.now) (D.state disk.new).block)) }
    ensures there { IsTrue D.told → (recs : List LogRecord) → HasRecords log.now (D.state disk.old).block recs → IfErr result (IsStopOf port.0) }
    ensures yes { IfOk result (λ kept. kept ≡ true → IsTrue D.told → (recs : List LogRecord) → HasRecords log.now (D.state disk.old).block recs → IsOfPast (first_of log.now) recs t r rec.now) }
    ensures no { IfOk result (λ kept. kept ≡ false → IsTrue D.told → (recs : List LogRecord) → HasRecords log.now (D.state disk.old).block recs → ¬ (IsOfPast (first_of log.now) recs t r rec.now)) }
{
    if is_end(rec) {
        let found = is_followed(disk, log, port, t, r, false)?;
        return Ok(!found);
    }
    is_followed(disk, log, port, t, r, true)
}

/// Whether record `p` is one of the transaction `t` before record `r`, or the one that began it.
fn is_earlier<D: Disk>(
    disk: &mut D,
    log: &Log,
    port: NodeId,
    t: u64,
    r: u64,
    p: u64,
) -> Result<bool, DevFault>
    requires begun { first_of log.now ≤ t }
    requires below { r < log.now.tail }
    requires port { IsPort port.0 }
    requires live { (D.state disk.old).live port.0 ≡ true }
    requires reach { IsInReach (region log.now) (D.state disk.old).reach }
    ensures keeps { Keeps port.0 (D.state disk.old) (D.state disk.new) }
    ensures cause { IfErr result (λ fault. Caused fault (D.state disk.old) (D.state disk.new)) }
    ensures fault { IfErr result (IsLogFault (region log.now) port.0) }
    ensures live { StaysLive result ((D.state disk.new).live port.0 ≡ true) }
    ensures stopped { IfErr result (λ fault. OnStop fault ((D.state disk.new).live port.0 ≡ false)) }
    ensures outcomes { IsTrue D.told → Narrows (D.state disk.old).block (D.state disk.new).block }
    ensures writers { IsTrue D.told → NoNewWriter (D.state disk.old).block (D.state disk.new).block }
    ensures foreign { IsTrue D.told → KeepsForeign port.0 (D.state disk.old).block (D.state disk.new).block }
    ensures blocks { IsTrue D.told → StaysLive result ((D.state disk.new).block ≡ (D.state disk.old).block) }
    ensures still { IfErr result (λ fault. OnStop fault (IsTrue D.told → IsFreeRegion (region log.now) port.0 (D.state disk.old).block → IsStill (region log.now) (D.state disk.new).block)) }
    ensures there { IsTrue D.told → (recs : List LogRecord) → HasRecords log.now (D.state disk.old).block recs → IfErr result (IsStopOf port.0) }
    ensures yes { IfOk result (λ is. is ≡ true → IsTrue D.told → (recs : List LogRecord) → HasRecords log.now (D.state disk.old).block recs → IsEarlier (first_of log.now) recs t r p) }
    ensures no { IfOk result (λ is. is ≡ false → IsTrue D.told → (recs : List LogRecord) → HasRecords log.now (D.state disk.old).block recs → ¬ (IsEarlier (first_of log.now) recs t r p)) }
{
    if p < t || p >= r {
        return Ok(false);
    }
    if p == t {
        return Ok(true);
    }
    let rec = read_record(disk, log, port, p)?;
    Ok(names(&rec, t))
}

/// Whether record `r`, of a transaction that has no end, leads to earlier ones of it.
fn leads_back<D: Disk>(
    disk: &mut D,
    log: &Log,
    port: NodeId,
    t: u64,
    r: u64,
    rec: &LogRecord,
) -> Result<bool, DevFault>
    requires begun { first_of log.now ≤ t }
    requires below { r < log.now.tail }
    requires port { IsPort port.0 }
    requires live { (D.state disk.old).live port.0 ≡ true }
    requires reach { IsInReach (region log.now) (D.state disk.old).reach }
    ensures keeps { Keeps port.0 (D.state disk.old) (D.state disk.new) }
    ensures cause { IfErr result (λ fault. Caused fault (D.state disk.old) (D.state disk.new)) }
    ensures fault { IfErr result (IsLogFault (region log.now) port.0) }
    ensures live { StaysLive result ((D.state disk.new).live port.0 ≡ true) }
    ensures stopped { IfErr result (λ fault. OnStop fault ((D.state disk.new).live port.0 ≡ false)) }
    ensures outcomes { IsTrue D.told → Narrows (D.state disk.old).block (D.state disk.new).block }
    ensures writers { IsTrue D.told → NoNewWriter (D.state disk.old).block (D.state disk.new).block }
    ensures foreign { IsTrue D.told → KeepsForeign port.0 (D.state disk.old).block (D.state disk.new).block }
    ensures blocks { IsTrue D.told → StaysLive result ((D.state disk.new).block ≡ (D.state disk.old).block) }
    ensures still { IfErr result (λ fault. OnStop fault (IsTrue D.told → IsFreeRegion (region log.now) port.0 (D.state disk.old).block → IsStill (region log.now) (D.state disk.new).block)) }
    ensures there { IsTrue D.told → (recs : List LogRecord) → HasRecords log.now (D.state disk.old).block recs → IfErr result (IsStopOf port.0) }
    ensures yes { IfOk result (λ leads. leads ≡ true → IsTrue D.told → (recs : List LogRecord) → HasRecords log.now (D.state disk.old).block recs → LeadsBack (first_of log.now) recs t r rec.now) }
    ensures no { IfOk result (λ leads. leads ≡ false → IsTrue D.told → (recs : List LogRecord) → HasRecords log.now (D.state disk.old).block recs → ¬ (LeadsBack (first_of log.now) recs t r rec.now)) }
{
    if is_end(rec) {
        return Ok(false);
    }
    let before = is_earlier(disk, log, port, t, r, record_before(rec))?;
    if !before {
        return Ok(false);
    }
    match next_after(rec, t) {
        Some(next) => is_earlier(disk, log, port, t, r, next),
        None => Ok(true),
    }
}

/// Whether record `r` keeps the rule of the transaction that it names.
fn is_bound<D: Disk>(
    disk: &mut D,
    log: &Log,
    port: NodeId,
    begun: &[u64],
    t: u64,
    r: u64,
    rec: &LogRecord,
) -> Result<bool, DevFault>
    requires from { first_of log.now ≤ r }
    requires below { r < log.now.tail }
    requires port { IsPort port.0 }
    requires live { (D.state disk.old).live port.0 ≡ true }
    requires reach { IsInReach (region log.now) (D.state disk.old).reach }
    ensures keeps { Keeps port.0 (D.state disk.old) (D.state disk.new) }
    ensures cause { IfErr result (λ fault. Caused fault (D.state disk.old) (D.state disk.new)) }
    ensures fault { IfErr result (IsLogFault (region log.now) port.0) }
    ensures live { StaysLive result ((D.state disk.new).live port.0 ≡ true) }
    ensures stopped { IfErr result (λ fault. OnStop fault ((D.state disk.new).live port.0 ≡ false)) }
    ensures outcomes { IsTrue D.told → Narrows (D.state disk.old).block (D.state disk.new).block }
    ensures writers { IsTrue D.told → NoNewWriter (D.state disk.old).block (D.state disk.new).block }
    ensures foreign { IsTrue D.told → KeepsForeign port.0 (D.state disk.old).block (D.state disk.new).block }
    ensures blocks { IsTrue D.told → StaysLive result ((D.state disk.new).block ≡ (D.state disk.old).block) }
    ensures still { IfErr result (λ fault. OnStop fault (IsTrue D.told → IsFreeRegion (region log.now) port.0 (D.state disk.old).block → IsStill (region log.now) (D.state disk.new).block)) }
    ensures there { IsTrue D.told → (recs : List LogRecord) → HasRecords log.now (D.state disk.old).block recs → IfErr result (IsStopOf port.0) }
    ensures yes { IfOk result (λ kept. kept ≡ true → IsTrue D.told → (recs : List LogRecord) → HasRecords log.now (D.state disk.old).block recs → begun.now ≡ open_in (first_of log.now) recs → IsBound (first_of log.now) recs t r rec.now) }
    ensures no { IfOk result (λ kept. kept ≡ false → IsTrue D.told → (recs : List LogRecord) → HasRecords log.now (D.state disk.old).block recs → begun.now ≡ open_in (first_of log.now) recs → ¬ (IsBound (first_of log.now) recs t r rec.now)) }
{
    if t < first_of(log) {
        return is_of_past(disk, log, port, t, r, rec);
    }
    match find(begun, t) {
        Some(_place) => leads_back(disk, log, port, t, r, rec),
        None => Ok(true),
    }
}

/// Whether record `r` keeps the rule of each transaction that it names, which is one at most.
fn keeps_bonds<D: Disk>(
    disk: &mut D,
    log: &Log,
    port: NodeId,
    begun: &[u64],
    r: u64,
    rec: &LogRecord,
) -> Result<bool, DevFault>
    requires from { first_of log.now ≤ r }
    requires below { r < log.now.tail }
    requires port { IsPort port.0 }
    requires live { (D.state disk.old).live port.0 ≡ true }
    requires reach { IsInReach (region log.now) (D.state disk.old).reach }
    ensures keeps { Keeps port.0 (D.state disk.old) (D.state disk.new) }
    ensures cause { IfErr result (λ fault. Caused fault (D.state disk.old) (D.state disk.new)) }
    ensures fault { IfErr result (IsLogFault (region log.now) port.0) }
    ensures live { StaysLive result ((D.state disk.new).live port.0 ≡ true) }
    ensures stopped { IfErr result (λ fault. OnStop fault ((D.state disk.new).live port.0 ≡ false)) }
    ensures outcomes { IsTrue D.told → Narrows (D.state disk.old).block (D.state disk.new).block }
    ensures writers { IsTrue D.told → NoNewWriter (D.state disk.old).block (D.state disk.new).block }
    ensures foreign { IsTrue D.told → KeepsForeign port.0 (D.state disk.old).block (D.state disk.new).block }
    ensures blocks { IsTrue D.told → StaysLive result ((D.state disk.new).block ≡ (D.state disk.old).block) }
    ensures still { IfErr result (λ fault. OnStop fault (IsTrue D.told → IsFreeRegion (region log.now) port.0 (D.state disk.old).block → IsStill (region log.now) (D.state disk.new).block)) }
    ensures there { IsTrue D.told → (recs : List LogRecord) → HasRecords log.now (D.state disk.old).block recs → IfErr result (IsStopOf port.0) }
    ensures yes { IfOk result (λ kept. kept ≡ true → IsTrue D.told → (recs : List LogRecord) → HasRecords log.now (D.state disk.old).block recs → begun.now ≡ open_in (first_of log.now) recs → (t : ℕ) → Names t rec.now → IsBound (first_of log.now) recs t r rec.now) }
    ensures no { IfOk result (λ kept. kept ≡ false → IsTrue D.told → (recs : List LogRecord) → HasRecords log.now (D.state disk.old).block recs → begun.now ≡ open_in (first_of log.now) recs → ¬ ((t : ℕ) → Names t rec.now → IsBound (first_of log.now) recs t r rec.now)) }
{
    match txn_of(rec) {
        Some(t) => is_bound(disk, log, port, begun, t, r, rec),
        None => Ok(true),
    }
}

/// Tests that each record of a log leads where it may: one of a transaction without an end, which are
/// those that are given, to earlier ones of it, and one of a transaction that began before the log's
/// first record to its end.
///
/// It answers `Damaged` for the block of the first one that doesn't.
pub fn check_bonds<D: Disk>(
    disk: &mut D,
    log: &Log,
    port: NodeId,
    begun: &[u64],
) -> Result<(), DevFault>
    requires port { IsPort port.0 }
    requires live { (D.state disk.old).live port.0 ≡ true }
    requires reach { IsInReach (region log.now) (D.state disk.old).reach }
    ensures keeps { Keeps port.0 (D.state disk.old) (D.state disk.new) }
    ensures cause { IfErr result (λ fault. Caused fault (D.state disk.old) (D.state disk.new)) }
    ensures fault { IfErr result (IsLogFault (region log.now) port.0) }
    ensures live { StaysLive result ((D.state disk.new).live port.0 ≡ true) }
    ensures stopped { IfErr result (λ fault. OnStop fault ((D.state disk.new).live port.0 ≡ false)) }
    ensures outcomes { IsTrue D.told → Narrows (D.state disk.old).block (D.state disk.new).block }
    ensures writers { IsTrue D.told → NoNewWriter (D.state disk.old).block (D.state disk.new).block }
    ensures foreign { IsTrue D.told → KeepsForeign port.0 (D.state disk.old).block (D.state disk.new).block }
    ensures blocks { IsTrue D.told → StaysLive result ((D.state disk.new).block ≡ (D.state disk.old).block) }
    ensures still { IfErr result (λ fault. OnStop fault (IsTrue D.told → IsFreeRegion (region log.now) port.0 (D.state disk.old).block → IsStill (region log.now) (D.state disk.new).block)) }
    ensures bound { OnOk result (IsTrue D.told → (recs : List LogRecord) → HasRecords log.now (D.state disk.old).block recs → begun.now ≡ open_in (first_of log.now) recs → AllAreBound (first_of log.now) recs) }
    ensures breach { IsTrue D.told → (recs : List LogRecord) → HasRecords log.now (D.state disk.old).block recs → begun.now ≡ open_in (first_of log.now) recs → IfErr result (IsBreach log.now recs) }
{
    for r in first_of(log)..log.tail() {
        let rec = read_record(disk, log, port, r)?;
        let kept = keeps_bonds(disk, log, port, begun, r, &rec)?;
        if !kept {
            return Err(damaged(log, r));
        }
    }
    Ok(())
}
