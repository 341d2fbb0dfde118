//! What the records of a transaction tell of it: its last record, and which of its updates are left to
//! be taken back.

ghost use Rattle.std.specs.Prelude.{◌≡◌, ◌⊎◌, ◌+◌, ◌^◌, ◌≤◌, ◌<◌, ℕ, true, false, ◌++◌, [], ◌∷◌, List, Some, IfNone, IfSome, IsTrue, IfOk, IfErr};
ghost use Rattle.sd_base.specs.Calls.{Keeps, KeepsForeign, Narrows, NoNewWriter};
ghost use Rattle.sd_base.specs.Disk.{IsPort};
ghost use Rattle.sd_base.specs.Faults.{Caused, IsStopOf, OnStop, StaysLive};
ghost use Rattle.log_record.specs.declared.record.LogRecord.{LogRecord};
ghost use Rattle.private_log.specs.Spread.{IsFreeRegion, IsStill};
ghost use Rattle.private_log.specs.Frames.{IsInReach};
ghost use Rattle.private_log.specs.Log.{region};
ghost use Rattle.private_log.specs.Reading.{IsLogFault};
ghost use Rattle.compensation.specs.Left.{is_update_of, next_after};
ghost use Rattle.compensation.specs.Finding as finding;
ghost use Rattle.recovery_theory.specs.Effect.{effect_of};
ghost use Rattle.recovery_theory.specs.Rules as rules;
ghost use Rattle.loser_undo.specs.Logs.{HasRecords, first_of};
ghost use Rattle.loser_undo.specs.Losers.{Counts, IsLast, IsLoser};
ghost use Rattle.loser_undo.specs.Rules.{AllLeadBack, Names};

use crate::losers::Loser;
use crate::naming::{is_end, names};
use crate::reading::{damaged, read_record};
use compensation::{next_after, record_before};
use log_record::LogRecord;
use private_log::Log;
use sd_base::{DevFault, Disk, NodeId};

/// The number of this record, if it is one of the transaction, or else the number `last`.
fn newer(rec: &LogRecord, t: u64, r: u64, last: u64) -> u64
    ensures { ((result ≡ r) × Names t rec.now) ⊎ ((result ≡ last) × ¬ (Names t rec.now)) }
{
    if names(rec, t) { r } else { last }
}

/// The last record of a transaction that began in the log.
fn last_of<D: Disk>(disk: &mut D, log: &Log, port: NodeId, t: u64) -> Result<u64, DevFault>
    requires begun { first_of log.now ≤ t }
    requires below { t < log.now.tail }
    requires port { IsPort port.0 }
    requires live { (D.state disk.old).live port.0 ≡ true }
    requires reach { IsInReach (region log.now) (D.state disk.old).reach }
    ensures keeps { Keeps port.0 (D.state disk.old) (D.state disk.new) }
    ensures cause { IfErr result (λ fault. Caused fault (D.state disk.old) (D.state disk.new)) }
    ensures fault { IfErr result (IsLogFault (region log.now) port.0) }
    ensures live { StaysLive result ((D.state disk.new).live port.0 ≡ true) }
    ensures stopped { IfErr result (λ fault. OnStop fault ((D.state disk.new).live port.0 ≡ false)) }
    ensures outcomes { IsTrue D.told → Narrows (D.state disk.old).block (D.state disk.new).block }
    ensures writers { IsTrue D.told → NoNewWriter (D.state disk.old).block (D.state disk.new).block }
    ensures foreign { IsTrue D.told → KeepsForeign port.0 (D.state disk.old).block (D.state disk.new).block }
    ensures blocks { IsTrue D.told → StaysLive result ((D.state disk.new).block ≡ (D.state disk.old).block) }
    ensures still { IfErr result (λ fault. OnStop fault (IsTrue D.told → IsFreeRegion (region log.now) port.0 (D.state disk.old).block → IsStill (region log.now) (D.state disk.new).block)) }
    ensures within { IfOk result (λ last. (t ≤ last) × (last < log.now.tail)) }
    ensures near { IfOk result (λ last. last < t + 24576) }
    ensures there { IsTrue D.told → (recs : List LogRecord) → HasRecords log.now (D.state disk.old).block recs → IfErr result (IsStopOf port.0) }
    ensures last { IfOk result (λ last. IsTrue D.told → (recs : List LogRecord) → HasRecords log.now (D.state disk.old).block recs → IsLast (first_of log.now) recs t last) }
{
    let end = log.tail();
    let mut last = t;
    for r in t + 1..end {
        let rec = read_record(disk, log, port, r)?;
        last = newer(&rec, t, r, last);
    }
    Ok(last)
}

/// Where a record leads to.
#[derive(Clone, Copy)]
struct Lead {
    is_update: bool,
    to: u64,
}

/// Where a record leads to: an update of the transaction to the record before it, and a compensation to
/// what it says is next. `None` for a record that is neither.
fn step(rec: &LogRecord, t: u64) -> Option<Lead>
    ensures update { IfSome result (λ s. s.is_update ≡ true → (is_update_of t rec.now ≡ true) × (s.to ≡ finding.record_before rec.now)) }
    ensures compensation { IfSome result (λ s. s.is_update ≡ false → next_after t rec.now ≡ Some s.to) }
    ensures neither { IfNone result (¬ (Names t rec.now × (rules.is_end (effect_of rec.now) ≡ false))) }
{
    if !names(rec, t) || is_end(rec) {
        return None;
    }
    match next_after(rec, t) {
        Some(next) => Some(Lead {
            is_update: false,
            to: next,
        }),
        None => Some(Lead {
            is_update: true,
            to: record_before(rec),
        }),
    }
}

/// A loser of which one more record is seen: an update is left.
fn counted(l: Loser, r: u64, is_update: bool) -> Loser
    requires { l.left + 1 < 2 ^ 32 }
    ensures begin { result.begin ≡ l.begin }
    ensures last { result.last ≡ l.last }
    ensures left { result.left ≤ l.left + 1 }
    ensures update { is_update ≡ true → (us : List ℕ) → Counts l us → Counts result (us ++ r ∷ []) }
    ensures other { is_update ≡ false → (us : List ℕ) → Counts l us → Counts result us }
{
    if !is_update {
        return l;
    }
    let Loser {
        begin,
        last,
        next,
        left,
    } = l;
    if left == 0 {
        return Loser {
            begin,
            last,
            next: r,
            left: 1,
        };
    }
    Loser {
        begin,
        last,
        next,
        left: left + 1,
    }
}

/// Follows the records of a transaction back from its last one, and answers which of its updates are
/// left to be taken back.
fn walk<D: Disk>(
    disk: &mut D,
    log: &Log,
    port: NodeId,
    t: u64,
    last: u64,
) -> Result<Loser, DevFault>
    requires begun { first_of log.now ≤ t }
    requires low { t ≤ last }
    requires high { last < log.now.tail }
    requires near { last < t + 24576 }
    requires port { IsPort port.0 }
    requires live { (D.state disk.old).live port.0 ≡ true }
    requires reach { IsInReach (region log.now) (D.state disk.old).reach }
    ensures keeps { Keeps port.0 (D.state disk.old) (D.state disk.new) }
    ensures cause { IfErr result (λ fault. Caused fault (D.state disk.old) (D.state disk.new)) }
    ensures fault { IfErr result (IsLogFault (region log.now) port.0) }
    ensures live { StaysLive result ((D.state disk.new).live port.0 ≡ true) }
    ensures stopped { IfErr result (λ fault. OnStop fault ((D.state disk.new).live port.0 ≡ false)) }
    ensures outcomes { IsTrue D.told → Narrows (D.state disk.old).block (D.state disk.new).block }
    ensures writers { IsTrue D.told → NoNewWriter (D.state disk.old).block (D.state disk.new).block }
    ensures foreign { IsTrue D.told → KeepsForeign port.0 (D.state disk.old).block (D.state disk.new).block }
    ensures blocks { IsTrue D.told → StaysLive result ((D.state disk.new).block ≡ (D.state disk.old).block) }
    ensures still { IfErr result (λ fault. OnStop fault (IsTrue D.told → IsFreeRegion (region log.now) port.0 (D.state disk.old).block → IsStill (region log.now) (D.state disk.new).block)) }
    ensures begin { IfOk result (λ l. l.begin ≡ t) }
    ensures last { IfOk result (λ l. l.last ≡ last) }
    ensures left { IfOk result (λ l. l.left + t ≤ last) }
    ensures there { IsTrue D.told → (recs : List LogRecord) → HasRecords log.now (D.state disk.old).block recs → AllLeadBack (first_of log.now) recs t → IsLast (first_of log.now) recs t last → IfErr result (IsStopOf port.0) }
    ensures loser { IfOk result (λ l. IsTrue D.told → (recs : List LogRecord) → HasRecords log.now (D.state disk.old).block recs → AllLeadBack (first_of log.now) recs t → IsLast (first_of log.now) recs t last → IsLoser (first_of log.now) recs l) }
{
    let mut r = last;
    let mut l = Loser {
        begin: t,
        last,
        next: t,
        left: 0,
    };
    'walk: while r != t {
        let rec = read_record(disk, log, port, r)?;
        let Some(s) = step(&rec, t) else {
            return Err(damaged(log, r));
        };
        if s.to < t {
            return Err(damaged(log, r));
        }
        if s.to >= r {
            return Err(damaged(log, r));
        }
        l = counted(l, r, s.is_update);
        r = s.to;
    }
    Ok(l)
}

/// What the log tells of a transaction that began in it and has no end in it.
pub fn tell<D: Disk>(disk: &mut D, log: &Log, port: NodeId, t: u64) -> Result<Loser, DevFault>
    requires begun { first_of log.now ≤ t }
    requires below { t < log.now.tail }
    requires port { IsPort port.0 }
    requires live { (D.state disk.old).live port.0 ≡ true }
    requires reach { IsInReach (region log.now) (D.state disk.old).reach }
    ensures keeps { Keeps port.0 (D.state disk.old) (D.state disk.new) }
    ensures cause { IfErr result (λ fault. Caused fault (D.state disk.old) (D.state disk.new)) }
    ensures fault { IfErr result (IsLogFault (region log.now) port.0) }
    ensures live { StaysLive result ((D.state disk.new).live port.0 ≡ true) }
    ensures stopped { IfErr result (λ fault. OnStop fault ((D.state disk.new).live port.0 ≡ false)) }
    ensures outcomes { IsTrue D.told → Narrows (D.state disk.old).block (D.state disk.new).block }
    ensures writers { IsTrue D.told → NoNewWriter (D.state disk.old).block (D.state disk.new).block }
    ensures foreign { IsTrue D.told → KeepsForeign port.0 (D.state disk.old).block (D.state disk.new).block }
    ensures blocks { IsTrue D.told → StaysLive result ((D.state disk.new).block ≡ (D.state disk.old).block) }
    ensures still { IfErr result (λ fault. OnStop fault (IsTrue D.told → IsFreeRegion (region log.now) port.0 (D.state disk.old).block → IsStill (region log.now) (D.state disk.new).block)) }
    ensures begin { IfOk result (λ l. l.begin ≡ t) }
    ensures within { IfOk result (λ l. (t ≤ l.last) × (l.last < log.now.tail)) }
    ensures there { IsTrue D.told → (recs : List LogRecord) → HasRecords log.now (D.state disk.old).block recs → AllLeadBack (first_of log.now) recs t → IfErr result (IsStopOf port.0) }
    ensures loser { IfOk result (λ l. IsTrue D.told → (recs : List LogRecord) → HasRecords log.now (D.state disk.old).block recs → AllLeadBack (first_of log.now) recs t → IsLoser (first_of log.now) recs l) }
{
    let last = last_of(disk, log, port, t)?;
    walk(disk, log, port, t, last)
}
