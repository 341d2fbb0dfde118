//! Which update is to be taken back next: the log is followed from record to record.

ghost use Rattle.std.specs.Prelude.{◌≡◌, ◌≢◌, ◌*◌, ◌≤◌, ◌<◌, ℕ, true, false, [], ◌∷◌, ◌++◌, List, Option, Some, None, IsTrue, IfOk, IfErr, IfSome, MatchOption, map};
ghost use Rattle.sd_base.specs.Calls.{Keeps, KeepsForeign, Narrows, NoNewWriter};
ghost use Rattle.sd_base.specs.Faults.{Caused, IsStopOf, OnStop, StaysLive};
ghost use Rattle.log_record.specs.declared.record.LogRecord.{LogRecord};
ghost use Rattle.log_record.specs.Legal.{IsLegal, IsRecordNo};
ghost use Rattle.log_record.specs.Record.{page_op_of};
ghost use Rattle.log_record.specs.Text.{record_text};
ghost use Rattle.private_log.specs.Spread.{IsCutLog, IsFreeRegion, IsStill};
ghost use Rattle.private_log.specs.Frames.{IsInReach};
ghost use Rattle.private_log.specs.Log.{region};
ghost use Rattle.private_log.specs.Reading.{IsLogFault};
ghost use Rattle.compensation.specs.Left.{is_update_of, uncompensated};
ghost use Rattle.compensation.specs.Finding.{newest, next_behind, next_to_undo, record_at, record_before};
ghost use Rattle.node_cache.specs.Cache.{IsTiedToLog};
ghost use Rattle.txn_core.specs.Seats.{AreTied, OpenTxn, is_busy, txn_in};
ghost use Rattle.txn_core.specs.Shown.{shown};
ghost use Rattle.txn_core.specs.Told.{AreTold, HasRecords};
ghost use Rattle.txn_core.specs.Undo.{IsDamaged, to_undo};

use crate::reading::read_record;
use crate::seats::{Open, Seats};
use compensation::{next_after, next_of, record_before};
use log_record::{LogRecord, page_op};
use node_cache::NodeCache;
use sd_base::{DevFault, Disk, PageNo};

/// The number of the update that is to be taken back next, where this is the last record of the
/// transaction.
fn number_to_undo(last: &LogRecord, txn: Open) -> Option<u64>
    ensures { result ≡ to_undo (shown txn) last.now }
{
    match next_of(last, txn.last) {
        Some(number) if number == txn.begin => None,
        next => next,
    }
}

/// That the block of a record doesn't hold what the transaction has logged.
pub(crate) fn damaged(c: &NodeCache, r: u64) -> DevFault
    requires { c.now.log.node ≡ c.now.node }
    ensures fault { IsLogFault (region c.now.log) c.now.node.0 result }
    ensures kind { IsDamaged result }
{
    let log = c.log();
    DevFault::Damaged(log.shape().ring_block(log.node(), r / 6))
}

/// What a compensation of this update says is next: the record before it or, where that one is a
/// compensation too, what that one says is next.
///
/// It answers `Damaged` where the log doesn't hold what the transaction has logged.
pub(crate) fn next_behind<D: Disk>(
    disk: &mut D,
    c: &NodeCache,
    txn: Open,
    update: &LogRecord,
) -> Result<u64, DevFault>
    requires legal { IsLegal update.now }
    requires from { 6 * c.now.log.start ≤ txn.begin }
    requires below { txn.last < c.now.log.tail }
    requires log_tie { IsTiedToLog c.now }
    requires live { (D.state disk.old).live c.now.node.0 ≡ true }
    requires reach { IsInReach (region c.now.log) (D.state disk.old).reach }
    ensures keeps { Keeps c.now.node.0 (D.state disk.old) (D.state disk.new) }
    ensures cause { IfErr result (λ fault. Caused fault (D.state disk.old) (D.state disk.new)) }
    ensures fault { IfErr result (IsLogFault (region c.now.log) c.now.node.0) }
    ensures live { StaysLive result ((D.state disk.new).live c.now.node.0 ≡ true) }
    ensures stopped { IfErr result (λ fault. OnStop fault ((D.state disk.new).live c.now.node.0 ≡ false)) }
    ensures outcomes { IsTrue D.told → Narrows (D.state disk.old).block (D.state disk.new).block }
    ensures writers { IsTrue D.told → NoNewWriter (D.state disk.old).block (D.state disk.new).block }
    ensures foreign { IsTrue D.told → KeepsForeign c.now.node.0 (D.state disk.old).block (D.state disk.new).block }
    ensures blocks { IsTrue D.told → StaysLive result ((D.state disk.new).block ≡ (D.state disk.old).block) }
    ensures still { IfErr result (λ fault. OnStop fault (IsTrue D.told → IsFreeRegion (region c.now.log) c.now.node.0 (D.state disk.old).block → IsStill (region c.now.log) (D.state disk.new).block)) }
    ensures number { IfOk result IsRecordNo }
    ensures next { IfOk result (λ next. IsTrue D.told → (recs : List LogRecord) → HasRecords c.now.log (D.state disk.old).block recs → next ≡ next_behind txn.begin (6 * c.now.log.start) recs update.now) }
    ensures there { IsTrue D.told → (recs : List LogRecord) → HasRecords c.now.log (D.state disk.old).block recs → txn.begin ≤ record_before update.now → record_before update.now ≤ txn.last → IfErr result (IsStopOf c.now.node.0) }
{
    let before = record_before(update);
    if before < txn.begin || before > txn.last {
        return Err(damaged(c, txn.last));
    }
    let rec = read_record(disk, c.log(), before)?;
    Ok(next_after(&rec, txn.begin).unwrap_or(before))
}

impl Seats {
    /// The update of a transaction that is to be taken back next, with its number. `None` exactly where
    /// nothing is left.
    ///
    /// It answers `Damaged` where the log doesn't hold what the transaction has logged, or tells more or
    /// less of it than the seat does.
    pub(crate) fn next_update<D: Disk>(
        &self,
        disk: &mut D,
        c: &NodeCache,
        seat: u8,
    ) -> Result<Option<(u64, LogRecord)>, DevFault>
        requires seat { seat ≤ 7 }
        requires busy { IsTrue (is_busy self.now seat) }
        requires tie { AreTied self.now c.now }
        requires log_tie { IsTiedToLog c.now }
        requires live { (D.state disk.old).live c.now.node.0 ≡ true }
        requires reach { IsInReach (region c.now.log) (D.state disk.old).reach }
        ensures keeps { Keeps c.now.node.0 (D.state disk.old) (D.state disk.new) }
        ensures cause { IfErr result (λ fault. Caused fault (D.state disk.old) (D.state disk.new)) }
        ensures fault { IfErr result (IsLogFault (region c.now.log) c.now.node.0) }
        ensures live { StaysLive result ((D.state disk.new).live c.now.node.0 ≡ true) }
        ensures stopped { IfErr result (λ fault. OnStop fault ((D.state disk.new).live c.now.node.0 ≡ false)) }
        ensures outcomes { IsTrue D.told → Narrows (D.state disk.old).block (D.state disk.new).block }
        ensures writers { IsTrue D.told → NoNewWriter (D.state disk.old).block (D.state disk.new).block }
        ensures foreign { IsTrue D.told → KeepsForeign c.now.node.0 (D.state disk.old).block (D.state disk.new).block }
        ensures blocks { IsTrue D.told → StaysLive result ((D.state disk.new).block ≡ (D.state disk.old).block) }
        ensures still { IfErr result (λ fault. OnStop fault (IsTrue D.told → IsFreeRegion (region c.now.log) c.now.node.0 (D.state disk.old).block → IsStill (region c.now.log) (D.state disk.new).block)) }
        ensures legal { IfOk result (λ o. IfSome o (λ u. IsLegal u.1)) }
        ensures left { IfOk result (λ o. (t : OpenTxn) → txn_in self.now seat ≡ Some t → MatchOption o (t.left ≡ 0) (λ u. 1 ≤ t.left)) }
        ensures within { IfOk result (λ o. IfSome o (λ u. (t : OpenTxn) → txn_in self.now seat ≡ Some t → (t.begin < u.0) × (u.0 ≤ t.last))) }
        ensures found { IfOk result (λ o. IsTrue D.told → (recs : List LogRecord) (t : OpenTxn) → txn_in self.now seat ≡ Some t → HasRecords c.now.log (D.state disk.old).block recs → AreTold self.now c.now.log.start recs
            → MatchOption o (uncompensated t.begin (6 * c.now.log.start) recs ≡ []) (λ u. (newest (uncompensated t.begin (6 * c.now.log.start) recs) ≡ Some u.0) × (record_at (6 * c.now.log.start) recs u.0 ≡ Some u.1) × (is_update_of t.begin u.1 ≡ true))) }
        ensures there { IsTrue D.told → (recs : List LogRecord) → HasRecords c.now.log (D.state disk.old).block recs → AreTold self.now c.now.log.start recs → IfErr result (IsStopOf c.now.node.0) }
    {
        let txn = self.open_in(seat);
        let log = c.log();
        let last = read_record(disk, log, txn.last)?;
        let next = number_to_undo(&last, txn);
        if next.is_some() != (txn.left > 0) {
            return Err(damaged(c, txn.last));
        }
        let Some(number) = next else {
            return Ok(None);
        };
        if number < txn.begin || number > txn.last {
            return Err(damaged(c, txn.last));
        }
        let update = read_record(disk, log, number)?;
        Ok(Some((number, update)))
    }

    /// The number of the update of a transaction that is to be taken back next, and its page. `None`
    /// exactly where nothing is left.
    ///
    /// It answers `Damaged` where the log doesn't hold what the transaction has logged.
    pub fn next<D: Disk>(
        &self,
        disk: &mut D,
        c: &NodeCache,
        seat: u8,
    ) -> Result<Option<(u64, PageNo)>, DevFault>
        requires seat { seat ≤ 7 }
        requires busy { IsTrue (is_busy self.now seat) }
        requires tie { AreTied self.now c.now }
        requires log_tie { IsTiedToLog c.now }
        requires live { (D.state disk.old).live c.now.node.0 ≡ true }
        requires reach { IsInReach (region c.now.log) (D.state disk.old).reach }
        ensures keeps { Keeps c.now.node.0 (D.state disk.old) (D.state disk.new) }
        ensures cause { IfErr result (λ fault. Caused fault (D.state disk.old) (D.state disk.new)) }
        ensures fault { IfErr result (IsLogFault (region c.now.log) c.now.node.0) }
        ensures live { StaysLive result ((D.state disk.new).live c.now.node.0 ≡ true) }
        ensures stopped { IfErr result (λ fault. OnStop fault ((D.state disk.new).live c.now.node.0 ≡ false)) }
        ensures outcomes { IsTrue D.told → Narrows (D.state disk.old).block (D.state disk.new).block }
        ensures writers { IsTrue D.told → NoNewWriter (D.state disk.old).block (D.state disk.new).block }
        ensures foreign { IsTrue D.told → KeepsForeign c.now.node.0 (D.state disk.old).block (D.state disk.new).block }
        ensures blocks { IsTrue D.told → StaysLive result ((D.state disk.new).block ≡ (D.state disk.old).block) }
        ensures still { IfErr result (λ fault. OnStop fault (IsTrue D.told → IsFreeRegion (region c.now.log) c.now.node.0 (D.state disk.old).block → IsStill (region c.now.log) (D.state disk.new).block)) }
        ensures cut { IfErr result (λ fault. OnStop fault (IsTrue D.told → IsFreeRegion (region c.now.log) c.now.node.0 (D.state disk.old).block → (recs : List LogRecord) → HasRecords c.now.log (D.state disk.old).block recs
            → IsCutLog (region c.now.log) c.now.log.start c.now.log.stable (D.state disk.new).block (map record_text recs))) }
        ensures left { IfOk result (λ o. (t : OpenTxn) → txn_in self.now seat ≡ Some t → MatchOption o (t.left ≡ 0) (λ u. 1 ≤ t.left)) }
        ensures within { IfOk result (λ o. IfSome o (λ u. (t : OpenTxn) → txn_in self.now seat ≡ Some t → (t.begin < u.0) × (u.0 ≤ t.last))) }
        ensures found { IfOk result (λ o. IsTrue D.told → (recs : List LogRecord) (t : OpenTxn) → txn_in self.now seat ≡ Some t → HasRecords c.now.log (D.state disk.old).block recs → AreTold self.now c.now.log.start recs
            → MatchOption o (uncompensated t.begin (6 * c.now.log.start) recs ≡ []) (λ u. (newest (uncompensated t.begin (6 * c.now.log.start) recs) ≡ Some u.0) × (rec : LogRecord) × (record_at (6 * c.now.log.start) recs u.0 ≡ Some rec) × (is_update_of t.begin rec ≡ true) × IfSome (page_op_of rec) (λ o. o.0 ≡ u.1))) }
        ensures there { IsTrue D.told → (recs : List LogRecord) → HasRecords c.now.log (D.state disk.old).block recs → AreTold self.now c.now.log.start recs → IfErr result (IsStopOf c.now.node.0) }
    {
        let Some((number, update)) = self.next_update(disk, c, seat)? else {
            return Ok(None);
        };
        match page_op(&update) {
            Some((page, _, _)) => Ok(Some((number, page))),
            None => Err(damaged(c, number)),
        }
    }

    /// The update of a transaction that is to be taken back after the update with this number, which is
    /// left of it, with its page. `None` exactly where none is.
    ///
    /// It answers `Damaged` where the log doesn't hold what the transaction has logged.
    pub fn next_before<D: Disk>(
        &self,
        disk: &mut D,
        c: &NodeCache,
        seat: u8,
        number: u64,
    ) -> Result<Option<(u64, PageNo)>, DevFault>
        requires seat { seat ≤ 7 }
        requires busy { IsTrue (is_busy self.now seat) }
        requires tie { AreTied self.now c.now }
        requires log_tie { IsTiedToLog c.now }
        requires live { (D.state disk.old).live c.now.node.0 ≡ true }
        requires reach { IsInReach (region c.now.log) (D.state disk.old).reach }
        requires within { (t : OpenTxn) → txn_in self.now seat ≡ Some t → (t.begin < number) × (number ≤ t.last) }
        ensures keeps { Keeps c.now.node.0 (D.state disk.old) (D.state disk.new) }
        ensures cause { IfErr result (λ fault. Caused fault (D.state disk.old) (D.state disk.new)) }
        ensures fault { IfErr result (IsLogFault (region c.now.log) c.now.node.0) }
        ensures live { StaysLive result ((D.state disk.new).live c.now.node.0 ≡ true) }
        ensures stopped { IfErr result (λ fault. OnStop fault ((D.state disk.new).live c.now.node.0 ≡ false)) }
        ensures outcomes { IsTrue D.told → Narrows (D.state disk.old).block (D.state disk.new).block }
        ensures writers { IsTrue D.told → NoNewWriter (D.state disk.old).block (D.state disk.new).block }
        ensures foreign { IsTrue D.told → KeepsForeign c.now.node.0 (D.state disk.old).block (D.state disk.new).block }
        ensures blocks { IsTrue D.told → StaysLive result ((D.state disk.new).block ≡ (D.state disk.old).block) }
        ensures still { IfErr result (λ fault. OnStop fault (IsTrue D.told → IsFreeRegion (region c.now.log) c.now.node.0 (D.state disk.old).block → IsStill (region c.now.log) (D.state disk.new).block)) }
        ensures cut { IfErr result (λ fault. OnStop fault (IsTrue D.told → IsFreeRegion (region c.now.log) c.now.node.0 (D.state disk.old).block → (recs : List LogRecord) → HasRecords c.now.log (D.state disk.old).block recs
            → IsCutLog (region c.now.log) c.now.log.start c.now.log.stable (D.state disk.new).block (map record_text recs))) }
        ensures within { IfOk result (λ o. IfSome o (λ u. (t : OpenTxn) → txn_in self.now seat ≡ Some t → (t.begin < u.0) × (u.0 < number))) }
        ensures found { IfOk result (λ o. IsTrue D.told → (recs : List LogRecord) (t : OpenTxn) (behind before : List ℕ) → txn_in self.now seat ≡ Some t → HasRecords c.now.log (D.state disk.old).block recs → AreTold self.now c.now.log.start recs
            → uncompensated t.begin (6 * c.now.log.start) recs ≡ behind ++ number ∷ before
            → MatchOption o (before ≡ []) (λ u. (newest before ≡ Some u.0) × (rec : LogRecord) × (record_at (6 * c.now.log.start) recs u.0 ≡ Some rec) × (is_update_of t.begin rec ≡ true) × IfSome (page_op_of rec) (λ o. o.0 ≡ u.1))) }
        ensures there { IsTrue D.told → (recs : List LogRecord) (t : OpenTxn) (behind before : List ℕ) → txn_in self.now seat ≡ Some t → HasRecords c.now.log (D.state disk.old).block recs → AreTold self.now c.now.log.start recs
            → uncompensated t.begin (6 * c.now.log.start) recs ≡ behind ++ number ∷ before → IfErr result (IsStopOf c.now.node.0) }
    {
        let txn = self.open_in(seat);
        let update = read_record(disk, c.log(), number)?;
        let next = next_behind(disk, c, txn, &update)?;
        if next == txn.begin {
            return Ok(None);
        }
        if next < txn.begin || next >= number {
            return Err(damaged(c, number));
        }
        let before = read_record(disk, c.log(), next)?;
        match page_op(&before) {
            Some((page, _, _)) => Ok(Some((next, page))),
            None => Err(damaged(c, next)),
        }
    }
}
