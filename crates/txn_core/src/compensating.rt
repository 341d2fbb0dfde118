//! The newest update that is left of a transaction is taken back, by a record of its own.

ghost use Rattle.std.specs.Prelude.{◌≡◌, ◌≢◌, ◌+◌, ◌-◌, ◌*◌, ◌^◌, ◌≤◌, ◌<◌, ℕ, true, false, [], ◌∷◌, ◌++◌, List, Option, Some, None, IsTrue, IfOk, IfErr, IfSome, OnOk, OnErr, map, slice_set};
ghost use Rattle.sd_base.specs.Disk.{IsOutcome};
ghost use Rattle.sd_base.specs.Calls.{Keeps, KeepsForeign, KeepsForeignBut, Narrows, NoNewWriter, NoNewWriterBut};
ghost use Rattle.sd_base.specs.Faults.{Caused, IsStopOf, OnStop, StaysLive};
ghost use Rattle.sd_base.specs.declared.names.PageNo.{PageNo};
ghost use Rattle.sd_base.specs.declared.shape.Shape.{Shape};
ghost use Rattle.page_image.specs.declared.page_view.PageView.{PageView};
ghost use Rattle.page_image.specs.Change.{applied};
ghost use Rattle.log_record.specs.declared.record.LogRecord.{LogRecord};
ghost use Rattle.log_record.specs.Legal.{IsLegal, IsRecordNo};
ghost use Rattle.log_record.specs.Text.{record_text};
ghost use Rattle.private_log.specs.Content.{HoldsFront};
ghost use Rattle.private_log.specs.Spread.{IsCutLog, IsFreeRegion, IsStill};
ghost use Rattle.private_log.specs.Frames.{IsInReach, KeepsContents, NarrowsBeside};
ghost use Rattle.private_log.specs.Log.{SameLog, next_place, region};
ghost use Rattle.private_log.specs.Reading.{IsLogFault};
ghost use Rattle.compensation.specs.Inverse.{Undoes, taking_back};
ghost use Rattle.compensation.specs.Left.{uncompensated};
ghost use Rattle.compensation.specs.Finding.{newest, next_behind, record_at, record_before};
ghost use Rattle.state_ids.specs.Blocks.{UnlessStopped};
ghost use Rattle.node_cache.specs.Cache.{AreShown, IsOfStore, IsTiedToDisk, IsTiedToLog};
ghost use Rattle.txn_core.specs.Seats.{AreTied, OpenTxn, is_busy, txn_in};
ghost use Rattle.txn_core.specs.Shown.{shown};
ghost use Rattle.txn_core.specs.Told.{AreTold, HasRecords};
ghost use Rattle.txn_core.specs.Undo.{IsPageOf, IsToUndo, TakesBack, compensation_of};
ghost use Rattle.txn_core.specs.Updates.{ChangesPage, HasPage};

use crate::seats::{Open, Seats};
use crate::undoing::{damaged, next_behind};
use compensation::take_back;
use frame_pool::Pool;
use log_record::{LogRecord, page_op};
use node_cache::NodeCache;
use page_image::identifier;
use sd_base::{DevFault, Disk, MAX_IDENT, PageNo, PageOp};

/// The record by which a transaction takes an update back, of a page with this identifier, where `next`
/// is then the record to be taken back next. `None` exactly for records that are no update.
fn compensation(txn: Open, next: u64, ident: u64, update: &LogRecord) -> Option<LogRecord>
    ensures { result ≡ compensation_of (shown txn) next ident update.now }
{
    let (page, _, _) = match page_op(update) {
        Some(change) => change,
        None => return None,
    };
    match take_back(update) {
        Some(PageOp::Put { slot, after }) => Some(LogRecord::Restore {
            txn: txn.begin,
            prev: txn.last,
            next,
            page,
            bsi: ident,
            slot,
            after,
        }),
        Some(PageOp::Cut { slot, present, len }) => Some(LogRecord::Cut {
            txn: txn.begin,
            prev: txn.last,
            next,
            page,
            bsi: ident,
            slot,
            present,
            len,
        }),
        _ => None,
    }
}

/// The identifier of a cached data page that has room for one more change. `None` exactly where the page
/// isn't one.
fn ident_before(pool: &Pool, c: &NodeCache, x: PageNo) -> Option<u64>
    requires shown { AreShown c.now.log.shape pool.now c.now }
    ensures page { IfSome result (λ ident. (v : PageView) × HasPage pool.now c.now.pages x v × (v.ident ≡ ident) × (ident < 2 ^ 63 + 2 ^ 40)) }
    ensures there { (v : PageView) → HasPage pool.now c.now.pages x v → v.ident < 2 ^ 63 + 2 ^ 40 → result ≡ Some v.ident }
{
    if !c.has(x) || x.0 < c.log().shape().maps {
        return None;
    }
    let ident = identifier(c.view(pool, x));
    if ident < MAX_IDENT { Some(ident) } else { None }
}

/// The record that takes an update back. `None` where its page isn't in the cache, or it is no update.
fn answer(pool: &Pool, c: &NodeCache, txn: Open, next: u64, update: &LogRecord) -> Option<LogRecord>
    requires shown { AreShown c.now.log.shape pool.now c.now }
    ensures made { IfSome result (λ rec. (v : PageView) × HasPage pool.now c.now.pages v.page v × (v.ident < 2 ^ 63 + 2 ^ 40) × IsPageOf update.now v × (compensation_of (shown txn) next v.ident update.now ≡ Some rec)) }
    ensures there { (v : PageView) → HasPage pool.now c.now.pages v.page v → v.ident < 2 ^ 63 + 2 ^ 40 → IsPageOf update.now v → result ≡ compensation_of (shown txn) next v.ident update.now }
{
    let (page, _, _) = match page_op(update) {
        Some(change) => change,
        None => return None,
    };
    let ident = ident_before(pool, c, page)?;
    compensation(txn, next, ident, update)
}

impl Seats {
    /// The update of a transaction that is to be taken back next, and the record to be taken back then.
    ///
    /// It answers `Damaged` where nothing is left, or the log doesn't hold what the transaction has
    /// logged.
    fn newest_update<D: Disk>(
        &self,
        disk: &mut D,
        c: &NodeCache,
        seat: u8,
    ) -> Result<(LogRecord, u64), DevFault>
        requires seat { seat ≤ 7 }
        requires busy { IsTrue (is_busy self.now seat) }
        requires tie { AreTied self.now c.now }
        requires log_tie { IsTiedToLog c.now }
        requires live { (D.state disk.old).live c.now.node.0 ≡ true }
        requires reach { IsInReach (region c.now.log) (D.state disk.old).reach }
        ensures keeps { Keeps c.now.node.0 (D.state disk.old) (D.state disk.new) }
        ensures cause { IfErr result (λ fault. Caused fault (D.state disk.old) (D.state disk.new)) }
        ensures fault { IfErr result (IsLogFault (region c.now.log) c.now.node.0) }
        ensures live { StaysLive result ((D.state disk.new).live c.now.node.0 ≡ true) }
        ensures stopped { IfErr result (λ fault. OnStop fault ((D.state disk.new).live c.now.node.0 ≡ false)) }
        ensures outcomes { IsTrue D.told → Narrows (D.state disk.old).block (D.state disk.new).block }
        ensures writers { IsTrue D.told → NoNewWriter (D.state disk.old).block (D.state disk.new).block }
        ensures foreign { IsTrue D.told → KeepsForeign c.now.node.0 (D.state disk.old).block (D.state disk.new).block }
        ensures blocks { IsTrue D.told → StaysLive result ((D.state disk.new).block ≡ (D.state disk.old).block) }
        ensures still { IfErr result (λ fault. OnStop fault (IsTrue D.told → IsFreeRegion (region c.now.log) c.now.node.0 (D.state disk.old).block → IsStill (region c.now.log) (D.state disk.new).block)) }
        ensures legal { IfOk result (λ u. IsLegal u.0) }
        ensures number { IfOk result (λ u. IsRecordNo u.1) }
        ensures left { IfOk result (λ u. (t : OpenTxn) → txn_in self.now seat ≡ Some t → 1 ≤ t.left) }
        ensures found { IfOk result (λ u. IsTrue D.told → (recs : List LogRecord) (t : OpenTxn) → txn_in self.now seat ≡ Some t → HasRecords c.now.log (D.state disk.old).block recs → AreTold self.now c.now.log.start recs
            → (number : ℕ) × (newest (uncompensated t.begin (6 * c.now.log.start) recs) ≡ Some number) × (record_at (6 * c.now.log.start) recs number ≡ Some u.0) × (u.1 ≡ next_behind t.begin (6 * c.now.log.start) recs u.0)) }
        ensures there { IsTrue D.told → (recs : List LogRecord) (t : OpenTxn) → txn_in self.now seat ≡ Some t → HasRecords c.now.log (D.state disk.old).block recs → AreTold self.now c.now.log.start recs
            → uncompensated t.begin (6 * c.now.log.start) recs ≢ [] → IfErr result (IsStopOf c.now.node.0) }
    {
        let txn = self.open_in(seat);
        let Some((_, update)) = self.next_update(disk, c, seat)? else {
            return Err(damaged(c, txn.last));
        };
        let next = next_behind(disk, c, txn, &update)?;
        Ok((update, next))
    }

    /// The record that takes back the newest update that is left of a transaction.
    ///
    /// It answers `Damaged` where nothing is left, the log doesn't hold what the transaction has logged,
    /// or the update's page isn't a cached data page that has room for one more change.
    fn next_compensation<D: Disk>(
        &self,
        disk: &mut D,
        pool: &Pool,
        c: &NodeCache,
        seat: u8,
    ) -> Result<LogRecord, DevFault>
        requires seat { seat ≤ 7 }
        requires busy { IsTrue (is_busy self.now seat) }
        requires shown { AreShown c.now.log.shape pool.now c.now }
        requires tie { AreTied self.now c.now }
        requires log_tie { IsTiedToLog c.now }
        requires live { (D.state disk.old).live c.now.node.0 ≡ true }
        requires reach { IsInReach (region c.now.log) (D.state disk.old).reach }
        ensures keeps { Keeps c.now.node.0 (D.state disk.old) (D.state disk.new) }
        ensures cause { IfErr result (λ fault. Caused fault (D.state disk.old) (D.state disk.new)) }
        ensures fault { IfErr result (IsLogFault (region c.now.log) c.now.node.0) }
        ensures live { StaysLive result ((D.state disk.new).live c.now.node.0 ≡ true) }
        ensures stopped { IfErr result (λ fault. OnStop fault ((D.state disk.new).live c.now.node.0 ≡ false)) }
        ensures outcomes { IsTrue D.told → Narrows (D.state disk.old).block (D.state disk.new).block }
        ensures writers { IsTrue D.told → NoNewWriter (D.state disk.old).block (D.state disk.new).block }
        ensures foreign { IsTrue D.told → KeepsForeign c.now.node.0 (D.state disk.old).block (D.state disk.new).block }
        ensures blocks { IsTrue D.told → StaysLive result ((D.state disk.new).block ≡ (D.state disk.old).block) }
        ensures still { IfErr result (λ fault. OnStop fault (IsTrue D.told → IsFreeRegion (region c.now.log) c.now.node.0 (D.state disk.old).block → IsStill (region c.now.log) (D.state disk.new).block)) }
        ensures legal { IfOk result IsLegal }
        ensures left { IfOk result (λ rec. (t : OpenTxn) → txn_in self.now seat ≡ Some t → 1 ≤ t.left) }
        ensures page { IfOk result (λ rec. (v : PageView) × (update : LogRecord) × (next : ℕ) × (t : OpenTxn) × (txn_in self.now seat ≡ Some t) × HasPage pool.now c.now.pages v.page v × (v.ident < 2 ^ 63 + 2 ^ 40) × IsPageOf update v × (compensation_of t next v.ident update ≡ Some rec)) }
        ensures found { IfOk result (λ rec. IsTrue D.told → (recs : List LogRecord) (t : OpenTxn) → txn_in self.now seat ≡ Some t → HasRecords c.now.log (D.state disk.old).block recs → AreTold self.now c.now.log.start recs
            → (v : PageView) (other : LogRecord) → TakesBack pool.now c.now.pages (6 * c.now.log.start) recs t v other → other ≡ rec) }
        ensures there { IsTrue D.told → (recs : List LogRecord) (t : OpenTxn) (v : PageView) → txn_in self.now seat ≡ Some t → HasRecords c.now.log (D.state disk.old).block recs → AreTold self.now c.now.log.start recs
            → IsToUndo pool.now c.now.pages (6 * c.now.log.start) recs t v → IfErr result (IsStopOf c.now.node.0) }
    {
        let txn = self.open_in(seat);
        let (update, next) = self.newest_update(disk, c, seat)?;
        match answer(pool, c, txn, next, &update) {
            Some(rec) => Ok(rec),
            None => Err(damaged(c, txn.last)),
        }
    }

    /// Takes back the newest update that is left of a transaction: its slot gets what it held before the
    /// update, by a record that says what is to be taken back then.
    ///
    /// Where nothing is left, the update's page isn't a cached data page that has room for one more change,
    /// or the log doesn't hold what the transaction has logged, it answers `Damaged` and changes nothing.
    pub fn take_back_one<D: Disk>(
        &mut self,
        disk: &mut D,
        pool: &mut Pool,
        c: &mut NodeCache,
        seat: u8,
    ) -> Result<(), DevFault>
        requires seat { seat ≤ 7 }
        requires busy { IsTrue (is_busy self.old seat) }
        requires shown { AreShown c.old.log.shape pool.old c.old }
        requires tie { AreTied self.old c.old }
        requires log_tie { IsTiedToLog c.old }
        requires live { (D.state disk.old).live c.old.node.0 ≡ true }
        requires reach { IsInReach (region c.old.log) (D.state disk.old).reach }
        requires free { IsTrue D.told → IsFreeRegion (region c.old.log) c.old.node.0 (D.state disk.old).block }
        ensures keeps { Keeps c.old.node.0 (D.state disk.old) (D.state disk.new) }
        ensures cause { IfErr result (λ fault. Caused fault (D.state disk.old) (D.state disk.new)) }
        ensures fault { IfErr result (IsLogFault (region c.old.log) c.old.node.0) }
        ensures there { IsTrue D.told → (recs : List LogRecord) (t : OpenTxn) (v : PageView) → txn_in self.old seat ≡ Some t → HasRecords c.old.log (D.state disk.old).block recs → AreTold self.old c.old.log.start recs
            → IsToUndo pool.old c.old.pages (6 * c.old.log.start) recs t v → IfErr result (IsStopOf c.old.node.0) }
        ensures live { StaysLive result ((D.state disk.new).live c.old.node.0 ≡ true) }
        ensures stopped { IfErr result (λ fault. OnStop fault ((D.state disk.new).live c.old.node.0 ≡ false)) }
        ensures outcomes { IsTrue D.told → NarrowsBeside (next_place c.old.log) (D.state disk.old).block (D.state disk.new).block }
        ensures writers { IsTrue D.told → NoNewWriterBut (next_place c.old.log) c.old.node.0 (D.state disk.old).block (D.state disk.new).block }
        ensures foreign { IsTrue D.told → KeepsForeignBut (next_place c.old.log) c.old.node.0 (D.state disk.old).block (D.state disk.new).block }
        ensures blocks { IsTrue D.told → IfErr result (λ fault. UnlessStopped fault ((D.state disk.new).block ≡ (D.state disk.old).block)) }
        ensures contents { StaysLive result (IsTrue D.told → KeepsContents (next_place c.old.log) (D.state disk.old).block (D.state disk.new).block) }
        ensures node { self.new.node ≡ self.old.node }
        ensures cache_node { c.new.node ≡ c.old.node }
        ensures same { SameLog c.old.log c.new.log }
        ensures tail { OnOk result (c.new.log.tail ≡ c.old.log.tail + 1) }
        ensures rises { StaysLive result (c.old.log.stable ≤ c.new.log.stable) }
        ensures kept { IfErr result (λ fault. UnlessStopped fault (c.new ≡ c.old)) }
        ensures page { OnOk result ((x : PageNo) × ChangesPage x c.old.log.tail c.old.pages c.new.pages pool.old pool.new) }
        ensures pages_kept { OnErr result (c.new.pages ≡ c.old.pages) }
        ensures frames_kept { OnErr result (pool.new ≡ pool.old) }
        ensures seats { OnOk result ((t : OpenTxn) → txn_in self.old seat ≡ Some t → (1 ≤ t.left) × (self.new.seats ≡ slice_set self.old.seats seat (Some (record { begin = t.begin; last = c.old.log.tail; left = t.left - 1 })))) }
        ensures seats_kept { OnErr result (self.new.seats ≡ self.old.seats) }
        ensures tie { StaysLive result (AreTied self.new c.new) }
        ensures log_tie { StaysLive result (IsTiedToLog c.new) }
        ensures shown { (s : Shape) → AreShown s pool.old c.old → AreShown s pool.new c.new }
        ensures disk_tie { StaysLive result (IsTrue D.told → (s : Shape) → IsOfStore s c.old → IsTiedToDisk s pool.old c.old (D.state disk.old).block → IsTiedToDisk s pool.new c.new (D.state disk.new).block) }
        ensures free { StaysLive result (IsTrue D.told → IsFreeRegion (region c.new.log) c.old.node.0 (D.state disk.new).block) }
        ensures still { IfErr result (λ fault. OnStop fault (IsTrue D.told → IsStill (region c.old.log) (D.state disk.new).block)) }
        ensures image { OnOk result (IsTrue D.told → (recs : List LogRecord) (t : OpenTxn) (v : PageView) (rec : LogRecord) → txn_in self.old seat ≡ Some t → HasRecords c.old.log (D.state disk.old).block recs → AreTold self.old c.old.log.start recs
            → (w : TakesBack pool.old c.old.pages (6 * c.old.log.start) recs t v rec) → ChangesPage v.page c.old.log.tail c.old.pages c.new.pages pool.old pool.new × IfSome (taking_back w.undo.update) (λ op. HasPage pool.new c.new.pages v.page (applied op v) × Undoes w.undo.update op)) }
        ensures records { OnOk result (IsTrue D.told → (recs : List LogRecord) (t : OpenTxn) (v : PageView) (rec : LogRecord) → txn_in self.old seat ≡ Some t → HasRecords c.old.log (D.state disk.old).block recs → AreTold self.old c.old.log.start recs
            → TakesBack pool.old c.old.pages (6 * c.old.log.start) recs t v rec → HasRecords c.new.log (D.state disk.new).block (recs ++ rec ∷ [])) }
        ensures told { OnOk result (IsTrue D.told → (recs : List LogRecord) (t : OpenTxn) (v : PageView) (rec : LogRecord) → txn_in self.old seat ≡ Some t → HasRecords c.old.log (D.state disk.old).block recs → AreTold self.old c.old.log.start recs
            → TakesBack pool.old c.old.pages (6 * c.old.log.start) recs t v rec → AreTold self.new c.old.log.start (recs ++ rec ∷ [])) }
        ensures legal { IsTrue D.told → (recs : List LogRecord) (t : OpenTxn) (v : PageView) (rec : LogRecord) → txn_in self.old seat ≡ Some t → HasRecords c.old.log (D.state disk.old).block recs → AreTold self.old c.old.log.start recs
            → TakesBack pool.old c.old.pages (6 * c.old.log.start) recs t v rec → IsLegal rec }
        ensures cut { IfErr result (λ fault. OnStop fault (IsTrue D.told → (recs : List LogRecord) (t : OpenTxn) (v : PageView) (rec : LogRecord) → txn_in self.old seat ≡ Some t → HasRecords c.old.log (D.state disk.old).block recs → AreTold self.old c.old.log.start recs
            → TakesBack pool.old c.old.pages (6 * c.old.log.start) recs t v rec → IsCutLog (region c.old.log) c.old.log.start c.old.log.stable (D.state disk.new).block (map record_text (recs ++ rec ∷ [])))) }
        ensures any_outcome { IsTrue D.told → (recs : List LogRecord) (t : OpenTxn) (v : PageView) (rec : LogRecord) → txn_in self.old seat ≡ Some t → HasRecords c.old.log (D.state disk.old).block recs → AreTold self.old c.old.log.start recs
            → TakesBack pool.old c.old.pages (6 * c.old.log.start) recs t v rec → (image : ℕ → Option (List ℕ)) → IsOutcome (D.state disk.new).block image
            → HoldsFront (region c.old.log) c.old.log.start c.old.log.stable (map record_text (recs ++ rec ∷ [])) image }
    {
        let txn = self.open_in(seat);
        let rec = self.next_compensation(disk, pool, c, seat)?;
        let number = c.change(disk, pool, &rec)?;
        self.seats[seat as usize] = Some(Open {
            begin: txn.begin,
            last: number,
            left: txn.left - 1,
        });
        Ok(())
    }
}
