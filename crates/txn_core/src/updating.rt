//! A transaction changes a slot of a cached page, and the change is logged.

ghost use Rattle.std.specs.Prelude.{◌<◌, ◌^◌, unwrap_or, ◌≡◌, ◌≢◌, ◌+◌, ◌*◌, ◌%◌, ◌≤◌, ℕ, true, false, [], ◌∷◌, ◌++◌, List, Option, Some, None, IsTrue, IsOk, IfSome, IfErr, OnOk, OnErr, length, map, slice_set};
ghost use Rattle.sd_base.specs.Disk.{IsOutcome};
ghost use Rattle.sd_base.specs.Calls.{Keeps, NoNewWriterBut, KeepsForeignBut};
ghost use Rattle.sd_base.specs.Faults.{Caused, IsStopOf};
ghost use Rattle.sd_base.specs.declared.page_op.PageOp.{PageOp};
ghost use Rattle.sd_base.specs.declared.shape.Shape.{Shape};
ghost use Rattle.log_record.specs.declared.record.LogRecord.{LogRecord};
ghost use Rattle.log_record.specs.Legal.{IsLegal};
ghost use Rattle.log_record.specs.Record.{change_of};
ghost use Rattle.page_image.specs.declared.page_view.PageView.{PageView};
ghost use Rattle.page_image.specs.Image.{IsTextOf};
ghost use Rattle.page_image.specs.Change.{applied};
ghost use Rattle.state_ids.specs.Held.{KeepsFrames};
ghost use Rattle.log_record.specs.Text.{record_text};
ghost use Rattle.private_log.specs.Content.{HoldsFront};
ghost use Rattle.private_log.specs.Spread.{IsCutLog, IsFreeRegion, IsStill};
ghost use Rattle.private_log.specs.Frames.{IsInReach, KeepsContents, NarrowsBeside};
ghost use Rattle.private_log.specs.Log.{SameLog, next_place, region, space};
ghost use Rattle.node_cache.specs.Cache.{AreOut, AreShown, CachedPage, IsOfStore, IsTiedToDisk, IsTiedToLog, changed_by, page_at, with_page};
ghost use Rattle.txn_core.specs.Seats.{AreTied, OpenTxn, is_busy, owed, txn_in};
ghost use Rattle.txn_core.specs.Shown.{shown};
ghost use Rattle.txn_core.specs.Updates.{FitsSlotOf, HasPage, op_of, update_of};
ghost use Rattle.txn_core.specs.Told.{AreTold, HasRecords};

use crate::change::Change;
use crate::seats::{Open, Seats};
use frame_pool::Pool;
use log_record::LogRecord;
use node_cache::NodeCache;
use page_image::identifier;
use sd_base::{Block, DevFault, Disk, PageNo, Value};

/// The record of an update of a page by a transaction.
fn update(page: &Block, x: PageNo, slot: u8, txn: Open, what: &Change) -> LogRecord
    requires page { (v : PageView) × (v.page ≡ x) × IsTextOf v page.now }
    requires slot { slot ≤ 15 }
    ensures { (v : PageView) → v.page ≡ x → IsTextOf v page.now → result ≡ update_of (shown txn) v slot what.now }
{
    let held = page_image::slot(page, slot);
    let bsi = identifier(page);
    match *what {
        Change::Append(bytes) => LogRecord::Append {
            txn: txn.begin,
            prev: txn.last,
            page: x,
            bsi,
            slot,
            present: held.is_some(),
            len: length_of(&held),
            bytes,
        },
        Change::Put(value) => LogRecord::Set {
            txn: txn.begin,
            prev: txn.last,
            page: x,
            bsi,
            slot,
            before: held,
            after: Some(value),
        },
        Change::Delete => LogRecord::Set {
            txn: txn.begin,
            prev: txn.last,
            page: x,
            bsi,
            slot,
            before: held,
            after: None,
        },
    }
}

/// How long the value of a slot is; an absent one counts as empty.
fn length_of(held: &Option<Value>) -> u8
    ensures { result ≡ length (unwrap_or held.now []) }
{
    match held {
        Some(value) => value.as_slice().len() as u8,
        None => 0,
    }
}

impl Seats {
    /// Changes a slot of a cached data page by a transaction. The log needs room for two records more
    /// than are owed: the update, and its compensation.
    pub fn change<D: Disk>(
        &mut self,
        disk: &mut D,
        pool: &mut Pool,
        c: &mut NodeCache,
        seat: u8,
        x: PageNo,
        slot: u8,
        what: &Change,
    ) -> Result<(), DevFault>
        requires seat { seat ≤ 7 }
        requires slot { slot ≤ 15 }
        requires busy { IsTrue (is_busy self.old seat) }
        requires page { (v : PageView) × HasPage pool.old c.old.pages x v × (v.ident < 2 ^ 63) × FitsSlotOf v slot what.now }
        requires room { owed self.old + 2 ≤ space c.old.log }
        requires out { AreOut pool.old c.old }
        requires tie { AreTied self.old c.old }
        requires log_tie { IsTiedToLog c.old }
        requires live { (D.state disk.old).live c.old.node.0 ≡ true }
        requires reach { IsInReach (region c.old.log) (D.state disk.old).reach }
        requires free { IsTrue D.told → IsFreeRegion (region c.old.log) c.old.node.0 (D.state disk.old).block }
        ensures keeps { Keeps c.old.node.0 (D.state disk.old) (D.state disk.new) }
        ensures cause { IfErr result (λ fault. Caused fault (D.state disk.old) (D.state disk.new)) }
        ensures fault { IfErr result (IsStopOf c.old.node.0) }
        ensures live { OnOk result ((D.state disk.new).live c.old.node.0 ≡ true) }
        ensures stopped { OnErr result ((D.state disk.new).live c.old.node.0 ≡ false) }
        ensures outcomes { IsTrue D.told → NarrowsBeside (next_place c.old.log) (D.state disk.old).block (D.state disk.new).block }
        ensures writers { IsTrue D.told → NoNewWriterBut (next_place c.old.log) c.old.node.0 (D.state disk.old).block (D.state disk.new).block }
        ensures foreign { IsTrue D.told → KeepsForeignBut (next_place c.old.log) c.old.node.0 (D.state disk.old).block (D.state disk.new).block }
        ensures contents { OnOk result (IsTrue D.told → KeepsContents (next_place c.old.log) (D.state disk.old).block (D.state disk.new).block) }
        ensures memory { (c.old.log.tail + 1) % 6 ≢ 0 → disk.new ≡ disk.old }
        ensures sure { (c.old.log.tail + 1) % 6 ≢ 0 → IsOk result }
        ensures node { self.new.node ≡ self.old.node }
        ensures cache_node { c.new.node ≡ c.old.node }
        ensures same { SameLog c.old.log c.new.log }
        ensures tail { OnOk result (c.new.log.tail ≡ c.old.log.tail + 1) }
        ensures rises { OnOk result (c.old.log.stable ≤ c.new.log.stable) }
        ensures pages { OnOk result (c.new.pages ≡ with_page x (changed_by c.old.log.tail) c.old.pages) }
        ensures pages_kept { OnErr result (c.new.pages ≡ c.old.pages) }
        ensures frames { (p : CachedPage) → page_at x c.old.pages ≡ Some p → KeepsFrames p.frame pool.old pool.new }
        ensures frames_kept { OnErr result (pool.new ≡ pool.old) }
        ensures image { OnOk result ((v : PageView) → HasPage pool.old c.old.pages x v → HasPage pool.new c.new.pages x (applied (op_of slot what.now) v)) }
        ensures seats { OnOk result ((t : OpenTxn) → txn_in self.old seat ≡ Some t → self.new.seats ≡ slice_set self.old.seats seat (Some (record { begin = t.begin; last = c.old.log.tail; left = t.left + 1 }))) }
        ensures seats_kept { OnErr result (self.new.seats ≡ self.old.seats) }
        ensures tie { OnOk result (AreTied self.new c.new) }
        ensures log_tie { OnOk result (IsTiedToLog c.new) }
        ensures shown { (s : Shape) → AreShown s pool.old c.old → AreShown s pool.new c.new }
        ensures disk_tie { OnOk result (IsTrue D.told → (s : Shape) → IsOfStore s c.old → IsTiedToDisk s pool.old c.old (D.state disk.old).block → IsTiedToDisk s pool.new c.new (D.state disk.new).block) }
        ensures free { OnOk result (IsTrue D.told → IsFreeRegion (region c.new.log) c.old.node.0 (D.state disk.new).block) }
        ensures still { OnErr result (IsTrue D.told → IsStill (region c.old.log) (D.state disk.new).block) }
        ensures records { OnOk result (IsTrue D.told → (recs : List LogRecord) (t : OpenTxn) (v : PageView) → txn_in self.old seat ≡ Some t → HasPage pool.old c.old.pages x v → HasRecords c.old.log (D.state disk.old).block recs → HasRecords c.new.log (D.state disk.new).block (recs ++ update_of t v slot what.now ∷ [])) }
        ensures told { OnOk result ((recs : List LogRecord) (t : OpenTxn) (v : PageView) → txn_in self.old seat ≡ Some t → HasPage pool.old c.old.pages x v → 6 * c.old.log.start + length recs ≡ c.old.log.tail → AreTold self.old c.old.log.start recs → AreTold self.new c.old.log.start (recs ++ update_of t v slot what.now ∷ [])) }
        ensures legal { (t : OpenTxn) (v : PageView) → txn_in self.old seat ≡ Some t → HasPage pool.old c.old.pages x v → IsLegal (update_of t v slot what.now) }
        ensures cut { OnErr result (IsTrue D.told → (recs : List LogRecord) (t : OpenTxn) (v : PageView) → txn_in self.old seat ≡ Some t → HasPage pool.old c.old.pages x v → HasRecords c.old.log (D.state disk.old).block recs
            → IsCutLog (region c.old.log) c.old.log.start c.old.log.stable (D.state disk.new).block (map record_text (recs ++ update_of t v slot what.now ∷ []))) }
        ensures any_outcome { IsTrue D.told → (recs : List LogRecord) (t : OpenTxn) (v : PageView) → txn_in self.old seat ≡ Some t → HasPage pool.old c.old.pages x v → HasRecords c.old.log (D.state disk.old).block recs → (image : ℕ → Option (List ℕ)) → IsOutcome (D.state disk.new).block image
            → HoldsFront (region c.old.log) c.old.log.start c.old.log.stable (map record_text (recs ++ update_of t v slot what.now ∷ [])) image }
    {
        let txn = self.open_in(seat);
        let rec = update(c.view(pool, x), x, slot, txn, what);
        let number = c.log().tail();
        c.change(disk, pool, &rec)?;
        self.seats[seat as usize] = Some(Open {
            begin: txn.begin,
            last: number,
            left: txn.left + 1,
        });
        Ok(())
    }
}
