//! A cached page is changed: first its log record is appended, then its frame is written.

ghost use Rattle.std.specs.Prelude.{◌≡◌, ◌≢◌, ◌+◌, ◌%◌, ◌≤◌, ℕ, [], ◌∷◌, ◌++◌, List, Option, Some, None, true, false, IsTrue, IsSome, IsOk, IfOk, IfErr, OnOk, OnErr};
ghost use Rattle.sd_base.specs.Disk.{BlockState, IsOutcome};
ghost use Rattle.sd_base.specs.Calls.{Keeps, NoNewWriterBut, KeepsForeignBut};
ghost use Rattle.sd_base.specs.Faults.{Caused, IsStopOf};
ghost use Rattle.sd_base.specs.declared.names.PageNo.{PageNo};
ghost use Rattle.sd_base.specs.declared.page_op.PageOp.{PageOp};
ghost use Rattle.sd_base.specs.declared.shape.Shape.{Shape};
ghost use Rattle.log_record.specs.Legal.{IsLegal};
ghost use Rattle.log_record.specs.Record.{page_op_of};
ghost use Rattle.log_record.specs.Text.{record_text};
ghost use Rattle.private_log.specs.Content.{HoldsFront};
ghost use Rattle.private_log.specs.Spread.{IsFreeRegion, IsStill, IsCutLog};
ghost use Rattle.private_log.specs.Frames.{IsInReach, NarrowsBeside, KeepsContents};
ghost use Rattle.private_log.specs.Log.{region, next_place, space, written, SameLog, IsLogOn};
ghost use Rattle.state_ids.specs.PageImage.{PageImage, is_map, is_map_op, changed};
ghost use Rattle.state_ids.specs.Held.{Shows, KeepsFrames};
ghost use Rattle.node_cache.specs.Cache.{CachedPage, AreOut, AreShown, FitsCached, IsOfStore, IsTiedToLog, IsTiedToDisk, changed_by, page_at, with_page};
ghost use Rattle.node_cache.specs.Records.{IsTiedToRecords};

use crate::cache::NodeCache;
use frame_pool::Pool;
use log_record::LogRecord;
use sd_base::{DevFault, Disk};
use state_ids::{Logged, log_page};

impl NodeCache {
    /// Makes the change of a log record to its page.
    fn apply(&mut self, pool: &mut Pool, l: Logged)
        requires node { l.node ≡ self.old.node }
        requires fits { FitsCached pool.old self.old.pages l.page l.ident l.op }
        ensures log { self.new.log ≡ self.old.log }
        ensures node { self.new.node ≡ self.old.node }
        ensures pages { self.new.pages ≡ with_page l.page (changed_by l.number) self.old.pages }
        ensures frames { (p : CachedPage) → page_at l.page self.old.pages ≡ Some p → KeepsFrames p.frame pool.old pool.new }
        ensures image { (p : CachedPage) (image : PageImage) → page_at l.page self.old.pages ≡ Some p → Shows pool.old p.frame image → is_map image ≡ is_map_op l.op → Shows pool.new p.frame (changed l.op image) }
        ensures shown { (s : Shape) → AreShown s pool.old self.old → AreShown s pool.new self.new }
        ensures disk_tie { (s : Shape) (b : ℕ → BlockState) → IsTiedToDisk s pool.old self.old b → IsTiedToDisk s pool.new self.new b }
    {
        let Some(i) = self.pages.find(l.page()) else {
            unreachable!()
        };
        self.pages.apply(i, pool, l);
    }

    /// Appends a record that changes a cached page, makes the change in the page's frame, and answers the
    /// record's number. The record may be in memory alone until the log is forced, and no page is
    /// written.
    ///
    /// The log needs space for the record, and the page has the record's identifier. After an error the
    /// cache is good for `wreck` alone.
    pub fn change<D: Disk>(
        &mut self,
        disk: &mut D,
        pool: &mut Pool,
        rec: &LogRecord,
    ) -> Result<u64, DevFault>
        requires legal { IsLegal rec.now }
        requires change { IsSome (page_op_of rec.now) }
        requires fits { (x : PageNo) (ident : ℕ) (op : PageOp) → page_op_of rec.now ≡ Some (x, ident, op) → FitsCached pool.old self.old.pages x ident op }
        requires space { 1 ≤ space self.old.log }
        requires out { AreOut pool.old self.old }
        requires log_tie { IsTiedToLog self.old }
        requires live { (D.state disk.old).live self.old.node.0 ≡ true }
        requires reach { IsInReach (region self.old.log) (D.state disk.old).reach }
        requires free { IsTrue D.told → IsFreeRegion (region self.old.log) self.old.node.0 (D.state disk.old).block }
        ensures keeps { Keeps self.old.node.0 (D.state disk.old) (D.state disk.new) }
        ensures cause { IfErr result (λ fault. Caused fault (D.state disk.old) (D.state disk.new)) }
        ensures fault { IfErr result (IsStopOf self.old.node.0) }
        ensures live { OnOk result ((D.state disk.new).live self.old.node.0 ≡ true) }
        ensures stopped { OnErr result ((D.state disk.new).live self.old.node.0 ≡ false) }
        ensures outcomes { IsTrue D.told → NarrowsBeside (next_place self.old.log) (D.state disk.old).block (D.state disk.new).block }
        ensures writers { IsTrue D.told → NoNewWriterBut (next_place self.old.log) self.old.node.0 (D.state disk.old).block (D.state disk.new).block }
        ensures foreign { IsTrue D.told → KeepsForeignBut (next_place self.old.log) self.old.node.0 (D.state disk.old).block (D.state disk.new).block }
        ensures contents { OnOk result (IsTrue D.told → KeepsContents (next_place self.old.log) (D.state disk.old).block (D.state disk.new).block) }
        ensures memory { (self.old.log.tail + 1) % 6 ≢ 0 → disk.new ≡ disk.old }
        ensures sure { (self.old.log.tail + 1) % 6 ≢ 0 → IsOk result }
        ensures number { IfOk result (λ number. number ≡ self.old.log.tail) }
        ensures legal { IsLegal rec.now }
        ensures node { self.new.node ≡ self.old.node }
        ensures same { SameLog self.old.log self.new.log }
        ensures tail { OnOk result (self.new.log.tail ≡ self.old.log.tail + 1) }
        ensures stable_in_memory { OnOk result ((self.old.log.tail + 1) % 6 ≢ 0 → self.new.log.stable ≡ self.old.log.stable) }
        ensures stable_written { OnOk result ((self.old.log.tail + 1) % 6 ≡ 0 → self.new.log.stable ≡ written self.old.log) }
        ensures rises { OnOk result (self.old.log.stable ≤ self.new.log.stable) }
        ensures pages { OnOk result ((x : PageNo) (ident : ℕ) (op : PageOp) → page_op_of rec.now ≡ Some (x, ident, op) → self.new.pages ≡ with_page x (changed_by self.old.log.tail) self.old.pages) }
        ensures pages_kept { OnErr result (self.new.pages ≡ self.old.pages) }
        ensures frames { (x : PageNo) (ident : ℕ) (op : PageOp) (p : CachedPage) → page_op_of rec.now ≡ Some (x, ident, op) → page_at x self.old.pages ≡ Some p → KeepsFrames p.frame pool.old pool.new }
        ensures frames_kept { OnErr result (pool.new ≡ pool.old) }
        ensures image { OnOk result ((x : PageNo) (ident : ℕ) (op : PageOp) (p : CachedPage) (image : PageImage) → page_op_of rec.now ≡ Some (x, ident, op) → page_at x self.old.pages ≡ Some p
            → Shows pool.old p.frame image → is_map image ≡ is_map_op op → Shows pool.new p.frame (changed op image)) }
        ensures shown { (s : Shape) → AreShown s pool.old self.old → AreShown s pool.new self.new }
        ensures log_tie { OnOk result (IsTiedToLog self.new) }
        ensures disk_tie { OnOk result (IsTrue D.told → (s : Shape) → IsOfStore s self.old → IsTiedToDisk s pool.old self.old (D.state disk.old).block → IsTiedToDisk s pool.new self.new (D.state disk.new).block) }
        ensures record_tie { OnOk result (IsTrue D.told → (s : Shape) (xs : List (List ℕ)) → IsOfStore s self.old → IsTiedToDisk s pool.old self.old (D.state disk.old).block → IsTiedToRecords s self.old (D.state disk.old).block xs
            → IsTiedToRecords s self.new (D.state disk.new).block (xs ++ record_text rec.now ∷ [])) }
        ensures free { OnOk result (IsTrue D.told → IsFreeRegion (region self.new.log) self.old.node.0 (D.state disk.new).block) }
        ensures still { OnErr result (IsTrue D.told → IsStill (region self.old.log) (D.state disk.new).block) }
        ensures log { OnOk result (IsTrue D.told → (xs : List (List ℕ)) → IsLogOn self.old.log (D.state disk.old).block xs → IsLogOn self.new.log (D.state disk.new).block (xs ++ record_text rec.now ∷ [])) }
        ensures cut { OnErr result (IsTrue D.told → (xs : List (List ℕ)) → IsLogOn self.old.log (D.state disk.old).block xs → IsCutLog (region self.old.log) self.old.log.start self.old.log.stable (D.state disk.new).block (xs ++ record_text rec.now ∷ [])) }
        ensures any_outcome { IsTrue D.told → (xs : List (List ℕ)) → IsLogOn self.old.log (D.state disk.old).block xs → (image : ℕ → Option (List ℕ)) → IsOutcome (D.state disk.new).block image
            → HoldsFront (region self.old.log) self.old.log.start self.old.log.stable (xs ++ record_text rec.now ∷ []) image }
    {
        let number = self.log.tail();
        let logged = log_page(&mut self.log, disk, self.node, rec)?;
        self.apply(pool, logged);
        Ok(number)
    }
}
