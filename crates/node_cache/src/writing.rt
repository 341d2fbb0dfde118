//! Changed pages are written to their blocks, after the log was made stable.

ghost use Rattle.std.specs.Prelude.{◌≡◌, ◌≢◌, ◌+◌, ◌≤◌, ◌<◌, ℕ, [], List, Option, None, true, false, All, AllPairs, IsTrue, IsOk, IfOk, IfErr, OnOk, OnErr, count_by, length, map};
ghost use Rattle.std.specs.List.{cons_option};
ghost use Rattle.sd_base.specs.Disk.{IsPort, IsOutcome};
ghost use Rattle.sd_base.specs.Calls.{Keeps, NoNewWriter, NoNewWriterBut};
ghost use Rattle.sd_base.specs.Faults.{Caused, IsStopOf};
ghost use Rattle.sd_base.specs.Shape.{IsShape, page_count};
ghost use Rattle.frame_pool.specs.Frames.{IsOut};
ghost use Rattle.private_log.specs.Content.{HoldsFront};
ghost use Rattle.private_log.specs.Spread.{IsFreeRegion, IsStill, IsCutLog};
ghost use Rattle.private_log.specs.Frames.{IsInReach};
ghost use Rattle.private_log.specs.Log.{region, tail_place, SameLog, IsLogOn};
ghost use Rattle.state_ids.specs.Blocks.{HasSettled};
ghost use Rattle.node_cache.specs.Cache.{AreOut, IsOfStore, IsStableTo, IsTiedToDisk, IsTiedToLog, SamePages, has_changes, is_changed, page_at, with_page, written_back};
ghost use Rattle.node_cache.specs.Places.{IsWrittenWithin, between};
ghost use Rattle.node_cache.specs.Records.{IsTiedToRecords};
ghost use Rattle.node_cache.specs.Writes.{AreFree, AreInReach, HoldsPages, IsWrittenAhead, KeepsContentsButPages, KeepsContentsOfPages, KeepsForeignButPages, KeepsForeignOfPages, NarrowsButPages, NarrowsToPages};

use crate::cache::NodeCache;
use frame_pool::Pool;
use sd_base::{DevFault, Disk, PageNo, Shape};

impl NodeCache {
    /// Makes the log stable, then writes the pages of a range that have changes in rising order of their
    /// numbers, and covers them by one barrier. It answers their number. Where none has changes, it does
    /// nothing.
    ///
    /// After an error each of them still has its changes.
    pub(crate) fn write_back<D: Disk>(
        &mut self,
        from: usize,
        to: usize,
        disk: &mut D,
        s: &Shape,
        pool: &Pool,
    ) -> Result<usize, DevFault>
        requires range { (from ≤ to) × (to ≤ length self.old.pages) }
        requires store { IsOfStore s.now self.old }
        requires out { AreOut pool.now self.old }
        requires log_tie { IsTiedToLog self.old }
        requires live { (D.state disk.old).live self.old.node.0 ≡ true }
        requires log_reach { IsInReach (region self.old.log) (D.state disk.old).reach }
        requires page_reach { AreInReach s.now (between from to self.old.pages) (D.state disk.old).reach }
        requires log_free { IsTrue D.told → IsFreeRegion (region self.old.log) self.old.node.0 (D.state disk.old).block }
        requires page_free { IsTrue D.told → AreFree s.now (between from to self.old.pages) self.old.node.0 (D.state disk.old).block }
        ensures keeps { Keeps self.old.node.0 (D.state disk.old) (D.state disk.new) }
        ensures cause { IfErr result (λ fault. Caused fault (D.state disk.old) (D.state disk.new)) }
        ensures fault { IfErr result (IsStopOf self.old.node.0) }
        ensures live { OnOk result ((D.state disk.new).live self.old.node.0 ≡ true) }
        ensures stopped { OnErr result ((D.state disk.new).live self.old.node.0 ≡ false) }
        ensures count { IfOk result (λ count. count ≡ count_by has_changes (between from to self.old.pages)) }
        ensures idle { count_by has_changes (between from to self.old.pages) ≡ 0 → (IsOk result) × (self.new ≡ self.old) × (disk.new ≡ disk.old) }
        ensures node { self.new.node ≡ self.old.node }
        ensures same { SameLog self.old.log self.new.log }
        ensures tail { self.new.log.tail ≡ self.old.log.tail }
        ensures stable { OnOk result (1 ≤ count_by has_changes (between from to self.old.pages) → self.new.log.stable ≡ self.old.log.tail) }
        ensures rises { OnOk result (self.old.log.stable ≤ self.new.log.stable) }
        ensures written { OnOk result (IsWrittenWithin from to self.old.pages self.new.pages) }
        ensures kept { OnErr result (self.new.pages ≡ self.old.pages) }
        ensures log_tie { IsTiedToLog self.new }
        ensures disk_tie { OnOk result (IsTrue D.told → IsTiedToDisk s.now pool.now self.old (D.state disk.old).block → IsTiedToDisk s.now pool.now self.new (D.state disk.new).block) }
        ensures record_tie { OnOk result (IsTrue D.told → (xs : List (List ℕ)) → IsTiedToRecords s.now self.old (D.state disk.old).block xs → IsTiedToRecords s.now self.new (D.state disk.new).block xs) }
        ensures outcomes { IsTrue D.told → NarrowsButPages s.now self.old.log pool.now (between from to self.old.pages) (D.state disk.old).block (D.state disk.new).block }
        ensures writers { IsTrue D.told → NoNewWriterBut (tail_place self.old.log) self.old.node.0 (D.state disk.old).block (D.state disk.new).block }
        ensures foreign { IsTrue D.told → KeepsForeignButPages s.now self.old.log (between from to self.old.pages) self.old.node.0 (D.state disk.old).block (D.state disk.new).block }
        ensures contents { OnOk result (IsTrue D.told → KeepsContentsButPages s.now self.old.log (between from to self.old.pages) (D.state disk.old).block (D.state disk.new).block) }
        ensures holds { OnOk result (IsTrue D.told → HoldsPages s.now pool.now (between from to self.old.pages) (D.state disk.new).block) }
        ensures free { OnOk result (IsTrue D.told → IsFreeRegion (region self.new.log) self.old.node.0 (D.state disk.new).block) }
        ensures still { OnErr result (IsTrue D.told → IsStill (region self.old.log) (D.state disk.new).block) }
        ensures ahead { IsTrue D.told → (xs : List (List ℕ)) → IsLogOn self.old.log (D.state disk.old).block xs → IsWrittenAhead self.old.log xs (D.state disk.old).block (D.state disk.new).block }
        ensures log { OnOk result (IsTrue D.told → (xs : List (List ℕ)) → IsLogOn self.old.log (D.state disk.old).block xs → IsLogOn self.new.log (D.state disk.new).block xs) }
        ensures cut { OnErr result (IsTrue D.told → (xs : List (List ℕ)) → IsLogOn self.old.log (D.state disk.old).block xs → IsCutLog (region self.old.log) self.old.log.start self.old.log.stable (D.state disk.new).block xs) }
        ensures any_outcome { IsTrue D.told → (xs : List (List ℕ)) → IsLogOn self.old.log (D.state disk.old).block xs → (image : ℕ → Option (List ℕ)) → IsOutcome (D.state disk.new).block image
            → HoldsFront (region self.old.log) self.old.log.start self.old.log.stable xs image }
    {
        let count = self.pages.count_changed(from, to);
        if count > 0 {
            self.force(disk)?;
            self.pages
                .write_range(from, to, disk, self.node, s, pool, &self.log)?;
        }
        Ok(count)
    }

    /// Writes a page to its block, after its log records were made stable, if it is cached and has
    /// changes. Otherwise it does nothing.
    ///
    /// After an error the cache is good for `wreck` alone.
    pub fn flush_page<D: Disk>(
        &mut self,
        disk: &mut D,
        s: &Shape,
        pool: &Pool,
        x: PageNo,
    ) -> Result<(), DevFault>
        requires store { IsOfStore s.now self.old }
        requires out { AreOut pool.now self.old }
        requires log_tie { IsTiedToLog self.old }
        requires live { (D.state disk.old).live self.old.node.0 ≡ true }
        requires log_reach { IsInReach (region self.old.log) (D.state disk.old).reach }
        requires page_reach { AreInReach s.now (cons_option (page_at x self.old.pages) []) (D.state disk.old).reach }
        requires log_free { IsTrue D.told → IsFreeRegion (region self.old.log) self.old.node.0 (D.state disk.old).block }
        requires page_free { IsTrue D.told → AreFree s.now (cons_option (page_at x self.old.pages) []) self.old.node.0 (D.state disk.old).block }
        ensures keeps { Keeps self.old.node.0 (D.state disk.old) (D.state disk.new) }
        ensures cause { IfErr result (λ fault. Caused fault (D.state disk.old) (D.state disk.new)) }
        ensures fault { IfErr result (IsStopOf self.old.node.0) }
        ensures live { OnOk result ((D.state disk.new).live self.old.node.0 ≡ true) }
        ensures stopped { OnErr result ((D.state disk.new).live self.old.node.0 ≡ false) }
        ensures idle { is_changed x self.old ≡ false → (IsOk result) × (self.new ≡ self.old) × (disk.new ≡ disk.old) }
        ensures node { self.new.node ≡ self.old.node }
        ensures same { SameLog self.old.log self.new.log }
        ensures tail { self.new.log.tail ≡ self.old.log.tail }
        ensures stable { OnOk result (IsTrue (is_changed x self.old) → self.new.log.stable ≡ self.old.log.tail) }
        ensures rises { OnOk result (self.old.log.stable ≤ self.new.log.stable) }
        ensures pages { OnOk result (self.new.pages ≡ with_page x written_back self.old.pages) }
        ensures pages_kept { OnErr result (self.new.pages ≡ self.old.pages) }
        ensures log_tie { IsTiedToLog self.new }
        ensures disk_tie { OnOk result (IsTrue D.told → IsTiedToDisk s.now pool.now self.old (D.state disk.old).block → IsTiedToDisk s.now pool.now self.new (D.state disk.new).block) }
        ensures record_tie { OnOk result (IsTrue D.told → (xs : List (List ℕ)) → IsTiedToRecords s.now self.old (D.state disk.old).block xs → IsTiedToRecords s.now self.new (D.state disk.new).block xs) }
        ensures outcomes { IsTrue D.told → NarrowsButPages s.now self.old.log pool.now (cons_option (page_at x self.old.pages) []) (D.state disk.old).block (D.state disk.new).block }
        ensures writers { IsTrue D.told → NoNewWriterBut (tail_place self.old.log) self.old.node.0 (D.state disk.old).block (D.state disk.new).block }
        ensures foreign { IsTrue D.told → KeepsForeignButPages s.now self.old.log (cons_option (page_at x self.old.pages) []) self.old.node.0 (D.state disk.old).block (D.state disk.new).block }
        ensures contents { OnOk result (IsTrue D.told → KeepsContentsButPages s.now self.old.log (cons_option (page_at x self.old.pages) []) (D.state disk.old).block (D.state disk.new).block) }
        ensures holds { OnOk result (IsTrue D.told → HoldsPages s.now pool.now (cons_option (page_at x self.old.pages) []) (D.state disk.new).block) }
        ensures free { OnOk result (IsTrue D.told → IsFreeRegion (region self.new.log) self.old.node.0 (D.state disk.new).block) }
        ensures still { OnErr result (IsTrue D.told → IsStill (region self.old.log) (D.state disk.new).block) }
        ensures ahead { IsTrue D.told → (xs : List (List ℕ)) → IsLogOn self.old.log (D.state disk.old).block xs → IsWrittenAhead self.old.log xs (D.state disk.old).block (D.state disk.new).block }
        ensures log { OnOk result (IsTrue D.told → (xs : List (List ℕ)) → IsLogOn self.old.log (D.state disk.old).block xs → IsLogOn self.new.log (D.state disk.new).block xs) }
        ensures cut { OnErr result (IsTrue D.told → (xs : List (List ℕ)) → IsLogOn self.old.log (D.state disk.old).block xs → IsCutLog (region self.old.log) self.old.log.start self.old.log.stable (D.state disk.new).block xs) }
        ensures any_outcome { IsTrue D.told → (xs : List (List ℕ)) → IsLogOn self.old.log (D.state disk.old).block xs → (image : ℕ → Option (List ℕ)) → IsOutcome (D.state disk.new).block image
            → HoldsFront (region self.old.log) self.old.log.start self.old.log.stable xs image }
    {
        if let Some(i) = self.pages.find(x) {
            self.write_back(i, i + 1, disk, s, pool)?;
        }
        Ok(())
    }

    /// Writes all pages that have changes to their blocks, in rising order of their numbers, after all log
    /// records were made stable, covers them by one barrier, and answers their number. Where none has
    /// changes, it does nothing.
    ///
    /// After an error each page has the changes that it had, and the cache is good for `wreck` alone. The
    /// block of each changed page holds what it held before or what the page's frame holds.
    pub fn flush_all<D: Disk>(
        &mut self,
        disk: &mut D,
        s: &Shape,
        pool: &Pool,
    ) -> Result<u32, DevFault>
        requires store { IsOfStore s.now self.old }
        requires out { AreOut pool.now self.old }
        requires log_tie { IsTiedToLog self.old }
        requires live { (D.state disk.old).live self.old.node.0 ≡ true }
        requires log_reach { IsInReach (region self.old.log) (D.state disk.old).reach }
        requires page_reach { AreInReach s.now self.old.pages (D.state disk.old).reach }
        requires log_free { IsTrue D.told → IsFreeRegion (region self.old.log) self.old.node.0 (D.state disk.old).block }
        requires page_free { IsTrue D.told → AreFree s.now self.old.pages self.old.node.0 (D.state disk.old).block }
        ensures keeps { Keeps self.old.node.0 (D.state disk.old) (D.state disk.new) }
        ensures cause { IfErr result (λ fault. Caused fault (D.state disk.old) (D.state disk.new)) }
        ensures fault { IfErr result (IsStopOf self.old.node.0) }
        ensures live { OnOk result ((D.state disk.new).live self.old.node.0 ≡ true) }
        ensures stopped { OnErr result ((D.state disk.new).live self.old.node.0 ≡ false) }
        ensures count { IfOk result (λ count. count ≡ count_by has_changes self.old.pages) }
        ensures idle { count_by has_changes self.old.pages ≡ 0 → (IsOk result) × (self.new ≡ self.old) × (disk.new ≡ disk.old) }
        ensures node { self.new.node ≡ self.old.node }
        ensures same { SameLog self.old.log self.new.log }
        ensures tail { self.new.log.tail ≡ self.old.log.tail }
        ensures stable { OnOk result (1 ≤ count_by has_changes self.old.pages → self.new.log.stable ≡ self.old.log.tail) }
        ensures pages { OnOk result (self.new.pages ≡ map written_back self.old.pages) }
        ensures pages_kept { OnErr result (self.new.pages ≡ self.old.pages) }
        ensures same_pages { SamePages self.old.pages self.new.pages }
        ensures log_tie { IsTiedToLog self.new }
        ensures disk_tie { OnOk result (IsTrue D.told → IsTiedToDisk s.now pool.now self.old (D.state disk.old).block → IsTiedToDisk s.now pool.now self.new (D.state disk.new).block) }
        ensures record_tie { OnOk result (IsTrue D.told → (xs : List (List ℕ)) → IsTiedToRecords s.now self.old (D.state disk.old).block xs → IsTiedToRecords s.now self.new (D.state disk.new).block xs) }
        ensures outcomes { IsTrue D.told → NarrowsButPages s.now self.old.log pool.now self.old.pages (D.state disk.old).block (D.state disk.new).block }
        ensures writers { IsTrue D.told → NoNewWriterBut (tail_place self.old.log) self.old.node.0 (D.state disk.old).block (D.state disk.new).block }
        ensures foreign { IsTrue D.told → KeepsForeignButPages s.now self.old.log self.old.pages self.old.node.0 (D.state disk.old).block (D.state disk.new).block }
        ensures contents { OnOk result (IsTrue D.told → KeepsContentsButPages s.now self.old.log self.old.pages (D.state disk.old).block (D.state disk.new).block) }
        ensures holds { OnOk result (IsTrue D.told → HoldsPages s.now pool.now self.old.pages (D.state disk.new).block) }
        ensures free { OnOk result (IsTrue D.told → IsFreeRegion (region self.new.log) self.old.node.0 (D.state disk.new).block) }
        ensures still { OnErr result (IsTrue D.told → IsStill (region self.old.log) (D.state disk.new).block) }
        ensures ahead { IsTrue D.told → (xs : List (List ℕ)) → IsLogOn self.old.log (D.state disk.old).block xs → IsWrittenAhead self.old.log xs (D.state disk.old).block (D.state disk.new).block }
        ensures log { OnOk result (IsTrue D.told → (xs : List (List ℕ)) → IsLogOn self.old.log (D.state disk.old).block xs → IsLogOn self.new.log (D.state disk.new).block xs) }
        ensures cut { OnErr result (IsTrue D.told → (xs : List (List ℕ)) → IsLogOn self.old.log (D.state disk.old).block xs → IsCutLog (region self.old.log) self.old.log.start self.old.log.stable (D.state disk.new).block xs) }
        ensures any_outcome { IsTrue D.told → (xs : List (List ℕ)) → IsLogOn self.old.log (D.state disk.old).block xs → (image : ℕ → Option (List ℕ)) → IsOutcome (D.state disk.new).block image
            → HoldsFront (region self.old.log) self.old.log.start self.old.log.stable xs image }
    {
        let len = self.pages.len();
        let count = self.write_back(0, len, disk, s, pool)?;
        Ok(count as u32)
    }
}
