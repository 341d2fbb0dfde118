//! A node gives up a page, for another node to take.

ghost use Rattle.std.specs.Prelude.{◌≡◌, ◌≢◌, ◌+◌, ◌≤◌, [], ℕ, List, Option, true, false, IsTrue, IfSome, IfErr, OnOk, OnErr, length, slice_set};
ghost use Rattle.std.specs.List.{cons_option};
ghost use Rattle.sd_base.specs.Disk.{IsOutcome};
ghost use Rattle.sd_base.specs.Calls.{Keeps, NoNewWriterBut};
ghost use Rattle.sd_base.specs.Faults.{Caused, IsStopOf};
ghost use Rattle.frame_pool.specs.Frames.{free_count};
ghost use Rattle.private_log.specs.Content.{HoldsFront};
ghost use Rattle.private_log.specs.Spread.{IsFreeRegion, IsStill, IsCutLog};
ghost use Rattle.private_log.specs.Frames.{IsInReach};
ghost use Rattle.private_log.specs.Log.{region, tail_place, SameLog, IsLogOn};
ghost use Rattle.page_owner.specs.declared.owners.Own.TheVariants.{Nobody};
ghost use Rattle.page_owner.specs.Owners.{owner_of};
ghost use Rattle.node_cache.specs.Cache.{AreOut, AreOwned, AreShown, IsOfStore, IsTiedToDisk, IsTiedToLog, StandsFor, is_changed, page_at, written_back};
ghost use Rattle.node_cache.specs.Records.{IsTiedToRecords};
ghost use Rattle.node_cache.specs.Room.{IsHeldBy, freed, without_page};
ghost use Rattle.node_cache.specs.Writes.{AreFree, AreInReach, HoldsPages, IsWrittenAhead, KeepsContentsButPages, KeepsForeignButPages, NarrowsButPages};

use crate::cache::NodeCache;
use frame_pool::Pool;
use page_owner::Owners;
use sd_base::{DevFault, Disk, PageNo, Shape};

impl NodeCache {
    /// Gives back the ticket of a page that the node has. If the page is cached it has no changes; its
    /// stay ends, and its frame is given back.
    fn give_back(&mut self, x: PageNo, pool: &mut Pool, owners: &mut Owners)
        requires clean { is_changed x self.old ≡ false }
        requires out { AreOut pool.old self.old }
        requires owned { AreOwned owners.old self.old }
        requires held { IsHeldBy self.old.node (owner_of owners.old x.0) }
        ensures log { self.new.log ≡ self.old.log }
        ensures node { self.new.node ≡ self.old.node }
        ensures pages { self.new.pages ≡ without_page x self.old.pages }
        ensures pool { pool.new ≡ freed (cons_option (page_at x self.old.pages) []) pool.old }
        ensures counted { free_count pool.new + length self.new.pages ≡ free_count pool.old + length self.old.pages }
        ensures owners { owners.new ≡ slice_set owners.old x.0 Nobody }
    {
        match self.pages.find(x) {
            Some(i) => {
                let (frame, ticket) = self.pages.remove(i).release();
                pool.give(frame);
                owners.give_back(ticket);
            }
            None => {
                let parked = owners.resume(x, self.node);
                owners.give_back(parked);
            }
        }
    }

    /// Gives up a page that the node has, for another node to take: a page with changes is written, after
    /// all log records were made stable, and covered; then its ticket is given back, and the page is
    /// nobody's.
    ///
    /// After an error the page stays with the node, and the cache is good for `wreck` alone.
    pub fn surrender<D: Disk>(
        &mut self,
        disk: &mut D,
        s: &Shape,
        pool: &mut Pool,
        owners: &mut Owners,
        x: PageNo,
    ) -> Result<(), DevFault>
        requires store { IsOfStore s.now self.old }
        requires out { AreOut pool.old self.old }
        requires owned { AreOwned owners.old self.old }
        requires held { IsHeldBy self.old.node (owner_of owners.old x.0) }
        requires log_tie { IsTiedToLog self.old }
        requires live { (D.state disk.old).live self.old.node.0 ≡ true }
        requires log_reach { IsInReach (region self.old.log) (D.state disk.old).reach }
        requires page_reach { AreInReach s.now (cons_option (page_at x self.old.pages) []) (D.state disk.old).reach }
        requires log_free { IsTrue D.told → IsFreeRegion (region self.old.log) self.old.node.0 (D.state disk.old).block }
        requires page_free { IsTrue D.told → AreFree s.now (cons_option (page_at x self.old.pages) []) self.old.node.0 (D.state disk.old).block }
        ensures keeps { Keeps self.old.node.0 (D.state disk.old) (D.state disk.new) }
        ensures cause { IfErr result (λ fault. Caused fault (D.state disk.old) (D.state disk.new)) }
        ensures fault { IfErr result (IsStopOf self.old.node.0) }
        ensures live { OnOk result ((D.state disk.new).live self.old.node.0 ≡ true) }
        ensures stopped { OnErr result ((D.state disk.new).live self.old.node.0 ≡ false) }
        ensures idle { is_changed x self.old ≡ false → disk.new ≡ disk.old }
        ensures node { self.new.node ≡ self.old.node }
        ensures same { SameLog self.old.log self.new.log }
        ensures tail { self.new.log.tail ≡ self.old.log.tail }
        ensures stable { OnOk result (IsTrue (is_changed x self.old) → self.new.log.stable ≡ self.old.log.tail) }
        ensures stable_kept { OnOk result (is_changed x self.old ≡ false → self.new.log ≡ self.old.log) }
        ensures rises { OnOk result (self.old.log.stable ≤ self.new.log.stable) }
        ensures pages { OnOk result (self.new.pages ≡ without_page x self.old.pages) }
        ensures pages_kept { OnErr result (self.new.pages ≡ self.old.pages) }
        ensures pool { OnOk result (pool.new ≡ freed (cons_option (page_at x self.old.pages) []) pool.old) }
        ensures pool_kept { OnErr result (pool.new ≡ pool.old) }
        ensures owners { OnOk result (owners.new ≡ slice_set owners.old x.0 Nobody) }
        ensures owners_kept { OnErr result (owners.new ≡ owners.old) }
        ensures counted { free_count pool.new + length self.new.pages ≡ free_count pool.old + length self.old.pages }
        ensures store { IsOfStore s.now self.new }
        ensures owned { AreOwned owners.new self.new }
        ensures out { AreOut pool.new self.new }
        ensures shown { AreShown s.now pool.old self.old → AreShown s.now pool.new self.new }
        ensures log_tie { IsTiedToLog self.new }
        ensures disk_tie { OnOk result (IsTrue D.told → IsTiedToDisk s.now pool.old self.old (D.state disk.old).block → IsTiedToDisk s.now pool.new self.new (D.state disk.new).block) }
        ensures record_tie { OnOk result (IsTrue D.told → (xs : List (List ℕ)) → IsTiedToRecords s.now self.old (D.state disk.old).block xs → IsTiedToRecords s.now self.new (D.state disk.new).block xs) }
        ensures stands { OnOk result (IsTrue D.told → IsTiedToDisk s.now pool.old self.old (D.state disk.old).block → IfSome (page_at x self.old.pages) (λ p. StandsFor s.now pool.old p (D.state disk.new).block)) }
        ensures outcomes { IsTrue D.told → NarrowsButPages s.now self.old.log pool.old (cons_option (page_at x self.old.pages) []) (D.state disk.old).block (D.state disk.new).block }
        ensures writers { IsTrue D.told → NoNewWriterBut (tail_place self.old.log) self.old.node.0 (D.state disk.old).block (D.state disk.new).block }
        ensures foreign { IsTrue D.told → KeepsForeignButPages s.now self.old.log (cons_option (page_at x self.old.pages) []) self.old.node.0 (D.state disk.old).block (D.state disk.new).block }
        ensures contents { OnOk result (IsTrue D.told → KeepsContentsButPages s.now self.old.log (cons_option (page_at x self.old.pages) []) (D.state disk.old).block (D.state disk.new).block) }
        ensures holds { OnOk result (IsTrue D.told → HoldsPages s.now pool.old (cons_option (page_at x self.old.pages) []) (D.state disk.new).block) }
        ensures free { OnOk result (IsTrue D.told → IsFreeRegion (region self.new.log) self.old.node.0 (D.state disk.new).block) }
        ensures still { OnErr result (IsTrue D.told → IsStill (region self.old.log) (D.state disk.new).block) }
        ensures ahead { IsTrue D.told → (xs : List (List ℕ)) → IsLogOn self.old.log (D.state disk.old).block xs → IsWrittenAhead self.old.log xs (D.state disk.old).block (D.state disk.new).block }
        ensures log { OnOk result (IsTrue D.told → (xs : List (List ℕ)) → IsLogOn self.old.log (D.state disk.old).block xs → IsLogOn self.new.log (D.state disk.new).block xs) }
        ensures cut { OnErr result (IsTrue D.told → (xs : List (List ℕ)) → IsLogOn self.old.log (D.state disk.old).block xs → IsCutLog (region self.old.log) self.old.log.start self.old.log.stable (D.state disk.new).block xs) }
        ensures any_outcome { IsTrue D.told → (xs : List (List ℕ)) → IsLogOn self.old.log (D.state disk.old).block xs → (image : ℕ → Option (List ℕ)) → IsOutcome (D.state disk.new).block image
            → HoldsFront (region self.old.log) self.old.log.start self.old.log.stable xs image }
    {
        self.law_of_pages();
        self.flush_page(disk, s, pool, x)?;
        self.law_of_pages();
        self.give_back(x, pool, owners);
        Ok(())
    }
}
