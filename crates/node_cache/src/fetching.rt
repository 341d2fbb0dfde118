//! A page comes into the cache, and where the cache is full another one leaves it.

ghost use Rattle.std.specs.Prelude.{◌≡◌, ◌≢◌, ◌⊎◌, ◌+◌, ◌≤◌, ◌<◌, ℕ, List, Option, Some, None, true, false, All, AllPairs, IsTrue, IsOk, IfSome, IfOk, IfErr, OnOk, OnErr, MatchResult, [], count_by, length, slice_set};
ghost use Rattle.std.specs.List.{position, remove, slice_get};
ghost use Rattle.sd_base.specs.Disk.{IsPort, IsFreeFor, IsOutcome};
ghost use Rattle.sd_base.specs.Calls.{Keeps, Narrows, NoNewWriter, NoNewWriterBut, KeepsForeign};
ghost use Rattle.sd_base.specs.Faults.{Caused, IsStopOf, OnStop, StaysLive};
ghost use Rattle.sd_base.specs.Shape.{IsShape, page_count};
ghost use Rattle.sd_base.specs.declared.device.NodeId.{NodeId};
ghost use Rattle.frame_pool.specs.Frames.{IsOut, free_count};
ghost use Rattle.private_log.specs.Content.{HoldsFront};
ghost use Rattle.private_log.specs.Spread.{IsFreeRegion, IsStill, IsCutLog};
ghost use Rattle.private_log.specs.Frames.{IsInReach};
ghost use Rattle.private_log.specs.Log.{region, tail_place, SameLog, IsLogOn};
ghost use Rattle.page_owner.specs.declared.owners.Own.TheVariants.{Nobody, Parked, Out};
ghost use Rattle.page_owner.specs.Owners.{owner_of};
ghost use Rattle.state_ids.specs.PageImage.{PageImage, in_life};
ghost use Rattle.state_ids.specs.Held.{Shows};
ghost use Rattle.state_ids.specs.Blocks.{FitsPage, HasSettled, HoldsPage, IsPageFault, IsToldOfPage, UnlessStopped, page_place};
ghost use Rattle.node_cache.specs.Cache.{AreOut, AreOwned, AreShown, CachedPage, IsOfStore, IsTiedToDisk, IsTiedToLog, has_changes, is_cached, page_at};
ghost use Rattle.node_cache.specs.Records.{IsTiedToRecords};
ghost use Rattle.node_cache.specs.Room.{Arrived, IsEntryOf, IsOpenTo, Missed, freed, is_map_of, leaving, may_go, parked, staying};
ghost use Rattle.node_cache.specs.Writes.{AreFree, AreInReach, HoldsPages, IsWrittenAhead, KeepsContentsButPages, KeepsForeignButPages, NarrowsButPages};

use crate::cache::NodeCache;
use crate::pages::MAX_PAGES;
use crate::slot::Slot;
use frame_pool::Pool;
use page_owner::{Own, Owners, Ticket};
use sd_base::{DevFault, Disk, NodeId, PageNo, Shape};
use space_map::MapEntry;
use state_ids::{load, test_block};

/// Whether `x` is a data page whose entry stands in the map page `m`.
fn is_map_of(s: &Shape, m: PageNo, x: PageNo) -> bool
    requires valid { IsShape s.now }
    requires page { x.0 < page_count s.now }
    ensures { result ≡ is_map_of s.now m x }
{
    x.0 >= s.maps && m == s.map_of_page(x)
}

/// Takes a page that is nobody's, or that the node has parked.
fn take_ticket(owners: &mut Owners, x: PageNo, n: NodeId) -> Ticket
    requires page { x.0 < length owners.old }
    requires open { (owner_of owners.old x.0 ≡ Nobody) ⊎ (owner_of owners.old x.0 ≡ Parked n) }
    ensures page { result.page ≡ x }
    ensures node { result.node ≡ n }
    ensures table { owners.new ≡ slice_set owners.old x.0 (Out n) }
{
    match owners.state(x) {
        Own::Nobody => owners.grant(x, n),
        _ => owners.resume(x, n),
    }
}

impl NodeCache {
    /// The place of the page that makes room for `x` in a full cache: the first one that isn't the map
    /// page of `x`.
    fn leaving_place(&self, s: &Shape, x: PageNo) -> usize
        requires full { length self.now.pages ≡ 16 }
        requires valid { IsShape s.now }
        requires page { x.0 < page_count s.now }
        ensures { position (may_go s.now x) self.now.pages ≡ Some result }
    {
        if is_map_of(s, self.pages.slot(0).page(), x) {
            1
        } else {
            0
        }
    }

    /// Ends the stay of a page that has no changes: its frame is given back, and it is parked.
    fn let_go(&mut self, i: usize, pool: &mut Pool, owners: &mut Owners)
        requires place { i < length self.old.pages }
        requires clean { (p : CachedPage) → slice_get self.old.pages i ≡ Some p → p.changes ≡ None }
        requires out { AreOut pool.old self.old }
        requires owned { (p : CachedPage) → slice_get self.old.pages i ≡ Some p → owner_of owners.old p.ticket.page.0 ≡ Out p.ticket.node }
        ensures log { self.new.log ≡ self.old.log }
        ensures node { self.new.node ≡ self.old.node }
        ensures pages { self.new.pages ≡ remove self.old.pages i }
        ensures pool { (p : CachedPage) → slice_get self.old.pages i ≡ Some p → pool.new ≡ slice_set pool.old p.frame None }
        ensures counted { free_count pool.new ≡ free_count pool.old + 1 }
        ensures owners { (p : CachedPage) → slice_get self.old.pages i ≡ Some p → owners.new ≡ slice_set owners.old p.ticket.page.0 (Parked p.ticket.node) }
    {
        let (frame, ticket) = self.pages.remove(i).release();
        pool.give(frame);
        owners.park(ticket);
    }

    /// Makes room for the page `x`: of 16 pages the first one but the map page of `x` is written, if it
    /// has changes, and parked.
    fn make_room<D: Disk>(
        &mut self,
        disk: &mut D,
        s: &Shape,
        pool: &mut Pool,
        owners: &mut Owners,
        x: PageNo,
    ) -> Result<(), DevFault>
        requires store { IsOfStore s.now self.old }
        requires page { x.0 < page_count s.now }
        requires owned { All (λ p. owner_of owners.old p.ticket.page.0 ≡ Out p.ticket.node) self.old.pages }
        requires out { AreOut pool.old self.old }
        requires frame { length self.old.pages < 16 → 0 < free_count pool.old }
        requires log_tie { IsTiedToLog self.old }
        requires live { (D.state disk.old).live self.old.node.0 ≡ true }
        requires log_reach { IsInReach (region self.old.log) (D.state disk.old).reach }
        requires page_reach { AreInReach s.now (leaving s.now x self.old.pages) (D.state disk.old).reach }
        requires log_free { IsTrue D.told → IsFreeRegion (region self.old.log) self.old.node.0 (D.state disk.old).block }
        requires page_free { IsTrue D.told → AreFree s.now (leaving s.now x self.old.pages) self.old.node.0 (D.state disk.old).block }
        ensures keeps { Keeps self.old.node.0 (D.state disk.old) (D.state disk.new) }
        ensures cause { IfErr result (λ fault. Caused fault (D.state disk.old) (D.state disk.new)) }
        ensures fault { IfErr result (IsStopOf self.old.node.0) }
        ensures live { OnOk result ((D.state disk.new).live self.old.node.0 ≡ true) }
        ensures stopped { OnErr result ((D.state disk.new).live self.old.node.0 ≡ false) }
        ensures node { self.new.node ≡ self.old.node }
        ensures same { SameLog self.old.log self.new.log }
        ensures tail { self.new.log.tail ≡ self.old.log.tail }
        ensures stable { OnOk result (1 ≤ count_by has_changes (leaving s.now x self.old.pages) → self.new.log.stable ≡ self.old.log.tail) }
        ensures rises { OnOk result (self.old.log.stable ≤ self.new.log.stable) }
        ensures pages { OnOk result (self.new.pages ≡ staying s.now x self.old.pages) }
        ensures pages_kept { OnErr result (self.new.pages ≡ self.old.pages) }
        ensures pool { OnOk result (pool.new ≡ freed (leaving s.now x self.old.pages) pool.old) }
        ensures pool_kept { OnErr result (pool.new ≡ pool.old) }
        ensures owners { OnOk result (owners.new ≡ parked (leaving s.now x self.old.pages) owners.old) }
        ensures owners_kept { OnErr result (owners.new ≡ owners.old) }
        ensures room { OnOk result ((length self.new.pages < 16) × (0 < free_count pool.new)) }
        ensures counted { free_count pool.new + length self.new.pages ≡ free_count pool.old + length self.old.pages }
        ensures out { AreOut pool.new self.new }
        ensures shown { AreShown s.now pool.old self.old → AreShown s.now pool.new self.new }
        ensures log_tie { IsTiedToLog self.new }
        ensures disk_tie { OnOk result (IsTrue D.told → IsTiedToDisk s.now pool.old self.old (D.state disk.old).block → IsTiedToDisk s.now pool.new self.new (D.state disk.new).block) }
        ensures record_tie { OnOk result (IsTrue D.told → (xs : List (List ℕ)) → IsTiedToRecords s.now self.old (D.state disk.old).block xs → IsTiedToRecords s.now self.new (D.state disk.new).block xs) }
        ensures outcomes { IsTrue D.told → NarrowsButPages s.now self.old.log pool.old (leaving s.now x self.old.pages) (D.state disk.old).block (D.state disk.new).block }
        ensures writers { IsTrue D.told → NoNewWriterBut (tail_place self.old.log) self.old.node.0 (D.state disk.old).block (D.state disk.new).block }
        ensures foreign { IsTrue D.told → KeepsForeignButPages s.now self.old.log (leaving s.now x self.old.pages) self.old.node.0 (D.state disk.old).block (D.state disk.new).block }
        ensures contents { OnOk result (IsTrue D.told → KeepsContentsButPages s.now self.old.log (leaving s.now x self.old.pages) (D.state disk.old).block (D.state disk.new).block) }
        ensures holds { OnOk result (IsTrue D.told → HoldsPages s.now pool.old (leaving s.now x self.old.pages) (D.state disk.new).block) }
        ensures free { OnOk result (IsTrue D.told → IsFreeRegion (region self.new.log) self.old.node.0 (D.state disk.new).block) }
        ensures still { OnErr result (IsTrue D.told → IsStill (region self.old.log) (D.state disk.new).block) }
        ensures ahead { IsTrue D.told → (xs : List (List ℕ)) → IsLogOn self.old.log (D.state disk.old).block xs → IsWrittenAhead self.old.log xs (D.state disk.old).block (D.state disk.new).block }
        ensures log { OnOk result (IsTrue D.told → (xs : List (List ℕ)) → IsLogOn self.old.log (D.state disk.old).block xs → IsLogOn self.new.log (D.state disk.new).block xs) }
        ensures cut { OnErr result (IsTrue D.told → (xs : List (List ℕ)) → IsLogOn self.old.log (D.state disk.old).block xs → IsCutLog (region self.old.log) self.old.log.start self.old.log.stable (D.state disk.new).block xs) }
    {
        if self.pages.len() < MAX_PAGES {
            return Ok(());
        }
        let i = self.leaving_place(s, x);
        self.write_back(i, i + 1, disk, s, pool)?;
        self.let_go(i, pool, owners);
        Ok(())
    }

    /// Reads a page into a free frame. With each fault its ticket comes back, and the frame is free.
    fn bring<D: Disk>(
        &mut self,
        disk: &mut D,
        s: &Shape,
        pool: &mut Pool,
        ticket: Ticket,
        e: Option<MapEntry>,
    ) -> Result<(), (DevFault, Ticket)>
        requires shape { IsShape s.now }
        requires page { ticket.page.0 < page_count s.now }
        requires entry { FitsPage s.now ticket.page e }
        requires own { ticket.node ≡ self.old.node }
        requires new { is_cached ticket.page self.old ≡ false }
        requires few { length self.old.pages < 16 }
        requires out { AreOut pool.old self.old }
        requires frame { 0 < free_count pool.old }
        requires live { (D.state disk.old).live self.old.node.0 ≡ true }
        requires reach { (D.state disk.old).reach (page_place s.now ticket.page) ≡ true }
        ensures keeps { Keeps self.old.node.0 (D.state disk.old) (D.state disk.new) }
        ensures cause { IfErr result (λ r. Caused r.0 (D.state disk.old) (D.state disk.new)) }
        ensures fault { IfErr result (λ r. IsPageFault s.now ticket.page self.old.node.0 r.0) }
        ensures told { IsTrue D.told → IfErr result (λ r. IsToldOfPage s.now ticket.page ((D.state disk.old).block (page_place s.now ticket.page)).current r.0) }
        ensures live { MatchResult result (λ _. (D.state disk.new).live self.old.node.0 ≡ true) (λ r. UnlessStopped r.0 ((D.state disk.new).live self.old.node.0 ≡ true)) }
        ensures stopped { IfErr result (λ r. OnStop r.0 ((D.state disk.new).live self.old.node.0 ≡ false)) }
        ensures outcomes { IsTrue D.told → Narrows (D.state disk.old).block (D.state disk.new).block }
        ensures writers { IsTrue D.told → NoNewWriter (D.state disk.old).block (D.state disk.new).block }
        ensures foreign { IsTrue D.told → KeepsForeign self.old.node.0 (D.state disk.old).block (D.state disk.new).block }
        ensures settled { IfErr result (λ r. OnStop r.0 (IsTrue D.told → HasSettled self.old.node.0 (D.state disk.new).block)) }
        ensures blocks { IsTrue D.told → MatchResult result (λ _. (D.state disk.new).block ≡ (D.state disk.old).block) (λ r. UnlessStopped r.0 ((D.state disk.new).block ≡ (D.state disk.old).block)) }
        ensures log { self.new.log ≡ self.old.log }
        ensures node { self.new.node ≡ self.old.node }
        ensures arrived { OnOk result (Arrived s.now ticket.page e self.old.pages pool.old self.new pool.new) }
        ensures pages_kept { OnErr result (self.new.pages ≡ self.old.pages) }
        ensures pool_kept { OnErr result (pool.new ≡ pool.old) }
        ensures ticket_back { IfErr result (λ r. r.1 ≡ ticket) }
        ensures counted { free_count pool.new + length self.new.pages ≡ free_count pool.old + length self.old.pages }
        ensures there { IsTrue D.told → (image : PageImage) → HoldsPage s.now ticket.page image ((D.state disk.old).block (page_place s.now ticket.page)).current → IfErr result (λ r. IsStopOf self.old.node.0 r.0) }
        ensures found { OnOk result (IsTrue D.told → (image : PageImage) × HoldsPage s.now ticket.page image ((D.state disk.old).block (page_place s.now ticket.page)).current) }
        ensures image { OnOk result (IsTrue D.told → (image : PageImage) → HoldsPage s.now ticket.page image ((D.state disk.old).block (page_place s.now ticket.page)).current
            → IfSome (page_at ticket.page self.new.pages) (λ p. Shows pool.new p.frame (in_life e image))) }
    {
        let Some(frame) = pool.take() else {
            unreachable!()
        };
        match load(disk, self.node, s, pool, frame, ticket, e) {
            Ok(page) => {
                self.pages.push(Slot::Clean { page, entry: e });
                Ok(())
            }
            Err((fault, frame, ticket)) => {
                pool.give(frame);
                Err((fault, ticket))
            }
        }
    }

    /// Brings a page in that isn't cached, under its ticket. With each fault the ticket comes back.
    fn fetch_new<D: Disk>(
        &mut self,
        disk: &mut D,
        s: &Shape,
        pool: &mut Pool,
        owners: &mut Owners,
        ticket: Ticket,
        e: Option<MapEntry>,
    ) -> Result<(), (DevFault, Ticket)>
        requires store { IsOfStore s.now self.old }
        requires page { ticket.page.0 < page_count s.now }
        requires entry { FitsPage s.now ticket.page e }
        requires own { ticket.node ≡ self.old.node }
        requires new { is_cached ticket.page self.old ≡ false }
        requires owned { All (λ p. owner_of owners.old p.ticket.page.0 ≡ Out p.ticket.node) self.old.pages }
        requires out { AreOut pool.old self.old }
        requires frame { length self.old.pages < 16 → 0 < free_count pool.old }
        requires log_tie { IsTiedToLog self.old }
        requires live { (D.state disk.old).live self.old.node.0 ≡ true }
        requires log_reach { IsInReach (region self.old.log) (D.state disk.old).reach }
        requires reach { (D.state disk.old).reach (page_place s.now ticket.page) ≡ true }
        requires page_reach { AreInReach s.now (leaving s.now ticket.page self.old.pages) (D.state disk.old).reach }
        requires log_free { IsTrue D.told → IsFreeRegion (region self.old.log) self.old.node.0 (D.state disk.old).block }
        requires page_free { IsTrue D.told → AreFree s.now (leaving s.now ticket.page self.old.pages) self.old.node.0 (D.state disk.old).block }
        ensures keeps { Keeps self.old.node.0 (D.state disk.old) (D.state disk.new) }
        ensures cause { IfErr result (λ r. Caused r.0 (D.state disk.old) (D.state disk.new)) }
        ensures fault { IfErr result (λ r. IsPageFault s.now ticket.page self.old.node.0 r.0) }
        ensures told { IsTrue D.told → IfErr result (λ r. IsToldOfPage s.now ticket.page ((D.state disk.old).block (page_place s.now ticket.page)).current r.0) }
        ensures live { MatchResult result (λ _. (D.state disk.new).live self.old.node.0 ≡ true) (λ r. UnlessStopped r.0 ((D.state disk.new).live self.old.node.0 ≡ true)) }
        ensures stopped { IfErr result (λ r. OnStop r.0 ((D.state disk.new).live self.old.node.0 ≡ false)) }
        ensures node { self.new.node ≡ self.old.node }
        ensures same { SameLog self.old.log self.new.log }
        ensures tail { self.new.log.tail ≡ self.old.log.tail }
        ensures stable { MatchResult result (λ _. 1 ≤ count_by has_changes (leaving s.now ticket.page self.old.pages) → self.new.log.stable ≡ self.old.log.tail) (λ r. UnlessStopped r.0 (1 ≤ count_by has_changes (leaving s.now ticket.page self.old.pages) → self.new.log.stable ≡ self.old.log.tail)) }
        ensures rises { MatchResult result (λ _. self.old.log.stable ≤ self.new.log.stable) (λ r. UnlessStopped r.0 (self.old.log.stable ≤ self.new.log.stable)) }
        ensures arrived { OnOk result (Arrived s.now ticket.page e (staying s.now ticket.page self.old.pages) (freed (leaving s.now ticket.page self.old.pages) pool.old) self.new pool.new) }
        ensures owners { OnOk result (owners.new ≡ parked (leaving s.now ticket.page self.old.pages) owners.old) }
        ensures missed { IfErr result (λ r. UnlessStopped r.0 ((self.new.pages ≡ staying s.now ticket.page self.old.pages) × (pool.new ≡ freed (leaving s.now ticket.page self.old.pages) pool.old) × (owners.new ≡ parked (leaving s.now ticket.page self.old.pages) owners.old))) }
        ensures broken { OnErr result (((self.new.pages ≡ self.old.pages) × (pool.new ≡ pool.old) × (owners.new ≡ owners.old))
            ⊎ ((self.new.pages ≡ staying s.now ticket.page self.old.pages) × (pool.new ≡ freed (leaving s.now ticket.page self.old.pages) pool.old) × (owners.new ≡ parked (leaving s.now ticket.page self.old.pages) owners.old))) }
        ensures ticket_back { IfErr result (λ r. r.1 ≡ ticket) }
        ensures counted { free_count pool.new + length self.new.pages ≡ free_count pool.old + length self.old.pages }
        ensures out { AreOut pool.new self.new }
        ensures shown { AreShown s.now pool.old self.old → AreShown s.now pool.new self.new }
        ensures log_tie { IsTiedToLog self.new }
        ensures disk_tie { IsTrue D.told → ((D.state disk.old).block (page_place s.now ticket.page)).writer ≡ None → IsTiedToDisk s.now pool.old self.old (D.state disk.old).block
            → MatchResult result (λ _. IsTiedToDisk s.now pool.new self.new (D.state disk.new).block) (λ r. UnlessStopped r.0 (IsTiedToDisk s.now pool.new self.new (D.state disk.new).block)) }
        ensures record_tie { IsTrue D.told → (xs : List (List ℕ)) → IsTiedToRecords s.now self.old (D.state disk.old).block xs
            → MatchResult result (λ _. IsTiedToRecords s.now self.new (D.state disk.new).block xs) (λ r. UnlessStopped r.0 (IsTiedToRecords s.now self.new (D.state disk.new).block xs)) }
        ensures there { IsTrue D.told → (image : PageImage) → HoldsPage s.now ticket.page image ((D.state disk.old).block (page_place s.now ticket.page)).current → IfErr result (λ r. IsStopOf self.old.node.0 r.0) }
        ensures found { OnOk result (IsTrue D.told → (image : PageImage) × HoldsPage s.now ticket.page image ((D.state disk.old).block (page_place s.now ticket.page)).current) }
        ensures image { OnOk result (IsTrue D.told → (image : PageImage) → HoldsPage s.now ticket.page image ((D.state disk.old).block (page_place s.now ticket.page)).current
            → IfSome (page_at ticket.page self.new.pages) (λ p. Shows pool.new p.frame (in_life e image))) }
        ensures outcomes { IsTrue D.told → NarrowsButPages s.now self.old.log pool.old (leaving s.now ticket.page self.old.pages) (D.state disk.old).block (D.state disk.new).block }
        ensures writers { IsTrue D.told → NoNewWriterBut (tail_place self.old.log) self.old.node.0 (D.state disk.old).block (D.state disk.new).block }
        ensures foreign { IsTrue D.told → KeepsForeignButPages s.now self.old.log (leaving s.now ticket.page self.old.pages) self.old.node.0 (D.state disk.old).block (D.state disk.new).block }
        ensures contents { IsTrue D.told → MatchResult result (λ _. KeepsContentsButPages s.now self.old.log (leaving s.now ticket.page self.old.pages) (D.state disk.old).block (D.state disk.new).block) (λ r. UnlessStopped r.0 (KeepsContentsButPages s.now self.old.log (leaving s.now ticket.page self.old.pages) (D.state disk.old).block (D.state disk.new).block)) }
        ensures holds { IsTrue D.told → MatchResult result (λ _. HoldsPages s.now pool.old (leaving s.now ticket.page self.old.pages) (D.state disk.new).block) (λ r. UnlessStopped r.0 (HoldsPages s.now pool.old (leaving s.now ticket.page self.old.pages) (D.state disk.new).block)) }
        ensures free { IsTrue D.told → MatchResult result (λ _. IsFreeRegion (region self.new.log) self.old.node.0 (D.state disk.new).block) (λ r. UnlessStopped r.0 (IsFreeRegion (region self.new.log) self.old.node.0 (D.state disk.new).block)) }
        ensures still { IfErr result (λ r. OnStop r.0 (IsTrue D.told → IsStill (region self.old.log) (D.state disk.new).block)) }
        ensures ahead { IsTrue D.told → (xs : List (List ℕ)) → IsLogOn self.old.log (D.state disk.old).block xs → IsWrittenAhead self.old.log xs (D.state disk.old).block (D.state disk.new).block }
        ensures log { IsTrue D.told → (xs : List (List ℕ)) → IsLogOn self.old.log (D.state disk.old).block xs → MatchResult result (λ _. IsLogOn self.new.log (D.state disk.new).block xs) (λ r. UnlessStopped r.0 (IsLogOn self.new.log (D.state disk.new).block xs)) }
        ensures cut { IsTrue D.told → (xs : List (List ℕ)) → IsLogOn self.old.log (D.state disk.old).block xs → IfErr result (λ r. OnStop r.0 (IsCutLog (region self.old.log) self.old.log.start self.old.log.stable (D.state disk.new).block xs)) }
        ensures any_outcome { IsTrue D.told → (xs : List (List ℕ)) → IsLogOn self.old.log (D.state disk.old).block xs → (image : ℕ → Option (List ℕ)) → IsOutcome (D.state disk.new).block image
            → HoldsFront (region self.old.log) self.old.log.start self.old.log.stable xs image }
    {
        match self.make_room(disk, s, pool, owners, ticket.page()) {
            Ok(()) => self.bring(disk, s, pool, ticket, e),
            Err(fault) => Err((fault, ticket)),
        }
    }

    /// Makes a page cached, as the page that its block stands for: of a data page under its map entry
    /// `e`. It is the node's then. A page that is cached already stays as it is.
    ///
    /// In a full cache the page that came in first, other than the map page of `x`, makes room: it is
    /// written, if it has changes, and parked. After `Lost` and `Damaged` the page `x` is parked at the
    /// node; after `Stopped` and `Failed` too, and the cache is good for `wreck` alone.
    pub fn fetch<D: Disk>(
        &mut self,
        disk: &mut D,
        s: &Shape,
        pool: &mut Pool,
        owners: &mut Owners,
        x: PageNo,
        e: Option<MapEntry>,
    ) -> Result<(), DevFault>
        requires store { IsOfStore s.now self.old }
        requires page { x.0 < page_count s.now }
        requires entry { IsEntryOf s.now pool.old self.old x e }
        requires table { page_count s.now ≤ length owners.old }
        requires open { IsOpenTo self.old.node (owner_of owners.old x.0) }
        requires owned { AreOwned owners.old self.old }
        requires out { AreOut pool.old self.old }
        requires frame { length self.old.pages < 16 → 0 < free_count pool.old }
        requires log_tie { IsTiedToLog self.old }
        requires live { (D.state disk.old).live self.old.node.0 ≡ true }
        requires log_reach { IsInReach (region self.old.log) (D.state disk.old).reach }
        requires reach { (D.state disk.old).reach (page_place s.now x) ≡ true }
        requires page_reach { AreInReach s.now (leaving s.now x self.old.pages) (D.state disk.old).reach }
        requires log_free { IsTrue D.told → IsFreeRegion (region self.old.log) self.old.node.0 (D.state disk.old).block }
        requires page_free { IsTrue D.told → AreFree s.now (leaving s.now x self.old.pages) self.old.node.0 (D.state disk.old).block }
        ensures keeps { Keeps self.old.node.0 (D.state disk.old) (D.state disk.new) }
        ensures cause { IfErr result (λ fault. Caused fault (D.state disk.old) (D.state disk.new)) }
        ensures fault { IfErr result (IsPageFault s.now x self.old.node.0) }
        ensures told { IsTrue D.told → IfErr result (IsToldOfPage s.now x ((D.state disk.old).block (page_place s.now x)).current) }
        ensures live { StaysLive result ((D.state disk.new).live self.old.node.0 ≡ true) }
        ensures stopped { IfErr result (λ fault. OnStop fault ((D.state disk.new).live self.old.node.0 ≡ false)) }
        ensures hit { IsTrue (is_cached x self.old) → (IsOk result) × (self.new ≡ self.old) × (pool.new ≡ pool.old) × (owners.new ≡ owners.old) × (disk.new ≡ disk.old) }
        ensures cached { OnOk result (IsTrue (is_cached x self.new)) }
        ensures node { self.new.node ≡ self.old.node }
        ensures same { SameLog self.old.log self.new.log }
        ensures tail { self.new.log.tail ≡ self.old.log.tail }
        ensures stable { StaysLive result (is_cached x self.old ≡ false → 1 ≤ count_by has_changes (leaving s.now x self.old.pages) → self.new.log.stable ≡ self.old.log.tail) }
        ensures rises { StaysLive result (self.old.log.stable ≤ self.new.log.stable) }
        ensures arrived { OnOk result (is_cached x self.old ≡ false → Arrived s.now x e (staying s.now x self.old.pages) (freed (leaving s.now x self.old.pages) pool.old) self.new pool.new) }
        ensures owners { OnOk result (is_cached x self.old ≡ false → owners.new ≡ parked (leaving s.now x self.old.pages) (slice_set owners.old x.0 (Out self.old.node))) }
        ensures missed { IfErr result (λ fault. UnlessStopped fault (Missed x (leaving s.now x self.old.pages) (staying s.now x self.old.pages) pool.old owners.old self.new pool.new owners.new)) }
        ensures broken { OnErr result (Missed x [] self.old.pages pool.old owners.old self.new pool.new owners.new ⊎ Missed x (leaving s.now x self.old.pages) (staying s.now x self.old.pages) pool.old owners.old self.new pool.new owners.new) }
        ensures parked { OnErr result (owner_of owners.new x.0 ≡ Parked self.old.node) }
        ensures counted { free_count pool.new + length self.new.pages ≡ free_count pool.old + length self.old.pages }
        ensures store { IsOfStore s.now self.new }
        ensures owned { AreOwned owners.new self.new }
        ensures out { AreOut pool.new self.new }
        ensures shown { AreShown s.now pool.old self.old → AreShown s.now pool.new self.new }
        ensures log_tie { IsTiedToLog self.new }
        ensures disk_tie { IsTrue D.told → ((D.state disk.old).block (page_place s.now x)).writer ≡ None → IsTiedToDisk s.now pool.old self.old (D.state disk.old).block → StaysLive result (IsTiedToDisk s.now pool.new self.new (D.state disk.new).block) }
        ensures record_tie { IsTrue D.told → (xs : List (List ℕ)) → IsTiedToRecords s.now self.old (D.state disk.old).block xs → StaysLive result (IsTiedToRecords s.now self.new (D.state disk.new).block xs) }
        ensures there { IsTrue D.told → (image : PageImage) → HoldsPage s.now x image ((D.state disk.old).block (page_place s.now x)).current → IfErr result (IsStopOf self.old.node.0) }
        ensures found { OnOk result (IsTrue D.told → is_cached x self.old ≡ false → (image : PageImage) × HoldsPage s.now x image ((D.state disk.old).block (page_place s.now x)).current) }
        ensures image { OnOk result (IsTrue D.told → is_cached x self.old ≡ false → (image : PageImage) → HoldsPage s.now x image ((D.state disk.old).block (page_place s.now x)).current
            → IfSome (page_at x self.new.pages) (λ p. Shows pool.new p.frame (in_life e image))) }
        ensures outcomes { IsTrue D.told → NarrowsButPages s.now self.old.log pool.old (leaving s.now x self.old.pages) (D.state disk.old).block (D.state disk.new).block }
        ensures writers { IsTrue D.told → NoNewWriterBut (tail_place self.old.log) self.old.node.0 (D.state disk.old).block (D.state disk.new).block }
        ensures foreign { IsTrue D.told → KeepsForeignButPages s.now self.old.log (leaving s.now x self.old.pages) self.old.node.0 (D.state disk.old).block (D.state disk.new).block }
        ensures contents { IsTrue D.told → StaysLive result (KeepsContentsButPages s.now self.old.log (leaving s.now x self.old.pages) (D.state disk.old).block (D.state disk.new).block) }
        ensures holds { IsTrue D.told → StaysLive result (is_cached x self.old ≡ false → HoldsPages s.now pool.old (leaving s.now x self.old.pages) (D.state disk.new).block) }
        ensures free { IsTrue D.told → StaysLive result (IsFreeRegion (region self.new.log) self.old.node.0 (D.state disk.new).block) }
        ensures still { IfErr result (λ fault. OnStop fault (IsTrue D.told → IsStill (region self.old.log) (D.state disk.new).block)) }
        ensures ahead { IsTrue D.told → (xs : List (List ℕ)) → IsLogOn self.old.log (D.state disk.old).block xs → IsWrittenAhead self.old.log xs (D.state disk.old).block (D.state disk.new).block }
        ensures log { IsTrue D.told → (xs : List (List ℕ)) → IsLogOn self.old.log (D.state disk.old).block xs → StaysLive result (IsLogOn self.new.log (D.state disk.new).block xs) }
        ensures cut { IsTrue D.told → (xs : List (List ℕ)) → IsLogOn self.old.log (D.state disk.old).block xs → IfErr result (λ fault. OnStop fault (IsCutLog (region self.old.log) self.old.log.start self.old.log.stable (D.state disk.new).block xs)) }
        ensures any_outcome { IsTrue D.told → (xs : List (List ℕ)) → IsLogOn self.old.log (D.state disk.old).block xs → (image : ℕ → Option (List ℕ)) → IsOutcome (D.state disk.new).block image
            → HoldsFront (region self.old.log) self.old.log.start self.old.log.stable xs image }
    {
        if self.has(x) {
            return Ok(());
        }
        let ticket = take_ticket(owners, x, self.node);
        match self.fetch_new(disk, s, pool, owners, ticket, e) {
            Ok(()) => Ok(()),
            Err((fault, ticket)) => {
                owners.park(ticket);
                Err(fault)
            }
        }
    }

    /// Reads the block of a page, also of one that is cached, and tests that it is an image of the page.
    /// Neither the cache nor a frame changes.
    ///
    /// `Damaged` comes where the block is no image of the page, and `Lost` where it is lost.
    pub fn reread<D: Disk>(&self, disk: &mut D, s: &Shape, x: PageNo) -> Result<(), DevFault>
        requires store { IsOfStore s.now self.now }
        requires page { x.0 < page_count s.now }
        requires live { (D.state disk.old).live self.now.node.0 ≡ true }
        requires reach { (D.state disk.old).reach (page_place s.now x) ≡ true }
        ensures keeps { Keeps self.now.node.0 (D.state disk.old) (D.state disk.new) }
        ensures cause { IfErr result (λ fault. Caused fault (D.state disk.old) (D.state disk.new)) }
        ensures fault { IfErr result (IsPageFault s.now x self.now.node.0) }
        ensures told { IsTrue D.told → IfErr result (IsToldOfPage s.now x ((D.state disk.old).block (page_place s.now x)).current) }
        ensures live { StaysLive result ((D.state disk.new).live self.now.node.0 ≡ true) }
        ensures stopped { IfErr result (λ fault. OnStop fault ((D.state disk.new).live self.now.node.0 ≡ false)) }
        ensures outcomes { IsTrue D.told → Narrows (D.state disk.old).block (D.state disk.new).block }
        ensures writers { IsTrue D.told → NoNewWriter (D.state disk.old).block (D.state disk.new).block }
        ensures foreign { IsTrue D.told → KeepsForeign self.now.node.0 (D.state disk.old).block (D.state disk.new).block }
        ensures settled { IfErr result (λ fault. OnStop fault (IsTrue D.told → HasSettled self.now.node.0 (D.state disk.new).block)) }
        ensures blocks { IsTrue D.told → StaysLive result ((D.state disk.new).block ≡ (D.state disk.old).block) }
        ensures still { IsTrue D.told → IsFreeRegion (region self.now.log) self.now.node.0 (D.state disk.old).block → IfErr result (λ fault. OnStop fault (IsStill (region self.now.log) (D.state disk.new).block)) }
        ensures cut { IsTrue D.told → IsFreeRegion (region self.now.log) self.now.node.0 (D.state disk.old).block → (xs : List (List ℕ)) → IsLogOn self.now.log (D.state disk.old).block xs → IfErr result (λ fault. OnStop fault (IsCutLog (region self.now.log) self.now.log.start self.now.log.stable (D.state disk.new).block xs)) }
        ensures there { IsTrue D.told → (image : PageImage) → HoldsPage s.now x image ((D.state disk.old).block (page_place s.now x)).current → IfErr result (IsStopOf self.now.node.0) }
        ensures found { OnOk result (IsTrue D.told → (image : PageImage) × HoldsPage s.now x image ((D.state disk.old).block (page_place s.now x)).current) }
    {
        test_block(disk, self.node, s, x)
    }
}
