//! What the calls of a cache leave of the logs of other nodes, and a stop of its own pages, stated as laws.

ghost use Rattle.std.specs.Prelude.{◌≡◌, ◌≢◌, ◌≤◌, ℕ, List, Option, Some, None, [], All};
ghost use Rattle.std.specs.List.{cons_option};
ghost use Rattle.sd_base.specs.Disk.{BlockState, IsOutcome};
ghost use Rattle.sd_base.specs.declared.names.PageNo.{PageNo};
ghost use Rattle.sd_base.specs.declared.shape.Shape.{Shape};
ghost use Rattle.private_log.specs.Content.{region_of};
ghost use Rattle.private_log.specs.Spread.{IsFreeRegion, IsStill, KeepsRegion, NarrowsRegion};
ghost use Rattle.node_cache.specs.Cache.{CachedPage, CacheState, IsCache, IsOfStore, IsTiedToDisk, IsTiedToLog, StandsFor, first_change, page_at};
ghost use Rattle.node_cache.specs.Records.{AreAmong, IsExplained, IsTiedToRecords};
ghost use Rattle.node_cache.specs.Room.{leaving};
ghost use Rattle.node_cache.specs.Writes.{IsWrittenAhead, KeepsForeignButPages, NarrowsButPages};

/// The calls of a cache, also those that write pages, leave the region of each other node's log as it
/// was, whatever they answer.
pub fn law_of_page_writes()
    ensures outcomes { (s : Shape) (c : CacheState) (pages : List CachedPage) (m : ℕ) (old new : ℕ → BlockState) → IsOfStore s c → IsTiedToLog c → 1 ≤ m → m ≤ s.nodes → m ≢ c.node.0
        → IsFreeRegion (region_of s m) m old → KeepsForeignButPages s c.log pages c.node.0 old new → NarrowsRegion (region_of s m) old new }
    ensures contents { (s : Shape) (c : CacheState) (pages : List CachedPage) (m : ℕ) (old new : ℕ → BlockState) → IsOfStore s c → IsTiedToLog c → 1 ≤ m → m ≤ s.nodes → m ≢ c.node.0
        → IsFreeRegion (region_of s m) m old → KeepsForeignButPages s c.log pages c.node.0 old new → KeepsRegion (region_of s m) old new }
    ensures free { (s : Shape) (c : CacheState) (pages : List CachedPage) (m : ℕ) (old new : ℕ → BlockState) → IsOfStore s c → IsTiedToLog c → 1 ≤ m → m ≤ s.nodes → m ≢ c.node.0
        → IsFreeRegion (region_of s m) m old → KeepsForeignButPages s c.log pages c.node.0 old new → IsFreeRegion (region_of s m) m new }
    ensures still { (s : Shape) (c : CacheState) (pages : List CachedPage) (m : ℕ) (old new : ℕ → BlockState) → IsOfStore s c → IsTiedToLog c → 1 ≤ m → m ≤ s.nodes → m ≢ c.node.0
        → IsStill (region_of s m) old → KeepsForeignButPages s c.log pages c.node.0 old new → IsStill (region_of s m) new }
{}

/// What a stop leaves of the blocks of the pages that were cached before a call, whatever the call
/// answers: a page without changes is what its block stands for still. The block of a page with changes
/// is as it was before the first of them, or it holds what the page's frame does, and then all records
/// of the log are there. The list of pages that `flush_page`, `surrender`, `flush_all` and `fetch` may
/// write is one of cached pages.
pub fn law_of_stopped_caches()
    ensures clean { (s : Shape) (pool : List (Option (List ℕ))) (c : CacheState) (pages : List CachedPage) (old new : ℕ → BlockState) → IsOfStore s c → IsTiedToLog c → IsCache c.node c.pages → AreAmong pages c.pages
        → NarrowsButPages s c.log pool pages old new → IsTiedToDisk s pool c old → All (λ p. p.changes ≡ None → StandsFor s pool p new) c.pages }
    ensures changed { (s : Shape) (pool : List (Option (List ℕ))) (c : CacheState) (pages : List CachedPage) (xs : List (List ℕ)) (old new : ℕ → BlockState) → IsOfStore s c → IsTiedToLog c → IsCache c.node c.pages → AreAmong pages c.pages
        → NarrowsButPages s c.log pool pages old new → IsWrittenAhead c.log xs old new → IsTiedToRecords s c old xs → (image : ℕ → Option (List ℕ)) → IsOutcome new image
        → All (λ p. (number : ℕ) → first_change p ≡ Some number → IsExplained s pool c xs image p number) c.pages }
    ensures all { (pages : List CachedPage) → AreAmong pages pages }
    ensures one { (x : PageNo) (pages : List CachedPage) → AreAmong (cons_option (page_at x pages) []) pages }
    ensures leaving { (s : Shape) (x : PageNo) (pages : List CachedPage) → AreAmong (leaving s x pages) pages }
{}
