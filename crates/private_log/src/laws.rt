//! What stops, other ports and other calls leave of a log, stated as laws.

ghost use Rattle.std.specs.Prelude.{◌≡◌, ◌≢◌, ◌≤◌, ◌<◌, ℕ, List, Option};
ghost use Rattle.sd_base.specs.Disk.{BlockState, IsOutcome, IsLawful};
ghost use Rattle.sd_base.specs.Calls.{KeepsForeignBut};
ghost use Rattle.sd_base.specs.Shape.{IsShape, first_page};
ghost use Rattle.sd_base.specs.declared.shape.Shape.{Shape};
ghost use Rattle.private_log.specs.Content.{Region, region_of, LogContent, HoldsFront};
ghost use Rattle.private_log.specs.Spread.{IsCutLog, IsFreeRegion, IsStill, NarrowsRegion, KeepsRegion};
ghost use Rattle.private_log.specs.Reading.{contents, IsInRegion};
ghost use Rattle.private_log.specs.Log.{LogState, region, IsLogOn};

/// An image holds one log: its start and its records are what they are read as.
pub fn law_of_one_log()
    ensures start { (g : Region) (image : ℕ → Option (List ℕ)) (start other : ℕ) (xs ys : List (List ℕ)) → LogContent g image start xs → LogContent g image other ys → start ≡ other }
    ensures records { (g : Region) (image : ℕ → Option (List ℕ)) (start other : ℕ) (xs ys : List (List ℕ)) → LogContent g image start xs → LogContent g image other ys → xs ≡ ys }
{}

/// Whatever a stop leaves of a device, a log on it is a front of its records with all that are stable;
/// so is what a stop has left.
pub fn law_of_log_outcomes()
    ensures on { (l : LogState) (b : ℕ → BlockState) (xs : List (List ℕ)) (image : ℕ → Option (List ℕ)) → IsLogOn l b xs → IsOutcome b image → HoldsFront (region l) l.start l.stable xs image }
    ensures cut { (g : Region) (start stable : ℕ) (b : ℕ → BlockState) (xs : List (List ℕ)) (image : ℕ → Option (List ℕ)) → IsCutLog g start stable b xs → IsOutcome b image → HoldsFront g start stable xs image }
    ensures contents { (g : Region) (start stable : ℕ) (b : ℕ → BlockState) (xs : List (List ℕ)) → ((k : ℕ) → IsLawful b k) → IsCutLog g start stable b xs → HoldsFront g start stable xs (contents b) }
{}

/// The calls of one port leave the region of another port's log as it was, whatever they answer.
pub fn law_of_foreign_logs()
    ensures outcomes { (g : Region) (n m at : ℕ) (b c : ℕ → BlockState) → n ≢ m → IsFreeRegion g m b → ¬ (IsInRegion g at) → KeepsForeignBut at n b c → NarrowsRegion g b c }
    ensures contents { (g : Region) (n m at : ℕ) (b c : ℕ → BlockState) → n ≢ m → IsFreeRegion g m b → ¬ (IsInRegion g at) → KeepsForeignBut at n b c → KeepsRegion g b c }
    ensures free { (g : Region) (n m at : ℕ) (b c : ℕ → BlockState) → n ≢ m → IsFreeRegion g m b → ¬ (IsInRegion g at) → KeepsForeignBut at n b c → IsFreeRegion g m c }
{}

/// A log through calls of the device that aren't its own: reads, writes of other blocks and barriers
/// leave it as it was, and a call after which no block of its region is uncovered, as a stop of its
/// port, leaves a front of its records. A log of which all records are stable is there whole, whatever
/// a stop leaves, and stays through every call that gives no block of its region a new outcome.
pub fn law_of_other_calls()
    ensures on { (l : LogState) (b c : ℕ → BlockState) (xs : List (List ℕ)) → NarrowsRegion (region l) b c → KeepsRegion (region l) b c → IsLogOn l b xs → IsLogOn l c xs }
    ensures stopped { (l : LogState) (b c : ℕ → BlockState) (xs : List (List ℕ)) → ((k : ℕ) → IsLawful c k) → NarrowsRegion (region l) b c → IsStill (region l) c → IsLogOn l b xs → IsCutLog (region l) l.start l.stable c xs }
    ensures cut { (g : Region) (start stable : ℕ) (b c : ℕ → BlockState) (xs : List (List ℕ)) → NarrowsRegion g b c → KeepsRegion g b c → IsCutLog g start stable b xs → IsCutLog g start stable c xs }
    ensures whole { (l : LogState) (b c : ℕ → BlockState) (xs : List (List ℕ)) → ((k : ℕ) → IsLawful c k) → NarrowsRegion (region l) b c → l.stable ≡ l.tail → IsLogOn l b xs → IsLogOn l c xs }
    ensures whole_cut { (l : LogState) (b : ℕ → BlockState) (xs : List (List ℕ)) → l.stable ≡ l.tail → IsLogOn l b xs → IsCutLog (region l) l.start l.tail b xs }
{}

/// The regions of the logs lie apart from one another, and before the pages.
pub fn law_of_regions()
    ensures pages { (s : Shape) (n at : ℕ) → IsShape s → 1 ≤ n → n ≤ s.nodes → IsInRegion (region_of s n) at → at < first_page s }
    ensures apart { (s : Shape) (n m at : ℕ) → IsShape s → 1 ≤ n → n ≤ s.nodes → 1 ≤ m → m ≤ s.nodes → n ≢ m → IsInRegion (region_of s n) at → ¬ (IsInRegion (region_of s m) at) }
{}
