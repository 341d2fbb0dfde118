//! What a formatted store holds, said of what a reader finds: of its logs, its pages and its vault.
ghost use Rattle.std.specs.Prelude.{◌≡◌, ◌+◌, ◌≤◌, ◌<◌, ℕ, true, [], List, Option, Some};
ghost use Rattle.sd_base.specs.Disk.{BlockState, IsLawful, IsOutcome};
ghost use Rattle.sd_base.specs.Text.{zero_block};
ghost use Rattle.sd_base.specs.Anchors.{anchor_text};
ghost use Rattle.sd_base.specs.Supers.{super_text};
ghost use Rattle.sd_base.specs.Shape.{IsShape, first_page, page_count, anchor_place, first_image};
ghost use Rattle.sd_base.specs.declared.shape.Shape.{Shape};
ghost use Rattle.page_image.specs.Image.{IsTextOf, birth_image};
ghost use Rattle.space_map.specs.Image.{IsMapText, birth_map};
ghost use Rattle.private_log.specs.Content.{region_of, LogContent, HasNoFuture};
ghost use Rattle.private_log.specs.Spread.{IsSpread, IsStill};
ghost use Rattle.private_log.specs.Reading.{contents};
ghost use Rattle.store_format.specs.Device.{IsAllCovered};
ghost use Rattle.store_format.specs.Formatted.{IsBornDisk, IsFormattedVault};

/// What a disk holds when it was formatted: the log of each node is empty, starts with log block 0 and
/// has nothing that is still to come, and each page is as it is born.
pub fn law_of_formatted_disks()
    ensures log { (s : Shape) (n : ℕ) (b : ℕ → BlockState) → IsShape s → 1 ≤ n → n ≤ s.nodes → ((k : ℕ) → IsLawful b k) → IsBornDisk s b → LogContent (region_of s n) (contents b) 0 [] }
    ensures no_future { (s : Shape) (n : ℕ) (b : ℕ → BlockState) → 1 ≤ n → n ≤ s.nodes → ((k : ℕ) → IsLawful b k) → IsBornDisk s b → HasNoFuture (region_of s n) (contents b) 0 [] }
    ensures still { (s : Shape) (n : ℕ) (b : ℕ → BlockState) → IsAllCovered b → IsStill (region_of s n) b }
    // So it is whatever a stop leaves.
    ensures spread { (s : Shape) (n : ℕ) (b : ℕ → BlockState) → 1 ≤ n → n ≤ s.nodes → ((k : ℕ) → IsLawful b k) → IsBornDisk s b → IsSpread (region_of s n) 0 0 b [] }
    ensures map { (s : Shape) (x : ℕ) (b : ℕ → BlockState) → IsShape s → x < s.maps → ((k : ℕ) → IsLawful b k) → IsBornDisk s b → (text : List ℕ) × (contents b (first_page s + x) ≡ Some text) × IsMapText (birth_map (record { 0 = x }) s.birth) text }
    ensures page { (s : Shape) (x : ℕ) (b : ℕ → BlockState) → IsShape s → s.maps ≤ x → x < page_count s → ((k : ℕ) → IsLawful b k) → IsBornDisk s b → (text : List ℕ) × (contents b (first_page s + x) ≡ Some text) × IsTextOf (birth_image (record { 0 = x }) s.birth) text }
{}

/// The same of whatever a stop leaves of such a disk.
pub fn law_of_formatted_outcomes()
    ensures log { (s : Shape) (n : ℕ) (b : ℕ → BlockState) (image : ℕ → Option (List ℕ)) → IsShape s → 1 ≤ n → n ≤ s.nodes → IsBornDisk s b → IsOutcome b image → LogContent (region_of s n) image 0 [] }
    ensures no_future { (s : Shape) (n : ℕ) (b : ℕ → BlockState) (image : ℕ → Option (List ℕ)) → 1 ≤ n → n ≤ s.nodes → IsBornDisk s b → IsOutcome b image → HasNoFuture (region_of s n) image 0 [] }
    ensures map { (s : Shape) (x : ℕ) (b : ℕ → BlockState) (image : ℕ → Option (List ℕ)) → IsShape s → x < s.maps → IsBornDisk s b → IsOutcome b image → (text : List ℕ) × (image (first_page s + x) ≡ Some text) × IsMapText (birth_map (record { 0 = x }) s.birth) text }
    ensures page { (s : Shape) (x : ℕ) (b : ℕ → BlockState) (image : ℕ → Option (List ℕ)) → IsShape s → s.maps ≤ x → x < page_count s → IsBornDisk s b → IsOutcome b image → (text : List ℕ) × (image (first_page s + x) ≡ Some text) × IsTextOf (birth_image (record { 0 = x }) s.birth) text }
{}

/// What a vault holds when it was formatted: of no node a log block is kept, and no page has an image.
pub fn law_of_formatted_vaults()
    ensures first { (s : Shape) (b : ℕ → BlockState) → ((k : ℕ) → IsLawful b k) → IsFormattedVault s b → contents b 0 ≡ Some (super_text true s) }
    ensures anchor { (s : Shape) (n : ℕ) (b : ℕ → BlockState) → 1 ≤ n → n ≤ s.nodes → ((k : ℕ) → IsLawful b k) → IsFormattedVault s b → contents b (anchor_place true s n) ≡ Some (anchor_text true n 0) }
    ensures image { (s : Shape) (x : ℕ) (b : ℕ → BlockState) → x < page_count s → ((k : ℕ) → IsLawful b k) → IsFormattedVault s b → contents b (first_image s + x) ≡ Some zero_block }
{}
