//! What a stop may leave of a device, before and after its calls, stated as laws.

ghost use Rattle.std.specs.Prelude.{◌≡◌, ◌≢◌, ◌⊎◌, ℕ, List, Option, Some, None};
ghost use Rattle.sd_base.specs.Disk.{BlockState, MayHold, IsOutcome, IsCovered, IsFreeFor, IsLawful};
ghost use Rattle.sd_base.specs.Calls.{Narrows, NarrowsBut, NoNewWriter, NoNewWriterBut, KeepsForeign, KeepsForeignBut};

/// What every stop leaves of a device: of a covered block its content, and of a device without an
/// uncovered write exactly one outcome, the contents.
pub fn law_of_covered_devices()
    ensures covered { (b : ℕ → BlockState) (image : ℕ → Option (List ℕ)) (k : ℕ) → IsOutcome b image → IsCovered b k → image k ≡ (b k).current }
    ensures contents { (b : ℕ → BlockState) → ((k : ℕ) → IsLawful b k) → IsOutcome b (λ k. (b k).current) }
    ensures alone { (b : ℕ → BlockState) (image : ℕ → Option (List ℕ)) → ((k : ℕ) → IsLawful b k) → ((k : ℕ) → (b k).writer ≡ None) → IsOutcome b image → (k : ℕ) → image k ≡ (b k).current }
{}

/// What held for every outcome before a call holds for every outcome after it; a write adds its
/// content at its block, and nothing else.
pub fn law_of_outcomes()
    ensures call { (old new : ℕ → BlockState) (image : ℕ → Option (List ℕ)) → Narrows old new → IsOutcome new image → IsOutcome old image }
    ensures write { (at : ℕ) (content : List ℕ) (old new : ℕ → BlockState) (image : ℕ → Option (List ℕ)) → NarrowsBut at content old new → IsOutcome new image → (k : ℕ) → MayHold old k (image k) ⊎ ((k ≡ at) × (image k ≡ Some content)) }
{}

/// The outcomes after two calls, of which one may be a write.
pub fn law_of_two_calls()
    ensures calls { (a b c : ℕ → BlockState) → Narrows a b → Narrows b c → Narrows a c }
    ensures write_first { (at : ℕ) (content : List ℕ) (a b c : ℕ → BlockState) → NarrowsBut at content a b → Narrows b c → NarrowsBut at content a c }
    ensures write_last { (at : ℕ) (content : List ℕ) (a b c : ℕ → BlockState) → Narrows a b → NarrowsBut at content b c → NarrowsBut at content a c }
{}

/// The calls of one port leave alone what other ports have not covered, one call or several.
pub fn law_of_foreign_blocks()
    ensures uncovered { (n m k : ℕ) (old new : ℕ → BlockState) → n ≢ m → KeepsForeign n old new → (old k).writer ≡ Some m → new k ≡ old k }
    ensures calls { (n : ℕ) (a b c : ℕ → BlockState) → KeepsForeign n a b → KeepsForeign n b c → KeepsForeign n a c }
    ensures write_first { (at n : ℕ) (a b c : ℕ → BlockState) → KeepsForeignBut at n a b → KeepsForeign n b c → KeepsForeignBut at n a c }
    ensures write_last { (at n : ℕ) (a b c : ℕ → BlockState) → KeepsForeign n a b → KeepsForeignBut at n b c → KeepsForeignBut at n a c }
{}

/// A block that a port may write stays one through the port's calls.
pub fn law_of_free_blocks()
    ensures call { (n k : ℕ) (old new : ℕ → BlockState) → NoNewWriter old new → IsFreeFor n (old k) → IsFreeFor n (new k) }
    ensures write { (at n k : ℕ) (old new : ℕ → BlockState) → NoNewWriterBut at n old new → IsFreeFor n (old k) → IsFreeFor n (new k) }
{}
