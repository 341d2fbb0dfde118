//! What holds of all other frames where one is taken, written or given back.

ghost use Rattle.std.specs.Prelude.{◌≡◌, ◌≢◌, ℕ, List, Option, Some, None, slice_set};
ghost use Rattle.frame_pool.specs.Frames.{IsOut, frame_at};

/// What follows for the other frames, over any pool: a frame that is taken is none of those that are
/// out, and these hold what they held; where one frame is written or given back, each other one holds
/// what it held.
pub fn law_of_other_frames()
    ensures taken { (old new : List (Option (List ℕ))) (f k : ℕ) → old ≡ slice_set new f None → IsOut old k → (k ≢ f) × (frame_at new k ≡ frame_at old k) }
    ensures set { (pool : List (Option (List ℕ))) (f k : ℕ) (content : Option (List ℕ)) → k ≢ f → frame_at (slice_set pool f content) k ≡ frame_at pool k }
    ensures written { (pool : List (Option (List ℕ))) (f : ℕ) (bytes : List ℕ) → IsOut pool f → frame_at (slice_set pool f (Some bytes)) f ≡ Some bytes }
{}
