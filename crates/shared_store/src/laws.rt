//! What holds of a run in which no device stops or fails.

ghost use Rattle.std.specs.Prelude.{◌≡◌, ⊤, ℕ, false, List, All};
ghost use Rattle.script_text.specs.declared.reply.Reply.{Reply};
ghost use Rattle.store_nodes.specs.Ports.{says_stop};
ghost use Rattle.shared_store.specs.Causes.{AreCounted, StandStill};
ghost use Rattle.shared_store.specs.Devices.{Devices};
ghost use Rattle.shared_store.specs.StoreState.{IsKnown, Run, StoreState};
ghost use Rattle.shared_store.specs.Transcript.{all_replies};

/// Where no count of the devices rises, no reply says that a node stopped; and where none does, what the
/// store is stays known through the whole run, so that each of its steps is one of the machine.
pub fn law_of_runs_without_stops()
    ensures none { (replies : List Reply) (old new : Devices) → AreCounted replies old new → StandStill old new → All (λ r. says_stop r ≡ false) replies }
    ensures known { (disk vault : ℕ) (state : StoreState) (lines : List (List ℕ)) (replies : List (List Reply)) → IsKnown state → All (λ r. says_stop r ≡ false) (all_replies replies)
        → Run disk vault state lines replies (λ end. ⊤) → Run disk vault state lines replies IsKnown }
{}
