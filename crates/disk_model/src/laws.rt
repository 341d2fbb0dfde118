//! What follows for an armed device over one in memory.
ghost use Rattle.disk_model.specs.Unarmed.{WritesAreDone, BarriersAreDone, ReadsAreDone, CountsAreItsOwn};

/// Where nothing is due, no call of an armed device over one in memory is stopped or fails, and none
/// raises a count: such a call is that of the device in memory, which does neither.
#[tactic(auto, unfolding(crate::specs::MemState::mem_state))]
pub fn law_of_unarmed_memory()
    ensures writes { WritesAreDone }
    ensures barriers { BarriersAreDone }
    ensures reads { ReadsAreDone }
    ensures counts { CountsAreItsOwn }
{}
