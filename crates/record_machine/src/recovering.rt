//! The laws about the steps that recover a node.

ghost use Rattle.std.specs.Prelude.{ℕ, ◌≡◌, ◌≢◌};
ghost use Rattle.sd_base.specs.declared.names.Key.{Key};
ghost use Rattle.sd_base.specs.declared.names.TxnId.{TxnId};
ghost use Rattle.record_locks.specs.Held.{mode_of};
ghost use Rattle.record_machine.specs.Machine.{Machine};
ghost use Rattle.record_machine.specs.RecoveryParts.{FreedSurvives, GivenUpSurvives, RecoveredSurvives, RedoBreaksOff, RedoneSurvives};
ghost use Rattle.record_machine.specs.RecoverySteps.{redone, undone};

/// What a step of recovery leaves as it was: the committed records, what the transactions of the other nodes
/// have done, and their locks.
pub fn law_of_recovery_steps()
    ensures redone { (m : Machine) (n : ℕ) → ((redone n m).records ≡ m.records) × ((redone n m).pending ≡ m.pending) × ((redone n m).locks ≡ m.locks) }
    ensures records { (m : Machine) (u w count key : ℕ) → (undone u w count m).records key ≡ m.records key }
    ensures others { (m : Machine) (u w count j : ℕ) → j ≢ u → (undone u w count m).pending j ≡ m.pending j }
    ensures locks { (m : Machine) (u w count : ℕ) (key : Key) (t : TxnId) → t.node.0 ≢ u → mode_of (undone u w count m).locks key t ≡ mode_of m.locks key t }
{}

/// A store survives the steps that recover a node: its log is redone, whole or in part, its writes are taken
/// back and its transactions ended as those of a node that is up, and at last its locks go.
pub fn law_of_recovered_nodes()
    ensures broken_off { RedoBreaksOff }
    ensures redone { RedoneSurvives }
    // A node gives up what it holds.
    ensures given_up { GivenUpSurvives }
    ensures freed { FreedSurvives }
    // With the last of them the tables aren't lost any more.
    ensures recovered { RecoveredSurvives }
{}
