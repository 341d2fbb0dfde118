//! The laws about stops on the history: what the logs and pages mean wherever a node stops.

ghost use Rattle.std.specs.Prelude.{ℕ, Bool, List, Option, ◌≡◌};
ghost use Rattle.record_locks.specs.Held.{Held};
ghost use Rattle.recovery_theory.specs.History.{History};
ghost use Rattle.record_machine.specs.CutParts.{AbortedSurvives, BackSurvives, BegunSurvives, ChangedSurvives, CommittedSurvives, DroppedSurvives, EndedSurvives, ForcedSurvives, FormattedSurvives, LockedSurvives, StartedSurvives, StoppedInUndo, StoppedSurvives, StoppedWithTables, SureSurvives, TakenSurvives, UnlockedSurvives, UsedSurvives, WrittenSurvives};
ghost use Rattle.record_machine.specs.Cuts.{Survives, SurvivesAs};
ghost use Rattle.record_machine.specs.Machine.{LooseChange, Machine};
ghost use Rattle.record_machine.specs.Meaning.{Plain};
ghost use Rattle.record_machine.specs.Stops.{stop, stop_in_undo};

/// A node may stop at any time, and its log be cut anywhere behind what is stable. The machine takes as many
/// loose changes back then, and what it is after the stop is what the history means. So it is for the next
/// stop, too.
pub fn law_of_survived_stops()
    ensures stopped { StoppedSurvives }
    // Where no node is up any more the tables are lost, and the history keeps the locks to write.
    ensures tables { StoppedWithTables }
    // It may stop as it takes back the open transactions of another node.
    ensures in_undo { StoppedInUndo }
{}

/// A formatted store survives each stop, and goes on to do so with each part of a command and each step
/// below one.
pub fn law_of_surviving_stores()
    ensures formatted { FormattedSurvives }
    // A node comes up.
    ensures started { StartedSurvives }
    // A page passes to another node, and nobody holds a page any more.
    ensures taken { TakenSurvives }
    ensures dropped { DroppedSurvives }
    // More of a log is stable, and all of it.
    ensures forced { ForcedSurvives }
    ensures sure { SureSurvives }
    // A page is written.
    ensures written { WrittenSurvives }
    // A lock is taken, and the locks of a transaction are released.
    ensures locked { LockedSurvives }
    ensures unlocked { UnlockedSurvives }
    // A transaction begins.
    ensures begun { BegunSurvives }
    // A group gets a page.
    ensures used { UsedSurvives }
    // A record is written, and the newest write is taken back.
    ensures changed { ChangedSurvives }
    ensures back { BackSurvives }
    // A transaction ends: by a commit, or by an abort that has taken all back.
    ensures committed { CommittedSurvives }
    ensures aborted { AbortedSurvives }
    // So it does where its locks are released then.
    ensures ended { EndedSurvives }
{}

/// Who holds a page and what is loose are functions. Where two machines differ in nothing else, and agree on
/// each page and each node, what one of them survives the other does, also once a node has stopped in both.
pub fn law_of_same_holds()
    ensures survives { (dirty : ℕ → Bool) (h : History) (p : Plain) (m : Machine) (hold : ℕ → Option ℕ) (loose : ℕ → List LooseChange) → ((y : ℕ) → hold y ≡ m.hold y) → ((j : ℕ) → loose j ≡ m.loose j)
        → Survives dirty h p m → Survives dirty h p (record m { hold = hold; loose = loose }) }
    ensures tables { (held : Held) (dirty : ℕ → Bool) (h : History) (p : Plain) (m : Machine) (hold : ℕ → Option ℕ) (loose : ℕ → List LooseChange) → ((y : ℕ) → hold y ≡ m.hold y) → ((j : ℕ) → loose j ≡ m.loose j)
        → SurvivesAs held dirty h p m → SurvivesAs held dirty h p (record m { hold = hold; loose = loose }) }
    ensures stopped { (held : Held) (dirty : ℕ → Bool) (h : History) (p : Plain) (m : Machine) (hold : ℕ → Option ℕ) (loose : ℕ → List LooseChange) (n kept : ℕ) → ((y : ℕ) → hold y ≡ m.hold y) → ((j : ℕ) → loose j ≡ m.loose j)
        → SurvivesAs held dirty h p (stop n kept m) → SurvivesAs held dirty h p (stop n kept (record m { hold = hold; loose = loose })) }
    ensures in_undo { (held : Held) (dirty : ℕ → Bool) (h : History) (p : Plain) (m : Machine) (hold : ℕ → Option ℕ) (loose : ℕ → List LooseChange) (u n kept : ℕ) → ((y : ℕ) → hold y ≡ m.hold y) → ((j : ℕ) → loose j ≡ m.loose j)
        → SurvivesAs held dirty h p (stop_in_undo u n kept m) → SurvivesAs held dirty h p (stop_in_undo u n kept (record m { hold = hold; loose = loose })) }
{}
