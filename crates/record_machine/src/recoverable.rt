//! The laws about what stays recoverable: what the history of a store means to the record machine.

ghost use Rattle.record_machine.specs.RecoverableParts.{BackRecoverable, BegunRecoverable, ChangedRecoverable, ForcedRecoverable, FormattedRecoverable, LockedRecoverable, OutcomesStand, OwedByDeeds, PendingByWrites, SealedRecoverable, StartedRecoverable, TakenRecoverable, HeadroomOfMachine, UnlockedRecoverable, UsedRecoverable, WrittenRecoverable};

/// A formatted store is recoverable, and stays so with each part of a command and each step below one.
pub fn law_of_recoverable_stores()
    ensures formatted { FormattedRecoverable }
    // A node comes up.
    ensures started { StartedRecoverable }
    // A page passes to another node.
    ensures taken { TakenRecoverable }
    // More of a log is stable.
    ensures forced { ForcedRecoverable }
    // A page is written.
    ensures written { WrittenRecoverable }
    // Locks are taken, and released.
    ensures locked { LockedRecoverable }
    ensures unlocked { UnlockedRecoverable }
    // A transaction begins.
    ensures begun { BegunRecoverable }
    // A group gets a page.
    ensures used { UsedRecoverable }
    // A record is written, and the newest write is taken back.
    ensures changed { ChangedRecoverable }
    ensures back { BackRecoverable }
    // A transaction ends.
    ensures sealed { SealedRecoverable }
{}

/// What the logs of a recoverable store owe, and how far the identifiers of its pages may rise, is what the
/// machine says. So wherever a stop cuts the logs, the devices stand for the committed records.
pub fn law_of_recoverable_outcomes()
    ensures owes { OwedByDeeds }
    ensures pending { PendingByWrites }
    ensures headroom { HeadroomOfMachine }
    ensures stand { OutcomesStand }
{}
