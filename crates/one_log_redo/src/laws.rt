//! What redo of a record is: that of the change that the record says.

ghost use Rattle.one_log_redo.specs.Steps.{RecordIsCounted, RecordIsStep, RecordSaysChange, StepKeepsOthers};

/// Redo of a record, as the fold over a log has it, is redo of the change that the record says.
pub fn law_of_steps()
    // Its images are those behind the change.
    ensures images { RecordIsStep }
    // It is counted where the change is made or passed over.
    ensures counts { RecordIsCounted }
    // It leaves every page but one.
    ensures others { StepKeepsOthers }
    // A record that redo takes says a change that can be made of a page of the store.
    ensures change { RecordSaysChange }
{}
