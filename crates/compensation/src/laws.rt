//! What is left of a transaction to take back, and how the log leads to it, stated as laws.

ghost use Rattle.std.specs.Prelude.{◌≡◌, ◌+◌, ◌<◌, ◌≤◌, ℕ, true, false, nat_le, List, [], ◌∷◌, ◌++◌, Some, None, All, Contains, filter, length, slice_get};
ghost use Rattle.log_record.specs.declared.record.LogRecord.{LogRecord};
ghost use Rattle.compensation.specs.Left.{is_update_of, next_after, uncompensated};
ghost use Rattle.compensation.specs.Finding.{TellsLeft, left_at, newest, next_behind, next_to_undo, record_at, record_before};

/// What is left of a transaction when its log gets one more record: an update is left too, of a
/// compensation those stay that lie up to the record which it says is next, and any other record
/// changes nothing.
pub fn law_of_one_more_record()
    ensures update { (t first : ℕ) (recs : List LogRecord) (rec : LogRecord) → is_update_of t rec ≡ true → uncompensated t first (recs ++ rec ∷ []) ≡ (first + length recs) ∷ uncompensated t first recs }
    ensures compensation { (t first next : ℕ) (recs : List LogRecord) (rec : LogRecord) → next_after t rec ≡ Some next → uncompensated t first (recs ++ rec ∷ []) ≡ filter (λ u. nat_le u next) (uncompensated t first recs) }
    ensures other { (t first : ℕ) (recs : List LogRecord) (rec : LogRecord) → is_update_of t rec ≡ false → next_after t rec ≡ None → uncompensated t first (recs ++ rec ∷ []) ≡ uncompensated t first recs }
{}

/// A log that is cut off in front, where no update of the transaction stands, leaves the same of it.
pub fn law_of_a_log_cut_in_front()
    ensures { (t first : ℕ) (front recs : List LogRecord) → ((i : ℕ) (rec : LogRecord) → slice_get front i ≡ Some rec → is_update_of t rec ≡ false) → uncompensated t first (front ++ recs) ≡ uncompensated t (first + length front) recs }
{}

/// Where the last record of a transaction is an update, or a compensation that says rightly what is
/// next, that is the newest that is left. One that names no update, but what lies before all of them,
/// says that nothing is.
pub fn law_of_the_next_record()
    ensures update { (t first : ℕ) (recs : List LogRecord) (rec : LogRecord) → is_update_of t rec ≡ true → next_to_undo rec (first + length recs) ≡ newest (uncompensated t first (recs ++ rec ∷ [])) }
    ensures compensation { (t first next : ℕ) (recs : List LogRecord) (rec : LogRecord) → next_after t rec ≡ Some next → Contains (uncompensated t first recs) next → next_to_undo rec (first + length recs) ≡ newest (uncompensated t first (recs ++ rec ∷ [])) }
    ensures nothing_left { (t first next : ℕ) (recs : List LogRecord) (rec : LogRecord) → next_after t rec ≡ Some next → All (λ u. next < u) (uncompensated t first recs) → uncompensated t first (recs ++ rec ∷ []) ≡ [] }
{}

/// What is left of a transaction is found from its last record, where its records tell it: an update
/// leads to itself and then to the record before it, and a compensation to what it says is next. At
/// the record that began it nothing is left, and what is left before an update was left at the record
/// that is next behind the update.
pub fn law_of_the_finding()
    ensures begun { (t first : ℕ) (recs : List LogRecord) → ((i : ℕ) (rec : LogRecord) → slice_get recs i ≡ Some rec → first + i ≤ t → is_update_of t rec ≡ false) → left_at t first recs t ≡ [] }
    ensures update { (t first i : ℕ) (recs : List LogRecord) (rec : LogRecord) → TellsLeft t first recs → slice_get recs i ≡ Some rec → is_update_of t rec ≡ true → left_at t first recs (first + i) ≡ (first + i) ∷ left_at t first recs (record_before rec) }
    ensures compensation { (t first i next : ℕ) (recs : List LogRecord) (rec : LogRecord) → TellsLeft t first recs → slice_get recs i ≡ Some rec → next_after t rec ≡ Some next → left_at t first recs (first + i) ≡ left_at t first recs next }
    ensures behind { (t first u : ℕ) (recs : List LogRecord) (newer rest : List ℕ) (update : LogRecord) → TellsLeft t first recs → uncompensated t first recs ≡ newer ++ u ∷ rest → record_at first recs u ≡ Some update → left_at t first recs (next_behind t first recs update) ≡ rest }
{}

/// The records of a transaction go on telling what is left of it: where an update names the record
/// before it, a compensation takes back the newest that is left and says what is next behind that, and
/// with any record of another kind or transaction.
pub fn law_of_told_logs()
    ensures none { (t first : ℕ) → TellsLeft t first [] }
    ensures update { (t first : ℕ) (recs : List LogRecord) (rec : LogRecord) → TellsLeft t first recs → is_update_of t rec ≡ true → first ≤ record_before rec → record_before rec < first + length recs → left_at t first recs (record_before rec) ≡ uncompensated t first recs → TellsLeft t first (recs ++ rec ∷ []) }
    ensures compensation { (t first u : ℕ) (recs : List LogRecord) (rest : List ℕ) (update rec : LogRecord) → TellsLeft t first recs → uncompensated t first recs ≡ u ∷ rest → record_at first recs u ≡ Some update → next_after t rec ≡ Some (next_behind t first recs update) → TellsLeft t first (recs ++ rec ∷ []) }
    ensures taken_back { (t first u : ℕ) (recs : List LogRecord) (rest : List ℕ) (update rec : LogRecord) → TellsLeft t first recs → uncompensated t first recs ≡ u ∷ rest → record_at first recs u ≡ Some update → next_after t rec ≡ Some (next_behind t first recs update) → uncompensated t first (recs ++ rec ∷ []) ≡ rest }
    ensures other { (t first : ℕ) (recs : List LogRecord) (rec : LogRecord) → TellsLeft t first recs → is_update_of t rec ≡ false → next_after t rec ≡ None → TellsLeft t first (recs ++ rec ∷ []) }
{}
