//! What a log tells of the open transactions, and goes on telling, stated as laws.

ghost use Rattle.std.specs.Prelude.{◌≡◌, ◌≢◌, ◌+◌, ◌-◌, ◌≤◌, ℕ, true, false, List, Option, [], ◌∷◌, ◌++◌, Some, None, length};
ghost use Rattle.log_record.specs.declared.record.LogRecord.{LogRecord};
ghost use Rattle.log_record.specs.declared.record.LogRecord.TheVariants.{Begin};
ghost use Rattle.log_record.specs.Fields.{fields_of};
ghost use Rattle.compensation.specs.Left.{is_update_of, next_after, uncompensated};
ghost use Rattle.compensation.specs.Finding.{newest, next_behind, next_to_undo, record_at, record_before};
ghost use Rattle.node_cache.specs.Cache.{CachedPage};
ghost use Rattle.page_image.specs.declared.page_view.PageView.{PageView};
ghost use Rattle.txn_core.specs.Seats.{OpenTxn};
ghost use Rattle.txn_core.specs.Told.{IsOpenIn, NamesEarlier};
ghost use Rattle.txn_core.specs.Undo.{IsToUndo, TakesBack};

/// The records of a log go on telling its open transactions with each record more: one that begins a
/// transaction opens it with nothing left, an update that names the last record of its transaction is
/// left too, a compensation of the newest that is left takes that back, and any other record changes
/// nothing. What the last record of an open transaction says is next is the newest that is left of it,
/// and where it names none, or the record that began the transaction, nothing is left. All that is
/// left are updates of the transaction in the log.
pub fn law_of_told_transactions()
    ensures other { (t : OpenTxn) (first : ℕ) (recs : List LogRecord) (rec : LogRecord) → is_update_of t.begin rec ≡ false → next_after t.begin rec ≡ None → IsOpenIn first recs t → IsOpenIn first (recs ++ rec ∷ []) t }
    ensures begun { (first : ℕ) (recs : List LogRecord) → NamesEarlier first recs → IsOpenIn first (recs ++ Begin ∷ []) (record { begin = first + length recs; last = first + length recs; left = 0 }) }
    ensures updated { (t : OpenTxn) (first : ℕ) (recs : List LogRecord) (rec : LogRecord) → first ≤ t.begin → is_update_of t.begin rec ≡ true → record_before rec ≡ t.last → IsOpenIn first recs t → IsOpenIn first (recs ++ rec ∷ []) (record { begin = t.begin; last = first + length recs; left = t.left + 1 }) }
    ensures taken_back { (t : OpenTxn) (first : ℕ) (recs : List LogRecord) (u : ℕ) (rest : List ℕ) (update rec : LogRecord) → first ≤ t.begin → uncompensated t.begin first recs ≡ u ∷ rest → record_at first recs u ≡ Some update → next_after t.begin rec ≡ Some (next_behind t.begin first recs update) → NamesEarlier first recs → IsOpenIn first recs t → IsOpenIn first (recs ++ rec ∷ []) (record { begin = t.begin; last = first + length recs; left = t.left - 1 }) }
    ensures names { (first : ℕ) (recs : List LogRecord) (rec : LogRecord) → NamesEarlier first recs → (fields_of rec).txn ≤ first + length recs → NamesEarlier first (recs ++ rec ∷ []) }
    ensures next { (t : OpenTxn) (first : ℕ) (recs : List LogRecord) (rec : LogRecord) (n : ℕ) → NamesEarlier first recs → IsOpenIn first recs t → record_at first recs t.last ≡ Some rec → next_to_undo rec t.last ≡ Some n → n ≢ t.begin → newest (uncompensated t.begin first recs) ≡ Some n }
    ensures next_is_begin { (t : OpenTxn) (first : ℕ) (recs : List LogRecord) (rec : LogRecord) → NamesEarlier first recs → IsOpenIn first recs t → record_at first recs t.last ≡ Some rec → next_to_undo rec t.last ≡ Some t.begin → newest (uncompensated t.begin first recs) ≡ None }
    ensures no_next { (t : OpenTxn) (first : ℕ) (recs : List LogRecord) (rec : LogRecord) → NamesEarlier first recs → IsOpenIn first recs t → record_at first recs t.last ≡ Some rec → next_to_undo rec t.last ≡ None → newest (uncompensated t.begin first recs) ≡ None }
    ensures is_update { (t : OpenTxn) (first : ℕ) (recs : List LogRecord) (u : ℕ) (rest : List ℕ) → IsOpenIn first recs t → uncompensated t.begin first recs ≡ u ∷ rest → (update : LogRecord) × (record_at first recs u ≡ Some update) × (is_update_of t.begin update ≡ true) }
{}

/// An update that is left of an open transaction is taken back by one record.
pub fn law_of_compensations()
    ensures some { (pool : List (Option (List ℕ))) (pages : List CachedPage) (first : ℕ) (recs : List LogRecord) (t : OpenTxn) (v : PageView) → IsOpenIn first recs t → IsToUndo pool pages first recs t v → (rec : LogRecord) × TakesBack pool pages first recs t v rec }
    ensures one { (pool : List (Option (List ℕ))) (pages : List CachedPage) (first : ℕ) (recs : List LogRecord) (t : OpenTxn) (v w : PageView) (rec other : LogRecord) → TakesBack pool pages first recs t v rec → TakesBack pool pages first recs t w other → rec ≡ other }
{}
