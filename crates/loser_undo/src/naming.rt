//! Which transaction a record names, and whether it begins or ends one.

ghost use Rattle.std.specs.Prelude.{◌≡◌, ◌↔◌, true, false, IsTrue};
ghost use Rattle.recovery_theory.specs.Effect.{effect_of};
ghost use Rattle.recovery_theory.specs.Effect.Effect.{Begun};
ghost use Rattle.recovery_theory.specs.Rules as rules;
ghost use Rattle.loser_undo.specs.Rules.{Names, txn_named};

use log_record::LogRecord;

/// The transaction that a record names. `None` exactly for one that begins a transaction or changes a
/// map page.
pub(crate) fn txn_of(rec: &LogRecord) -> Option<u64>
    ensures { result ≡ txn_named (effect_of rec.now) }
{
    match *rec {
        LogRecord::Set { txn, .. }
        | LogRecord::Append { txn, .. }
        | LogRecord::Commit { txn, .. }
        | LogRecord::Abort { txn, .. }
        | LogRecord::Restore { txn, .. }
        | LogRecord::Cut { txn, .. } => Some(txn),
        LogRecord::Begin | LogRecord::MapUse { .. } | LogRecord::MapFree { .. } => None,
    }
}

/// Whether a record begins a transaction.
pub(crate) fn is_begin(rec: &LogRecord) -> bool
    ensures { IsTrue result ↔ (effect_of rec.now ≡ Begun) }
{
    matches!(rec, LogRecord::Begin)
}

/// Whether a record ends a transaction.
pub(crate) fn is_end(rec: &LogRecord) -> bool
    ensures { result ≡ rules.is_end (effect_of rec.now) }
{
    matches!(rec, LogRecord::Commit { .. } | LogRecord::Abort { .. })
}

/// Whether a record names this transaction.
pub(crate) fn names(rec: &LogRecord, t: u64) -> bool
    ensures yes { IsTrue result → Names t rec.now }
    ensures no { result ≡ false → ¬ (Names t rec.now) }
{
    match txn_of(rec) {
        Some(u) => u == t,
        None => false,
    }
}

/// Whether a record names this transaction, and ends it where `ending` says so.
pub(crate) fn names_so(rec: &LogRecord, t: u64, ending: bool) -> bool
    ensures yes { IsTrue result → Names t rec.now × (ending ≡ true → rules.is_end (effect_of rec.now) ≡ true) }
    ensures no { result ≡ false → Names t rec.now → (ending ≡ true) × (rules.is_end (effect_of rec.now) ≡ false) }
{
    if !names(rec, t) {
        return false;
    }
    !ending || is_end(rec)
}
