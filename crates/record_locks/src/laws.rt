//! What becomes of all locks where some are taken or dropped, stated as laws.

ghost use Rattle.std.specs.Prelude.{◌≡◌, ◌≢◌, Bool, Some, IsTrue};
ghost use Rattle.std.specs.FinMap.{get, empty};
ghost use Rattle.sd_base.specs.declared.names.Key.{Key};
ghost use Rattle.sd_base.specs.declared.names.TxnId.{TxnId};
ghost use Rattle.record_locks.specs.declared.mode.Mode.{Mode};
ghost use Rattle.record_locks.specs.Order.{Lock, lock};
ghost use Rattle.record_locks.specs.Held.{Held, IsLeast, IsCompatible, least_where, locks_where, mode_of, passing, raised, taken};
ghost use Rattle.record_locks.specs.Answer.{lock_answer, may_take};

/// The transaction that `least_where` names has a lock which passes the test, and no lesser one has.
pub fn law_of_the_least()
    ensures { (test : Lock → Mode → Bool) (m : Held) → IsLeast test m (least_where test m) }
{}

/// A lock that is taken is held in its new mode, and all others as before.
pub fn law_of_taken_locks()
    ensures here { (m : Held) (key : Key) (t : TxnId) (mode : Mode) → mode_of (taken m key t mode) key t ≡ Some (raised (mode_of m key t) mode) }
    ensures others { (m : Held) (key : Key) (t : TxnId) (mode : Mode) (l : Lock) → l ≢ lock key t → get (taken m key t mode) l ≡ get m l }
{}

/// The locks that pass a test are held as before, and no others.
pub fn law_of_dropped_locks()
    ensures { (test : Lock → Mode → Bool) (m : Held) (l : Lock) → get (locks_where test m) l ≡ passing test l (get m l) }
{}

/// Where one transaction may write, no other has the lock on the key: it is so in the empty table, and
/// stays so where only locks are taken that may be.
pub fn law_of_compatible_locks()
    ensures none { IsCompatible empty }
    ensures taken { (m : Held) (key : Key) (t : TxnId) (mode : Mode) → IsCompatible m → IsTrue (may_take (lock_answer m key t mode)) → IsCompatible (taken m key t mode) }
    ensures dropped { (test : Lock → Mode → Bool) (m : Held) → IsCompatible m → IsCompatible (locks_where test m) }
{}
