//! The two modes of a lock, and the answers to a transaction that asks for one.

ghost use Rattle.std.specs.Prelude.{◌≡◌};
ghost use Rattle.record_locks.specs.Held.{covers};

use sd_base::TxnId;

/// What a lock lets its transaction do with the record.
#[derive(Clone, Copy, Debug, PartialEq, Eq)]
pub enum Mode {
    /// Read it. Several transactions may have the lock on one key in this mode.
    Read,
    /// Write it, and read it. No other transaction has the lock on the key then.
    Write,
}

/// What a transaction is answered that asks for a lock.
#[derive(Clone, Copy, Debug, PartialEq, Eq)]
pub enum LockAnswer {
    /// It may take the lock.
    Free,
    /// It has the lock already, in the mode asked for or to write.
    Mine,
    /// This is the least of the other transactions that are in the way.
    Conflict(TxnId),
    /// The table has as many locks as it can have.
    Full,
}

/// Whether the mode that a transaction has lets it do what this mode is for.
pub fn covers(had: Option<Mode>, mode: Mode) -> bool
    ensures { result ≡ covers had mode }
{
    had == Some(Mode::Write) || had == Some(mode)
}
