//! The table of all locks: who may have one, who takes it, and who gives it up.

ghost use Rattle.std.specs.Prelude.{◌≡◌, ◌≤◌, true, IfOk, IsTrue};
ghost use Rattle.std.specs.FinMap.{empty, len};
ghost use Rattle.record_locks.specs.Held.{is_in_group, least_where, locks_where, taken, without_txn, without_node, without_reads_of};
ghost use Rattle.record_locks.specs.Answer.{lock_answer, may_take};
ghost use Rattle.record_locks.specs.GivenUp.{stays};

use crate::entry::{
    Entry, GivenUp, least, least_conflict, least_in_group, mode_of, place_of, stays,
};
use crate::mode::{LockAnswer, Mode, covers};
use sd_base::{GroupNo, Key, NodeId, TxnId};
use std::alloc::{AllocError, Global};
use std::marker::Model;

/// The table has at most this many locks.
const CAPACITY: usize = 4096;

/// The locks that transactions have. A contract sees it as a finite map from locks to modes.
#[derive(Drop)]
pub struct Locks {
    entries: Vec<Entry>,
}

impl Model for Locks {
    ghost use Rattle.std.specs.Prelude.{◌≤◌, vec_capacity};
    ghost use Rattle.record_locks.specs.Held.{Held, held_code};
    ghost use Rattle.record_locks.specs.Table.{held, IsTable};

    ghost Value = { Held };

    ghost coded = { held_code };

    ghost view = { λ a. held a.entries.items };

    // There is room for a full table from the start.
    ghost invariant = { λ a. IsTable a.entries.items × (4096 ≤ vec_capacity a.entries) };
}

impl Locks {
    /// A table of no locks. It takes the memory of a full one.
    pub fn new(alloc: Global) -> Result<Locks, AllocError>
        ensures { IfOk result (λ locks. locks ≡ empty) }
    {
        let entries = Vec::with_capacity(alloc, CAPACITY)?;
        Ok(Locks { entries })
    }

    /// What the transaction is answered that asks for the lock on the key in this mode.
    pub fn can(&self, key: Key, t: TxnId, mode: Mode) -> LockAnswer
        ensures answer { result ≡ lock_answer self.now key t mode }
        ensures bounded { len self.now ≤ 4096 }
    {
        let had = mode_of(&self.entries, key, t);
        if covers(had, mode) {
            return LockAnswer::Mine;
        }
        if let Some(other) = least_conflict(&self.entries, key, t, mode) {
            return LockAnswer::Conflict(other);
        }
        if had.is_none() && self.entries.len() == CAPACITY {
            return LockAnswer::Full;
        }
        LockAnswer::Free
    }

    /// The transaction takes the lock on the key, or raises its mode, where `can` answers that it may.
    pub fn take(&mut self, key: Key, t: TxnId, mode: Mode)
        requires { IsTrue (may_take (lock_answer self.old key t mode)) }
        ensures { self.new ≡ taken self.old key t mode }
    {
        match place_of(&self.entries, key, t) {
            Some(place) => {
                if mode == Mode::Write {
                    self.entries[place].mode = Mode::Write;
                }
            }
            None => self.entries.push_reserved(Entry { key, txn: t, mode }),
        }
    }

    /// These locks are given up.
    fn give_up(&mut self, which: GivenUp)
        ensures { self.new ≡ locks_where (stays which) self.old }
    {
        self.entries.retain(|e| stays(e, which));
    }

    /// The transaction gives up its locks.
    pub fn release_txn(&mut self, t: TxnId)
        ensures { self.new ≡ without_txn t self.old }
    {
        self.give_up(GivenUp::OfTxn(t));
    }

    /// The transactions of a node that has stopped give up their locks to read. Those to write stay:
    /// what they guard may be on the disk.
    pub fn retain_node(&mut self, n: NodeId)
        ensures { self.new ≡ without_reads_of n self.old }
    {
        self.give_up(GivenUp::ReadsOfNode(n));
    }

    /// The transactions of a node give up their locks.
    pub fn release_node(&mut self, n: NodeId)
        ensures { self.new ≡ without_node n self.old }
    {
        self.give_up(GivenUp::OfNode(n));
    }

    /// All locks are given up.
    pub fn drop_all(&mut self)
        ensures { self.new ≡ empty }
    {
        self.entries.clear();
    }

    /// The least transaction that has a lock on a key of the group.
    pub fn least_in_group(&self, g: GroupNo) -> Option<TxnId>
        ensures { result ≡ least_where (is_in_group g) self.now }
    {
        least_in_group(&self.entries, g)
    }

    /// The least transaction that has a lock.
    pub fn least(&self) -> Option<TxnId>
        ensures { result ≡ least_where (λ l mode. true) self.now }
    {
        least(&self.entries)
    }
}
