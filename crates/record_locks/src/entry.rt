//! One lock of the table, and how locks are searched for in a list.

ghost use Rattle.std.specs.Prelude.{◌≡◌, find, position, filter, map};
ghost use Rattle.std.specs.Option.{option_map};
ghost use Rattle.record_locks.specs.Held.{excludes, conflicts, is_in_group, lesser, least_of};
ghost use Rattle.record_locks.specs.GivenUp.{stays};
ghost use Rattle.record_locks.specs.Table.{is_of, lock_of};

use crate::mode::Mode;
use sd_base::{GroupNo, Key, NodeId, TxnId};

/// A lock of the table: the transaction has the key in this mode.
#[derive(Clone, Copy)]
pub struct Entry {
    pub key: Key,
    pub txn: TxnId,
    pub mode: Mode,
}

/// Which locks are given up.
#[derive(Clone, Copy)]
pub enum GivenUp {
    /// Those of a transaction.
    OfTxn(TxnId),
    /// Those of a node's transactions.
    OfNode(NodeId),
    /// Those of a node's transactions that are to read.
    ReadsOfNode(NodeId),
}

/// Whether the lock of an entry isn't given up with these.
pub fn stays(e: &Entry, which: GivenUp) -> bool
    ensures { result ≡ stays which (lock_of e.now).0 e.now.mode }
{
    match which {
        GivenUp::OfTxn(t) => e.txn != t,
        GivenUp::OfNode(n) => e.txn.node != n,
        GivenUp::ReadsOfNode(n) => e.txn.node != n || e.mode == Mode::Write,
    }
}

/// Whether an entry is of the transaction's lock on the key.
fn is_of(e: &Entry, key: Key, t: TxnId) -> bool
    ensures { result ≡ is_of key t e.now }
{
    e.txn == t && e.key == key
}

/// The place of the transaction's lock on the key.
pub fn place_of(entries: &[Entry], key: Key, t: TxnId) -> Option<usize>
    ensures { result ≡ position (is_of key t) entries.now }
{
    entries.iter().position(|e| is_of(e, key, t))
}

/// The mode in which the transaction has the key.
pub fn mode_of(entries: &[Entry], key: Key, t: TxnId) -> Option<Mode>
    ensures { result ≡ option_map (λ e. e.mode) (find (is_of key t) entries.now) }
{
    entries.iter().find(|e| is_of(e, key, t)).map(|e| e.mode)
}

/// Whether an entry keeps the transaction from having the key in this mode.
fn conflicts(e: &Entry, key: Key, t: TxnId, mode: Mode) -> bool
    ensures { result ≡ conflicts key t mode (lock_of e.now).0 e.now.mode }
{
    e.key == key && e.txn != t && (e.mode == Mode::Write || mode == Mode::Write)
}

/// The lesser of two transactions, where there may be but one.
fn lesser(least: Option<TxnId>, t: TxnId) -> Option<TxnId>
    ensures { result ≡ lesser least t }
{
    Some(least.map_or(t, |u| u.min(t)))
}

/// The least transaction that keeps this one from having the key in this mode.
pub fn least_conflict(entries: &[Entry], key: Key, t: TxnId, mode: Mode) -> Option<TxnId>
    ensures { result ≡ least_of (map (λ e. e.txn) (filter (λ e. conflicts key t mode (lock_of e).0 e.mode) entries.now)) }
{
    entries
        .iter()
        .filter(|e| conflicts(e, key, t, mode))
        .map(|e| e.txn)
        .fold(None, lesser)
}

/// The least transaction that has a key of the group.
pub fn least_in_group(entries: &[Entry], g: GroupNo) -> Option<TxnId>
    ensures { result ≡ least_of (map (λ e. e.txn) (filter (λ e. is_in_group g (lock_of e).0 e.mode) entries.now)) }
{
    entries
        .iter()
        .filter(|e| e.key.group() == g)
        .map(|e| e.txn)
        .fold(None, lesser)
}

/// The least transaction that has a key.
pub fn least(entries: &[Entry]) -> Option<TxnId>
    ensures { result ≡ least_of (map (λ e. e.txn) entries.now) }
{
    entries.iter().map(|e| e.txn).fold(None, lesser)
}
