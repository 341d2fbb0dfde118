//! Why a command is refused for what is in memory, before the disk is read.
//! Also what `stat` answers, since it needs no disk either.

ghost use Rattle.std.specs.Prelude.{◌≡◌, ◌≤◌, ◌∷◌, []};
ghost use Rattle.script_text.specs.Command.{InRange};
ghost use Rattle.record_machine.specs.Commands.{first_of};
ghost use Rattle.store_nodes.specs.Known.{any_lock, busy, checked, first_down, known, no_lock, no_node, no_room, no_txn, not_idle, not_up, reopening, state_of};
ghost use Rattle.store_nodes.specs.Nodes.{IsPlace, IsStore, node_at};
ghost use Rattle.store_nodes.specs.Pages.{has_txn, room_in};

use crate::node::Node;
use crate::store::Store;
use record_locks::{LockAnswer, Mode};
use script_text::{Command, Reply};
use sd_base::{Key, NodeId, TxnId};

impl Store {
    /// Why a command is refused before the disk is read, if it is: its tests, in their order.
    pub fn check(&self, command: &Command) -> Result<(), Reply>
        requires range { InRange command.now }
        requires is { IsStore self.now }
        ensures { result ≡ checked (known self.now command.now) }
    {
        match *command {
            Command::Format(_) => Err(Reply::Formatted),
            Command::Start(n) => self.check_idle(n),
            Command::Begin(t) => self.check_begin(t),
            Command::Get(t, key) => self.check_access(t, key, Mode::Read),
            Command::Put(t, key, _) | Command::Append(t, key, _) | Command::Del(t, key) => {
                self.check_access(t, key, Mode::Write)
            }
            Command::Commit(t) | Command::Abort(t) => self.check_txn(t),
            Command::Flush(n) => self.check_up(n),
            Command::Stat(n) => self.check_node(n),
            Command::Dump(n) => self.check_dump(n),
            Command::Bad => Err(Reply::Bad),
        }
    }

    /// The store has the node.
    fn check_node(&self, n: NodeId) -> Result<(), Reply>
        ensures { result ≡ checked (no_node self.now n) }
    {
        if n.0 > self.shape.nodes {
            return Err(Reply::NoNode(n));
        }
        Ok(())
    }

    /// The store has the node, and it isn't in use.
    fn check_idle(&self, n: NodeId) -> Result<(), Reply>
        requires node { 1 ≤ n.0 }
        requires is { IsStore self.now }
        ensures { result ≡ checked (first_of (no_node self.now n ∷ not_idle self.now n ∷ [])) }
    {
        self.check_node(n)?;
        match self.node(n) {
            Node::Idle => Ok(()),
            Node::Up(..) | Node::Down => Err(Reply::NotIdle(n)),
        }
    }

    /// The store has the node, and it is up.
    fn check_up(&self, n: NodeId) -> Result<(), Reply>
        requires node { 1 ≤ n.0 }
        requires is { IsStore self.now }
        ensures { result ≡ checked (first_of (no_node self.now n ∷ not_up self.now n ∷ [])) }
    {
        self.check_node(n)?;
        match self.node(n) {
            Node::Up(..) => Ok(()),
            Node::Idle | Node::Down => Err(Reply::NotUp(n)),
        }
    }

    /// Whether a seat of the node has an open transaction.
    fn is_open(&self, t: TxnId) -> bool
        requires node { IsPlace t.node.0 }
        requires seat { t.seat ≤ 7 }
        requires is { IsStore self.now }
        ensures { result ≡ has_txn (node_at self.now.nodes t.node.0) t }
    {
        match self.node(t.node) {
            Node::Up(_cache, seats) => seats.is_busy(t.seat),
            Node::Idle | Node::Down => false,
        }
    }

    /// The seat is free.
    fn check_free(&self, t: TxnId) -> Result<(), Reply>
        requires node { IsPlace t.node.0 }
        requires seat { t.seat ≤ 7 }
        requires is { IsStore self.now }
        ensures { result ≡ checked (busy self.now t) }
    {
        if self.is_open(t) {
            return Err(Reply::Busy(t));
        }
        Ok(())
    }

    /// The first node of the store that is down.
    fn first_down(&self) -> Option<NodeId>
        requires is { IsStore self.now }
        ensures { result ≡ first_down self.now }
    {
        for i in 0..self.shape.nodes {
            let n = NodeId(i + 1);
            if self.node(n).is_down() {
                return Some(n);
            }
        }
        None
    }

    /// The tables of locks and owners aren't lost, or all nodes are recovered since.
    fn check_reopening(&self) -> Result<(), Reply>
        requires is { IsStore self.now }
        ensures { result ≡ checked (reopening self.now) }
    {
        if !self.shared.reopening {
            return Ok(());
        }
        match self.first_down() {
            Some(n) => Err(Reply::Reopening(n)),
            None => Ok(()),
        }
    }

    /// The node is up, the seat is free, the store isn't being reopened, and the log has room for a
    /// transaction.
    fn check_begin(&self, t: TxnId) -> Result<(), Reply>
        requires node { 1 ≤ t.node.0 }
        requires seat { t.seat ≤ 7 }
        requires is { IsStore self.now }
        ensures { result ≡ checked (first_of (no_node self.now t.node ∷ not_up self.now t.node ∷ busy self.now t ∷ reopening self.now ∷ no_room self.now t.node 2 ∷ [])) }
    {
        self.check_up(t.node)?;
        self.check_free(t)?;
        self.check_reopening()?;
        self.check_room(t.node, 2)
    }

    /// The node is up, and has the transaction.
    fn check_txn(&self, t: TxnId) -> Result<(), Reply>
        requires node { 1 ≤ t.node.0 }
        requires seat { t.seat ≤ 7 }
        requires is { IsStore self.now }
        ensures { result ≡ checked (first_of (no_node self.now t.node ∷ not_up self.now t.node ∷ no_txn self.now t ∷ [])) }
    {
        self.check_up(t.node)?;
        if !self.is_open(t) {
            return Err(Reply::NotTxn(t));
        }
        Ok(())
    }

    /// No transaction has a lock.
    fn check_unlocked(&self) -> Result<(), Reply>
        ensures { result ≡ checked (any_lock self.now) }
    {
        match self.shared.locks.least() {
            Some(t) => Err(Reply::Busy(t)),
            None => Ok(()),
        }
    }

    /// The node is up, no transaction has a lock, and the store isn't being reopened.
    fn check_dump(&self, n: NodeId) -> Result<(), Reply>
        requires node { 1 ≤ n.0 }
        requires is { IsStore self.now }
        ensures { result ≡ checked (first_of (no_node self.now n ∷ not_up self.now n ∷ any_lock self.now ∷ reopening self.now ∷ [])) }
    {
        self.check_up(n)?;
        self.check_unlocked()?;
        self.check_reopening()
    }

    /// The transaction may have the lock.
    fn check_lock(&self, key: Key, t: TxnId, mode: Mode) -> Result<(), Reply>
        ensures { result ≡ checked (no_lock self.now key t mode) }
    {
        match self.shared.locks.can(key, t, mode) {
            LockAnswer::Free | LockAnswer::Mine => Ok(()),
            LockAnswer::Conflict(u) => Err(Reply::Locked(u)),
            LockAnswer::Full => Err(Reply::LocksFull),
        }
    }

    /// The node is up and has the transaction, which may have the lock.
    fn check_access(&self, t: TxnId, key: Key, mode: Mode) -> Result<(), Reply>
        requires node { 1 ≤ t.node.0 }
        requires seat { t.seat ≤ 7 }
        requires is { IsStore self.now }
        ensures { result ≡ checked (first_of (no_node self.now t.node ∷ not_up self.now t.node ∷ no_txn self.now t ∷ no_lock self.now key t mode ∷ [])) }
    {
        self.check_txn(t)?;
        self.check_lock(key, t, mode)
    }

    /// How many more records the log of the node has room for, besides those that its transactions may
    /// still need.
    fn room(&self, n: NodeId) -> u64
        requires node { IsPlace n.0 }
        requires is { IsStore self.now }
        ensures { result ≡ room_in (node_at self.now.nodes n.0) }
    {
        match self.node(n) {
            Node::Up(cache, seats) => cache.log().space() - seats.owed(),
            Node::Idle | Node::Down => 0,
        }
    }

    /// What the node is and, where it is up, how full its log is.
    pub fn stat(&self, n: NodeId) -> Reply
        requires node { IsPlace n.0 }
        requires is { IsStore self.now }
        ensures { result ≡ state_of (node_at self.now.nodes n.0) }
    {
        match self.node(n) {
            Node::Idle => Reply::StatIdle,
            Node::Up(cache, seats) => {
                let log = cache.log();
                Reply::StatUp(log.tail() - 6 * log.start(), seats.owed(), self.room(n))
            }
            Node::Down => Reply::StatDown,
        }
    }

    /// The log of the node has room for so many records.
    pub fn check_room(&self, n: NodeId, need: u64) -> Result<(), Reply>
        requires node { IsPlace n.0 }
        requires is { IsStore self.now }
        ensures { result ≡ checked (no_room self.now n need) }
    {
        let room = self.room(n);
        if need > room {
            return Err(Reply::LogFull(need, room));
        }
        Ok(())
    }
}
