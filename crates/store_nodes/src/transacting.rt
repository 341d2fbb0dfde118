//! A transaction begins, and is ended.

ghost use Rattle.std.specs.Prelude.{◌≡◌, ◌≤◌, ◌+◌, ◌∷◌, [], true, false, Some, IsTrue, IfErr, OnErr, OnOk};
ghost use Rattle.sd_base.specs.Calls.{Narrows};
ghost use Rattle.private_log.specs.Log.{space};
ghost use Rattle.record_locks.specs.Held.{without_txn};
ghost use Rattle.record_machine.specs.Led.{Led};
ghost use Rattle.record_machine.specs.Machine.{Machine};
ghost use Rattle.record_machine.specs.Parts.{Begin, Seal, Unlock, dos, one};
ghost use Rattle.txn_core.specs.declared.ending.Ending.TheVariants.{Abort};
ghost use Rattle.txn_core.specs.Seats.{OpenTxn, is_busy, owed, txn_in};
ghost use Rattle.store_nodes.specs.declared.node.Node.TheVariants.{Down};
ghost use Rattle.store_nodes.specs.Endures.{Endures};
ghost use Rattle.store_nodes.specs.Footprint.{KeepsAllButLog, NarrowsToRing};
ghost use Rattle.store_nodes.specs.Nodes.{IsPlace, OnUp, is_up, node_at};
ghost use Rattle.store_nodes.specs.Ports.{HasCause, IsQuiet, IsReady, IsStopReply, Works, Writes};
ghost use Rattle.store_nodes.specs.Shows.{IsShown};

use crate::node::{Node, place};
use crate::store::Store;
use script_text::Reply;
use sd_base::{Disk, TxnId};
use txn_core::Ending;

impl Store {
    /// Begins a transaction in a free seat of a node that is up, where its log has room for it.
    pub fn begin<D: Disk, V: Disk>(
        &mut self,
        disk: &mut D,
        vault: &mut V,
        t: TxnId,
    ) -> Result<(), Reply>
        requires node { IsPlace t.node.0 }
        requires seat { t.seat ≤ 7 }
        requires up { is_up (node_at self.old.nodes t.node.0) ≡ true }
        requires idle { OnUp (node_at self.old.nodes t.node.0) (λ c seats. is_busy seats t.seat ≡ false) }
        requires room { OnUp (node_at self.old.nodes t.node.0) (λ c seats. owed seats + 2 ≤ space c.log) }
        requires ready { IsReady self.old (D.state disk.old) (V.state vault.old) }
        requires quiet { IsTrue D.told → IsQuiet self.old (D.state disk.old).block }
        ensures works { Works t.node.0 self.old self.new (D.state disk.old) (D.state disk.new) (V.state vault.old) (V.state vault.new) }
        ensures writes { IsTrue D.told → Writes t.node.0 self.old self.new (D.state disk.old).block (D.state disk.new).block }
        ensures vault_outcomes { IsTrue V.told → Narrows (V.state vault.old).block (V.state vault.new).block }
        ensures cause { IfErr result (λ why. HasCause why (D.state disk.old) (D.state disk.new)) }
        ensures stopped { IfErr result (IsStopReply t.node.0) }
        ensures up { OnOk result (is_up (node_at self.new.nodes t.node.0) ≡ true) }
        ensures down { OnErr result (node_at self.new.nodes t.node.0 ≡ Down) }
        ensures shows { OnOk result (IsTrue D.told → (m : Machine) → IsShown self.old (D.state disk.old).block m → IsShown self.new (D.state disk.new).block (one (Begin t) m)) }
        ensures led { IsTrue D.told → (m : Machine) → m.reopening ≡ false → Endures self.old (D.state disk.old).block m → Led t.node.0 result (Begin t ∷ []) m (Endures self.new (D.state disk.new).block) }
        ensures contents { OnOk result (IsTrue D.told → KeepsAllButLog t.node.0 self.old.shape (D.state disk.old).block (D.state disk.new).block) }
    {
        let fault = match &mut self.nodes[place(t.node)] {
            Node::Up(cache, seats) => {
                let done = seats.begin(disk, cache, t.seat);
                cache.law_of_pages();
                match done {
                    Ok(()) => return Ok(()),
                    Err(fault) => fault,
                }
            }
            Node::Idle | Node::Down => unreachable!(),
        };
        Err(self.give_up(disk, vault, t.node, fault))
    }

    /// Ends a transaction of a node that is up, of which nothing is left to take back where it is aborted:
    /// its end is stable then, and its locks are released.
    pub fn end<D: Disk, V: Disk>(
        &mut self,
        disk: &mut D,
        vault: &mut V,
        t: TxnId,
        ending: Ending,
    ) -> Result<(), Reply>
        requires node { IsPlace t.node.0 }
        requires seat { t.seat ≤ 7 }
        requires up { is_up (node_at self.old.nodes t.node.0) ≡ true }
        requires busy { OnUp (node_at self.old.nodes t.node.0) (λ c seats. IsTrue (is_busy seats t.seat)) }
        requires nothing { ending ≡ Abort → OnUp (node_at self.old.nodes t.node.0) (λ c seats. (u : OpenTxn) → txn_in seats t.seat ≡ Some u → u.left ≡ 0) }
        requires ready { IsReady self.old (D.state disk.old) (V.state vault.old) }
        requires quiet { IsTrue D.told → IsQuiet self.old (D.state disk.old).block }
        ensures works { Works t.node.0 self.old self.new (D.state disk.old) (D.state disk.new) (V.state vault.old) (V.state vault.new) }
        ensures writes { IsTrue D.told → Writes t.node.0 self.old self.new (D.state disk.old).block (D.state disk.new).block }
        ensures vault_outcomes { IsTrue V.told → Narrows (V.state vault.old).block (V.state vault.new).block }
        ensures cause { IfErr result (λ why. HasCause why (D.state disk.old) (D.state disk.new)) }
        ensures stopped { IfErr result (IsStopReply t.node.0) }
        ensures up { OnOk result (is_up (node_at self.new.nodes t.node.0) ≡ true) }
        ensures down { OnErr result (node_at self.new.nodes t.node.0 ≡ Down) }
        ensures locks { OnOk result (self.new.shared.locks ≡ without_txn t self.old.shared.locks) }
        ensures shows { OnOk result (IsTrue D.told → (m : Machine) → IsShown self.old (D.state disk.old).block m → IsShown self.new (D.state disk.new).block (dos (Seal t ∷ Unlock t ∷ []) m)) }
        ensures led { IsTrue D.told → (m : Machine) → m.reopening ≡ false → Endures self.old (D.state disk.old).block m → Led t.node.0 result (Seal t ∷ Unlock t ∷ []) m (Endures self.new (D.state disk.new).block) }
        ensures ring { IsTrue D.told → NarrowsToRing t.node.0 self.old.shape (D.state disk.old).block (D.state disk.new).block }
        ensures contents { OnOk result (IsTrue D.told → KeepsAllButLog t.node.0 self.old.shape (D.state disk.old).block (D.state disk.new).block) }
    {
        let fault = match &mut self.nodes[place(t.node)] {
            Node::Up(cache, seats) => {
                let done = seats.end(disk, cache, t.seat, ending);
                cache.law_of_pages();
                match done {
                    Ok(()) => {
                        self.shared.locks.release_txn(t);
                        return Ok(());
                    }
                    Err(fault) => fault,
                }
            }
            Node::Idle | Node::Down => unreachable!(),
        };
        Err(self.give_up(disk, vault, t.node, fault))
    }
}
