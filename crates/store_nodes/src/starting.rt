//! The command `start`: the ports of a node start, its log is read, and the node is up.

ghost use Rattle.std.specs.Prelude.{◌≡◌, ◌≤◌, ◌∷◌, [], true, false, IsTrue, IfErr, OnOk};
ghost use Rattle.sd_base.specs.Calls.{KeepsForeign, Narrows};
ghost use Rattle.sd_base.specs.Faults.{OnStop};
ghost use Rattle.private_log.specs.Content.{region_of};
ghost use Rattle.private_log.specs.Reading.{contents};
ghost use Rattle.state_ids.specs.Blocks.{UnlessStopped};
ghost use Rattle.store_format.specs.FaultReply.{fault_reply};
ghost use Rattle.record_machine.specs.Led.{Led};
ghost use Rattle.record_machine.specs.Machine.{Machine};
ghost use Rattle.record_machine.specs.Parts.{Start, one};
ghost use Rattle.store_nodes.specs.declared.node.Node.TheVariants.{Down, Idle, Up};
ghost use Rattle.store_nodes.specs.Causes.{IsLogReply, IsToldDamaged};
ghost use Rattle.store_nodes.specs.Endures.{Endures, MayHalt, Stops};
ghost use Rattle.store_nodes.specs.Halting.{Halts};
ghost use Rattle.store_nodes.specs.Nodes.{IsPlace, IsStore, is_up, node_at, with_node};
ghost use Rattle.store_nodes.specs.Ports.{HasCause, IsQuiet, IsQuietBut, IsReady, IsServedBut, Works, says_stop};
ghost use Rattle.store_nodes.specs.Shows.{IsShown};

use crate::node::{Node, place};
use crate::store::Store;
use node_cache::NodeCache;
use private_log::Log;
use script_text::Reply;
use sd_base::{DevFault, Disk, NodeId};
use std::mem;
use store_format::fault_reply;
use txn_core::Seats;

impl Store {
    /// Puts a node to use.
    fn bring_up(&mut self, n: NodeId, cache: NodeCache, seats: Seats)
        requires node { IsPlace n.0 }
        requires idle { node_at self.old.nodes n.0 ≡ Idle }
        ensures shape { self.new.shape ≡ self.old.shape }
        ensures shared { self.new.shared ≡ self.old.shared }
        ensures nodes { self.new.nodes ≡ with_node self.old.nodes n.0 (Up cache seats) }
    {
        match mem::replace(&mut self.nodes[place(n)], Node::Up(cache, seats)) {
            Node::Idle => (),
            Node::Up(_cache, _seats) => unreachable!(),
            Node::Down => unreachable!(),
        }
    }

    /// What is answered where the log of a node couldn't be attached. Where its port stopped, the node
    /// goes down; else it stays idle. Its ports stop in either case.
    fn leave_out<D: Disk, V: Disk>(
        &mut self,
        disk: &mut D,
        vault: &mut V,
        n: NodeId,
        fault: DevFault,
    ) -> Reply
        requires node { IsPlace n.0 }
        requires known { n.0 ≤ self.old.shape.nodes }
        requires idle { node_at self.old.nodes n.0 ≡ Idle }
        requires is { IsStore self.old }
        requires served { IsServedBut n.0 self.old (D.state disk.old) (V.state vault.old) }
        requires quiet { IsTrue D.told → IsQuietBut n.0 self.old (D.state disk.old).block }
        ensures says { result ≡ fault_reply fault }
        ensures works { Works n.0 self.old self.new (D.state disk.old) (D.state disk.new) (V.state vault.old) (V.state vault.new) }
        ensures quiet { IsTrue D.told → IsQuiet self.new (D.state disk.new).block }
        ensures outcomes { IsTrue D.told → Narrows (D.state disk.old).block (D.state disk.new).block }
        ensures vault_outcomes { IsTrue V.told → Narrows (V.state vault.old).block (V.state vault.new).block }
        ensures foreign { IsTrue D.told → KeepsForeign n.0 (D.state disk.old).block (D.state disk.new).block }
        ensures halts { OnStop fault (Halts n self.old self.new (D.state disk.new) (V.state vault.new)) }
        ensures led { OnStop fault (IsTrue D.told → (m : Machine) → MayHalt n.0 self.old (D.state disk.new).block m → Stops n.0 m (Endures self.new (D.state disk.new).block)) }
        ensures down { OnStop fault (node_at self.new.nodes n.0 ≡ Down) }
        ensures kept { UnlessStopped fault (self.new ≡ self.old) }
    {
        match fault {
            DevFault::Stopped(_) | DevFault::Failed(_) => self.halt(disk, vault, n),
            DevFault::Lost(_) | DevFault::Damaged(_) => {
                disk.stop(n, 0);
                vault.stop(n, 0);
            }
        }
        fault_reply(fault)
    }

    /// Puts a node of the store to use that isn't: its ports start, and its log is read.
    ///
    /// Where a block of the log is lost or damaged, the node stays idle, and its ports stop again.
    pub fn start<D: Disk, V: Disk>(
        &mut self,
        disk: &mut D,
        vault: &mut V,
        n: NodeId,
    ) -> Result<(), Reply>
        requires node { IsPlace n.0 }
        requires known { n.0 ≤ self.old.shape.nodes }
        requires idle { node_at self.old.nodes n.0 ≡ Idle }
        requires ready { IsReady self.old (D.state disk.old) (V.state vault.old) }
        requires quiet { IsTrue D.told → IsQuiet self.old (D.state disk.old).block }
        ensures works { Works n.0 self.old self.new (D.state disk.old) (D.state disk.new) (V.state vault.old) (V.state vault.new) }
        ensures quiet { IsTrue D.told → IsQuiet self.new (D.state disk.new).block }
        ensures outcomes { IsTrue D.told → Narrows (D.state disk.old).block (D.state disk.new).block }
        ensures vault_outcomes { IsTrue V.told → Narrows (V.state vault.old).block (V.state vault.new).block }
        ensures cause { IfErr result (λ why. HasCause why (D.state disk.old) (D.state disk.new)) }
        ensures damaged { IfErr result (IsLogReply n.0 (region_of self.old.shape n.0)) }
        ensures told { IsTrue D.told → IfErr result (IsToldDamaged (region_of self.old.shape n.0) (contents (D.state disk.old).block)) }
        ensures up { OnOk result (is_up (node_at self.new.nodes n.0) ≡ true) }
        ensures shared { OnOk result (self.new.shared ≡ self.old.shared) }
        ensures down { IfErr result (λ why. says_stop why ≡ true → node_at self.new.nodes n.0 ≡ Down) }
        ensures halts { IfErr result (λ why. says_stop why ≡ true → Halts n self.old self.new (D.state disk.new) (V.state vault.new)) }
        ensures kept { IfErr result (λ why. says_stop why ≡ false → self.new ≡ self.old) }
        ensures shows { OnOk result (IsTrue D.told → (m : Machine) → IsShown self.old (D.state disk.old).block m → IsShown self.new (D.state disk.new).block (one (Start n.0) m)) }
        ensures led { IsTrue D.told → (m : Machine) → Endures self.old (D.state disk.old).block m → Led n.0 result (Start n.0 ∷ []) m (Endures self.new (D.state disk.new).block) }
        ensures stopped { IfErr result (λ why. IsTrue D.told → (m : Machine) → IsShown self.old (D.state disk.old).block m → says_stop why ≡ true) }
    {
        disk.start(n);
        vault.start(n);
        match Log::attach(disk, &self.shape, n, n) {
            Ok(log) => {
                let cache = NodeCache::new(log, n);
                cache.law_of_pages();
                self.bring_up(n, cache, Seats::new(n));
                Ok(())
            }
            Err(fault) => Err(self.leave_out(disk, vault, n, fault)),
        }
    }
}
