//! A node goes down where its port stops or fails, and each device fault gets its reply.

ghost use Rattle.std.specs.Prelude.{◌≡◌, ℕ, true, false, IsTrue};
ghost use Rattle.sd_base.specs.Calls.{KeepsForeign, Narrows};
ghost use Rattle.sd_base.specs.Faults.{OnStop};
ghost use Rattle.sd_base.specs.Shape.{IsShape, first_page};
ghost use Rattle.page_owner.specs.Owners.{owner_of};
ghost use Rattle.node_cache.specs.Room.{freed, given_up};
ghost use Rattle.state_ids.specs.Blocks.{UnlessStopped};
ghost use Rattle.store_nodes.specs.declared.node.Node.TheVariants.{Down};
ghost use Rattle.record_machine.specs.Machine.{Machine};
ghost use Rattle.store_nodes.specs.Endures.{Endures, MayHalt, Stops};
ghost use Rattle.store_nodes.specs.Halting.{Halts, LosesTables};
ghost use Rattle.store_nodes.specs.Nodes.{IsPlace, IsStore, IsStoreBut, KeepsFramesBut, any_up, node_at, pages_of, with_node};
ghost use Rattle.store_nodes.specs.Ports.{IsQuiet, IsQuietBut, IsReady, IsServedBut, Works, reply_to};

use crate::node::{Node, any_up, place};
use crate::store::Store;
use script_text::Reply;
use sd_base::{DevFault, Disk, NodeId, PageNo, Shape};
use std::mem;

/// What a fault of a device call is answered.
fn fault_reply(s: &Shape, fault: DevFault) -> Reply
    requires { IsShape s.now }
    ensures { result ≡ reply_to (first_page s.now) fault }
{
    match fault {
        DevFault::Stopped(n) => Reply::Stopped(n),
        DevFault::Failed(n) => Reply::Fault(n),
        DevFault::Lost(at) => {
            let first = s.page_block(PageNo(0)).0;
            if first <= at.0 {
                Reply::LostPage(PageNo(at.0 - first))
            } else {
                Reply::DamagedDisk(at)
            }
        }
        DevFault::Damaged(at) => Reply::DamagedDisk(at),
    }
}

impl Store {
    /// Ends the cache of a node whose port has stopped: the node is down then, its frames are free, and
    /// its pages are parked.
    pub fn take_down<D: Disk>(&mut self, disk: &D, n: NodeId)
        requires node { IsPlace n.0 }
        requires stopped { (D.state disk.now).live n.0 ≡ false }
        requires is { IsStoreBut n.0 self.old }
        ensures is { IsStore self.new }
        ensures shape { self.new.shape ≡ self.old.shape }
        ensures nodes { self.new.nodes ≡ with_node self.old.nodes n.0 Down }
        ensures pool { self.new.shared.pool ≡ freed (pages_of (node_at self.old.nodes n.0)) self.old.shared.pool }
        ensures owners { (x : ℕ) → owner_of self.new.shared.owners x ≡ given_up n (owner_of self.old.shared.owners x) }
        ensures locks { self.new.shared.locks ≡ self.old.shared.locks }
        ensures reopening { self.new.shared.reopening ≡ self.old.shared.reopening }
        ensures frames { KeepsFramesBut n.0 self.old.nodes self.old.shared.pool self.new.shared.pool }
    {
        match mem::replace(&mut self.nodes[place(n)], Node::Down) {
            Node::Up(cache, _seats) => cache.wreck(
                disk,
                &mut self.shared.pool,
                &mut self.shared.owners,
            ),
            Node::Idle | Node::Down => (),
        }
    }

    /// Where no node is up, the tables of locks and owners are lost.
    fn lose_tables(&mut self)
        requires is { IsStore self.old }
        ensures is { IsStore self.new }
        ensures shape { self.new.shape ≡ self.old.shape }
        ensures nodes { self.new.nodes ≡ self.old.nodes }
        ensures pool { self.new.shared.pool ≡ self.old.shared.pool }
        ensures kept { any_up self.old.nodes ≡ true → self.new.shared ≡ self.old.shared }
        ensures lost { any_up self.old.nodes ≡ false → LosesTables self.new }
    {
        if !any_up(&self.nodes) {
            self.shared.owners.drop_all();
            self.shared.locks.drop_all();
            self.shared.reopening = true;
        }
    }

    /// Takes a node down: its ports stop, its transactions are gone, and what is changed in its cache is to
    /// be redone from its log. Its locks to write stay, and its pages stay its own. Where no node is up any
    /// more, the tables of locks and owners are lost.
    pub fn halt<D: Disk, V: Disk>(&mut self, disk: &mut D, vault: &mut V, n: NodeId)
        requires node { IsPlace n.0 }
        requires is { IsStoreBut n.0 self.old }
        requires served { IsServedBut n.0 self.old (D.state disk.old) (V.state vault.old) }
        requires quiet { IsTrue D.told → IsQuietBut n.0 self.old (D.state disk.old).block }
        ensures works { Works n.0 self.old self.new (D.state disk.old) (D.state disk.new) (V.state vault.old) (V.state vault.new) }
        ensures quiet { IsTrue D.told → IsQuiet self.new (D.state disk.new).block }
        ensures outcomes { IsTrue D.told → Narrows (D.state disk.old).block (D.state disk.new).block }
        ensures foreign { IsTrue D.told → KeepsForeign n.0 (D.state disk.old).block (D.state disk.new).block }
        ensures vault_outcomes { IsTrue V.told → Narrows (V.state vault.old).block (V.state vault.new).block }
        ensures halts { Halts n self.old self.new (D.state disk.new) (V.state vault.new) }
        ensures led { IsTrue D.told → (m : Machine) → MayHalt n.0 self.old (D.state disk.new).block m → Stops n.0 m (Endures self.new (D.state disk.new).block) }
    {
        disk.stop(n, 0);
        vault.stop(n, 0);
        self.take_down(disk, n);
        self.shared.locks.retain_node(n);
        self.lose_tables();
    }

    /// What a fault of a device call is answered. Where the port of the node stopped, the node goes down;
    /// else nothing changes.
    pub fn give_up<D: Disk, V: Disk>(
        &mut self,
        disk: &mut D,
        vault: &mut V,
        n: NodeId,
        fault: DevFault,
    ) -> Reply
        requires node { IsPlace n.0 }
        requires is { IsStoreBut n.0 self.old }
        requires served { IsServedBut n.0 self.old (D.state disk.old) (V.state vault.old) }
        requires quiet { IsTrue D.told → IsQuietBut n.0 self.old (D.state disk.old).block }
        requires ready { UnlessStopped fault (IsReady self.old (D.state disk.old) (V.state vault.old)) }
        requires quiet_all { UnlessStopped fault (IsTrue D.told → IsQuiet self.old (D.state disk.old).block) }
        ensures says { result ≡ reply_to (first_page self.old.shape) fault }
        ensures works { Works n.0 self.old self.new (D.state disk.old) (D.state disk.new) (V.state vault.old) (V.state vault.new) }
        ensures quiet { IsTrue D.told → IsQuiet self.new (D.state disk.new).block }
        ensures outcomes { IsTrue D.told → Narrows (D.state disk.old).block (D.state disk.new).block }
        ensures foreign { IsTrue D.told → KeepsForeign n.0 (D.state disk.old).block (D.state disk.new).block }
        ensures vault_outcomes { IsTrue V.told → Narrows (V.state vault.old).block (V.state vault.new).block }
        ensures halts { OnStop fault (Halts n self.old self.new (D.state disk.new) (V.state vault.new)) }
        ensures kept { UnlessStopped fault ((self.new ≡ self.old) × (disk.new ≡ disk.old) × (vault.new ≡ vault.old)) }
        ensures led { OnStop fault (IsTrue D.told → (m : Machine) → MayHalt n.0 self.old (D.state disk.new).block m → Stops n.0 m (Endures self.new (D.state disk.new).block)) }
    {
        match fault {
            DevFault::Stopped(_) | DevFault::Failed(_) => self.halt(disk, vault, n),
            DevFault::Lost(_) | DevFault::Damaged(_) => (),
        }
        fault_reply(&self.shape, fault)
    }
}
