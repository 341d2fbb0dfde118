//! What a transaction wrote last is taken back.

ghost use Rattle.std.specs.Prelude.{◌≡◌, ◌≤◌, ◌∷◌, [], true, false, Some, IsTrue, IfErr, OnOk};
ghost use Rattle.sd_base.specs.Calls.{Narrows};
ghost use Rattle.private_log.specs.Content.{region_of};
ghost use Rattle.node_cache.specs.Cache.{is_cached};
ghost use Rattle.txn_core.specs.Seats.{is_busy};
ghost use Rattle.record_machine.specs.Led.{Led};
ghost use Rattle.record_machine.specs.Machine.{Deed, Machine, Write, newest_of};
ghost use Rattle.record_machine.specs.Parts.{Back, one};
ghost use Rattle.store_nodes.specs.declared.node.Node.TheVariants.{Down};
ghost use Rattle.store_nodes.specs.Causes.{IsLogReply};
ghost use Rattle.store_nodes.specs.Endures.{Endures};
ghost use Rattle.store_nodes.specs.Nodes.{IsPlace, OnUp, is_up, node_at};
ghost use Rattle.store_nodes.specs.Pages.{LeavesLess};
ghost use Rattle.store_nodes.specs.Ports.{HasCause, IsQuiet, IsReady, IsStopReply, Works, Writes, says_stop};
ghost use Rattle.store_nodes.specs.Shows.{IsShown};

use crate::node::{Node, place};
use crate::store::Store;
use script_text::Reply;
use sd_base::{Disk, TxnId};

impl Store {
    /// Takes back the newest update that is left of a transaction. Its node has its page cached, with room
    /// for one more change; else a block of the log is said to be damaged, and nothing is changed.
    pub fn take_back_one<D: Disk, V: Disk>(
        &mut self,
        disk: &mut D,
        vault: &mut V,
        t: TxnId,
    ) -> Result<(), Reply>
        requires node { IsPlace t.node.0 }
        requires up { is_up (node_at self.old.nodes t.node.0) ≡ true }
        requires seat { t.seat ≤ 7 }
        requires busy { OnUp (node_at self.old.nodes t.node.0) (λ c seats. IsTrue (is_busy seats t.seat)) }
        requires ready { IsReady self.old (D.state disk.old) (V.state vault.old) }
        requires quiet { IsTrue D.told → IsQuiet self.old (D.state disk.old).block }
        ensures works { Works t.node.0 self.old self.new (D.state disk.old) (D.state disk.new) (V.state vault.old) (V.state vault.new) }
        ensures writes { IsTrue D.told → Writes t.node.0 self.old self.new (D.state disk.old).block (D.state disk.new).block }
        ensures vault_outcomes { IsTrue V.told → Narrows (V.state vault.old).block (V.state vault.new).block }
        ensures cause { IfErr result (λ why. HasCause why (D.state disk.old) (D.state disk.new)) }
        ensures fault { IfErr result (IsLogReply t.node.0 (region_of self.old.shape t.node.0)) }
        ensures up { OnOk result (is_up (node_at self.new.nodes t.node.0) ≡ true) }
        ensures down { IfErr result (λ why. says_stop why ≡ true → node_at self.new.nodes t.node.0 ≡ Down) }
        ensures kept { IfErr result (λ why. says_stop why ≡ false → self.new ≡ self.old) }
        ensures locks { OnOk result (self.new.shared.locks ≡ self.old.shared.locks) }
        ensures reopening { OnOk result (self.new.shared.reopening ≡ self.old.shared.reopening) }
        ensures owners { OnOk result (self.new.shared.owners ≡ self.old.shared.owners) }
        ensures busy { OnOk result (OnUp (node_at self.new.nodes t.node.0) (λ c seats. IsTrue (is_busy seats t.seat))) }
        ensures fewer { OnOk result (OnUp (node_at self.old.nodes t.node.0) (λ c old. OnUp (node_at self.new.nodes t.node.0) (λ d new. LeavesLess t.seat old new))) }
        ensures shows { OnOk result (IsTrue D.told → (m : Machine) (d : Deed) (w : Write) → newest_of m t ≡ Some d → d.write ≡ Some w → OnUp (node_at self.old.nodes t.node.0) (λ c seats. IsTrue (is_cached (record { 0 = w.page }) c))
            → IsShown self.old (D.state disk.old).block m → IsShown self.new (D.state disk.new).block (one (Back t) m)) }
        ensures stopped { IfErr result (λ why. IsTrue D.told → (m : Machine) (d : Deed) (w : Write) → newest_of m t ≡ Some d → d.write ≡ Some w → OnUp (node_at self.old.nodes t.node.0) (λ c seats. IsTrue (is_cached (record { 0 = w.page }) c))
            → IsShown self.old (D.state disk.old).block m → IsStopReply t.node.0 why) }
        ensures led { IsTrue D.told → (m : Machine) (d : Deed) (w : Write) → newest_of m t ≡ Some d → d.write ≡ Some w → OnUp (node_at self.old.nodes t.node.0) (λ c seats. IsTrue (is_cached (record { 0 = w.page }) c)) → m.reopening ≡ false
            → Endures self.old (D.state disk.old).block m → Led t.node.0 result (Back t ∷ []) m (Endures self.new (D.state disk.new).block) }
    {
        let fault = match &mut self.nodes[place(t.node)] {
            Node::Up(cache, seats) => {
                let pool = &mut self.shared.pool;
                let done = seats.take_back_one(disk, pool, cache, t.seat);
                cache.law_of_pages();
                match done {
                    Ok(()) => return Ok(()),
                    Err(fault) => fault,
                }
            }
            Node::Idle | Node::Down => unreachable!(),
        };
        Err(self.give_up(disk, vault, t.node, fault))
    }
}
