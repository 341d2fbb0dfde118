//! A dump is answered, one record at a time and in the order of the keys.

ghost use Rattle.std.specs.Prelude.{◌≡◌, ◌≢◌, true, false, ℕ, Some, None, IsTrue};
ghost use Rattle.sd_base.specs.Calls.{Narrows};
ghost use Rattle.private_log.specs.Reading.{contents};
ghost use Rattle.script_text.specs.Command.{InRange};
ghost use Rattle.script_text.specs.declared.command.Command.TheVariants as asks;
ghost use Rattle.script_text.specs.declared.reply.Reply.{Reply};
ghost use Rattle.record_machine.specs.Machine.{Machine};
ghost use Rattle.record_machine.specs.Rows.{next_key};
ghost use Rattle.record_machine.specs.Steps.{RowOrStop};
ghost use Rattle.store_nodes.specs.declared.node.Node.TheVariants.{Down};
ghost use Rattle.store_nodes.specs.Causes.{IsToldOfPages};
ghost use Rattle.store_nodes.specs.Known.{known};
ghost use Rattle.store_nodes.specs.Nodes.{node_at};
ghost use Rattle.store_nodes.specs.Pages.{KeepsWork};
ghost use Rattle.store_nodes.specs.Ports.{HasCause, IsQuiet, IsReady, IsStopReply, WorksWith, WritesWith, says_stop};
ghost use Rattle.store_nodes.specs.Shows.{IsShown};
ghost use Rattle.cluster_core.specs.Answers.{IsRowAnswer};

use crate::cluster::Cluster;
use crate::replies::key_behind;
use script_text::{Command, Reply};
use sd_base::{Arm, Key, NodeId};
use store_commands::{find_record, reply_row};

impl Cluster {
    /// Answers a dump, one record at a time: the record with the least key behind this one, or the least
    /// of all.
    ///
    /// What is refused for what is in memory is refused before anything is done. Where a device call stops
    /// a node, that node goes down.
    pub fn next_record<D: Arm, V: Arm>(
        &mut self,
        disk: &mut D,
        vault: &mut V,
        n: NodeId,
        after: Option<Key>,
    ) -> Reply
        requires range { InRange (asks.Dump n) }
        requires ready { IsReady self.old (D.state disk.old) (V.state vault.old) }
        requires quiet { IsTrue D.told → IsQuiet self.old (D.state disk.old).block }
        ensures works { WorksWith n.0 (λ h. IsStopReply h result) self.old self.new (D.state disk.old) (D.state disk.new) (V.state vault.old) (V.state vault.new) }
        ensures writes { IsTrue D.told → WritesWith n.0 self.old self.new (D.state disk.old).block (D.state disk.new).block }
        ensures vault_outcomes { IsTrue V.told → Narrows (V.state vault.old).block (V.state vault.new).block }
        ensures cause { result ≢ Reply.NoMore → HasCause result (D.state disk.old) (D.state disk.new) }
        ensures down { (h : ℕ) → IsStopReply h result → node_at self.new.nodes h ≡ Down }
        ensures known { (why : Reply) → known self.old (asks.Dump n) ≡ Some why → (result ≡ why) × (self.new ≡ self.old) × (disk.new ≡ disk.old) × (vault.new ≡ vault.old) }
        ensures answer { known self.old (asks.Dump n) ≡ None → IsRowAnswer self.old self.new n.0 (next_key after) result }
        ensures told { IsTrue D.told → known self.old (asks.Dump n) ≡ None → IsToldOfPages self.old.shape (contents (D.state disk.new).block) result }
        ensures refused { says_stop result ≡ false → KeepsWork n.0 self.old self.new }
        ensures step { IsTrue D.told → says_stop result ≡ false → (m : Machine) → IsShown self.old (D.state disk.old).block m → RowOrStop m n (next_key after) result (IsShown self.new (D.state disk.new).block) }
    {
        let store = &mut self.store;
        if let Err(why) = store.check(&Command::Dump(n)) {
            return why;
        }
        reply_row(find_record(store, disk, vault, n, key_behind(after)))
    }
}
