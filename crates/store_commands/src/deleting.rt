//! The command `del`: the record of a key is deleted, if there is one.

ghost use Rattle.std.specs.Prelude.{◌≡◌, ◌≤◌, true, false, ℕ, None, IsTrue, IfErr, is_some, OnOk};
ghost use Rattle.sd_base.specs.Calls.{Narrows};
ghost use Rattle.private_log.specs.Reading.{contents};
ghost use Rattle.record_locks.specs.declared.mode.Mode.TheVariants as locks;
ghost use Rattle.record_locks.specs.Answer.{lock_answer, may_take};
ghost use Rattle.script_text.specs.declared.command.Command.TheVariants as asks;
ghost use Rattle.record_machine.specs.Commands.{no_deletion, parts, takes};
ghost use Rattle.record_machine.specs.Machine.{Machine, home, seen};
ghost use Rattle.record_machine.specs.Parts.{dos};
ghost use Rattle.txn_core.specs.declared.change.Change.TheVariants.{Delete};
ghost use Rattle.store_nodes.specs.declared.node.Node.TheVariants.{Down};
ghost use Rattle.store_nodes.specs.Causes.{IsToldOfPages};
ghost use Rattle.store_nodes.specs.Nodes.{IsPlace, is_up, node_at};
ghost use Rattle.store_nodes.specs.Pages.{KeepsWork, has_txn};
ghost use Rattle.store_nodes.specs.Ports.{HasCause, IsQuiet, IsReady, IsStopReply, SaysStopOf, UnlessStop, WorksWith, WritesWith, says_stop};
ghost use Rattle.store_nodes.specs.Shows.{IsShown};
ghost use Rattle.store_commands.specs.Answering.{AnswersWith};
ghost use Rattle.store_commands.specs.AtHand.{HasBoth, IsAtHandToDelete, MakesRoomWith};
ghost use Rattle.store_commands.specs.Faults.{IsWriteReason};
ghost use Rattle.store_commands.specs.Reasons.{IsFoundIn};
ghost use Rattle.store_commands.specs.Taking.{UnlessHeld};

use crate::getting::record_in;
use crate::group_page::take_group;
use crate::putting::write_there;
use record_locks::Mode;
use script_text::Reply;
use sd_base::{Disk, Key, TxnId};
use store_nodes::Store;
use txn_core::Change;

/// Deletes the record of a key, if the transaction sees one, where that can be done; it answers whether
/// there was one. Where there is none, the transaction has the lock to write it nevertheless.
pub fn delete<D: Disk, V: Disk>(
    store: &mut Store,
    disk: &mut D,
    vault: &mut V,
    t: TxnId,
    key: Key,
) -> Result<bool, Reply>
    requires node { IsPlace t.node.0 }
    requires up { is_up (node_at store.old.nodes t.node.0) ≡ true }
    requires seat { t.seat ≤ 7 }
    requires busy { has_txn (node_at store.old.nodes t.node.0) t ≡ true }
    requires lock { IsTrue (may_take (lock_answer store.old.shared.locks key t locks.Write)) }
    requires ready { IsReady store.old (D.state disk.old) (V.state vault.old) }
    requires quiet { IsTrue D.told → IsQuiet store.old (D.state disk.old).block }
    ensures works { WorksWith t.node.0 (SaysStopOf result) store.old store.new (D.state disk.old) (D.state disk.new) (V.state vault.old) (V.state vault.new) }
    ensures writes { IsTrue D.told → WritesWith t.node.0 store.old store.new (D.state disk.old).block (D.state disk.new).block }
    ensures vault_outcomes { IsTrue V.told → Narrows (V.state vault.old).block (V.state vault.new).block }
    ensures cause { IfErr result (λ why. HasCause why (D.state disk.old) (D.state disk.new)) }
    ensures absent { result ≡ Ok false → IsFoundIn store.new t.node.0 key None }
    ensures refused { IfErr result (IsWriteReason store.old store.new t.node.0 key Delete) }
    ensures told { IsTrue D.told → IfErr result (IsToldOfPages store.old.shape (contents (D.state disk.new).block)) }
    ensures down { IfErr result (λ why. (h : ℕ) → IsStopReply h why → node_at store.new.nodes h ≡ Down) }
    ensures up { OnOk result (is_up (node_at store.new.nodes t.node.0) ≡ true) }
    ensures kept { IfErr result (λ why. says_stop why ≡ false → KeepsWork t.node.0 store.old store.new) }
    ensures step { IsTrue D.told → (m : Machine) → IsShown store.old (D.state disk.old).block m
        → UnlessStop result (UnlessHeld m (takes m (asks.Del t key)) result (IsShown store.new (D.state disk.new).block)
        (AnswersWith (is_some (seen m t key.0)) (no_deletion m t key.0) result (IsShown store.new (D.state disk.new).block (dos (parts m (asks.Del t key)) m)) (IsShown store.new (D.state disk.new).block (dos (takes m (asks.Del t key)) m)))) }
    ensures taken { OnOk result (IsTrue D.told → (m : Machine) → IsShown store.old (D.state disk.old).block m → HasBoth store.new t.node.0 m key.0 (home m key.0)) }
    ensures made_room { OnOk result (IsTrue D.told → MakesRoomWith t.node key store.old store.new (D.state disk.old).block (D.state disk.new).block) }
    ensures memory { IsAtHandToDelete store.old t.node.0 key.0 → (disk.new ≡ disk.old) × (vault.new ≡ vault.old) }
{
    let home = take_group(store, disk, vault, t.node, key)?;
    match (home, record_in(store, t.node, home, key)) {
        (Some(x), Some(_)) => {
            write_there(store, disk, vault, t, key, x, &Change::Delete)?;
            Ok(true)
        }
        _ => {
            store.shared.locks.take(key, t, Mode::Write);
            Ok(false)
        }
    }
}
