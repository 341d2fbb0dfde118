//! The command `get`: the record of a key as a transaction sees it.

ghost use Rattle.std.specs.Prelude.{◌≡◌, ◌≤◌, true, false, ℕ, None, IsTrue, IsOk, IfErr, IfNone, IfOk, IfSome, OnOk};
ghost use Rattle.sd_base.specs.Calls.{Narrows};
ghost use Rattle.sd_base.specs.Places.{slot_of_key};
ghost use Rattle.page_image.specs.declared.page_view.PageView.{PageView};
ghost use Rattle.compensation.specs.Inverse.{content};
ghost use Rattle.private_log.specs.Reading.{contents};
ghost use Rattle.record_locks.specs.declared.mode.Mode.TheVariants as locks;
ghost use Rattle.record_locks.specs.Answer.{lock_answer, may_take};
ghost use Rattle.script_text.specs.declared.command.Command.TheVariants as asks;
ghost use Rattle.record_machine.specs.Commands.{MayAnswer, parts, takes};
ghost use Rattle.record_machine.specs.Machine.{Machine, home};
ghost use Rattle.record_machine.specs.Parts.{dos};
ghost use Rattle.store_nodes.specs.declared.node.Node.TheVariants.{Down};
ghost use Rattle.store_nodes.specs.Causes.{IsToldOfPages};
ghost use Rattle.store_nodes.specs.Nodes.{IsPlace, IsStore, is_up, node_at};
ghost use Rattle.store_nodes.specs.Pages.{HasCached, KeepsWork, ShowsData};
ghost use Rattle.store_nodes.specs.Ports.{HasCause, IsQuiet, IsReady, IsStopReply, SaysStopOf, UnlessStop, WorksWith, WritesWith, says_stop};
ghost use Rattle.store_nodes.specs.Shows.{IsShown};
ghost use Rattle.store_commands.specs.Answering.{reply_found};
ghost use Rattle.store_commands.specs.AtHand.{HasBoth, MakesRoomWith};
ghost use Rattle.store_commands.specs.Faults.{IsFaultFor};
ghost use Rattle.store_commands.specs.Reasons.{IsFoundIn};
ghost use Rattle.store_commands.specs.Taking.{UnlessHeld};

use crate::group_page::take_group;
use record_locks::Mode;
use script_text::Reply;
use sd_base::{Disk, Key, NodeId, PageNo, TxnId, Value};
use store_nodes::Store;
use store_pages::slot_of;

/// The record of a key, where its group may have this page, which the node has cached.
pub fn record_in(store: &Store, n: NodeId, home: Option<PageNo>, key: Key) -> Option<Value>
    requires node { IsPlace n.0 }
    requires is { IsStore store.now }
    requires up { is_up (node_at store.now.nodes n.0) ≡ true }
    requires cached { IfSome home (λ x. (store.now.shape.maps ≤ x.0) × HasCached store.now n.0 x) }
    ensures none { IfNone home (result ≡ None) }
    ensures some { IfSome home (λ x. (v : PageView) → ShowsData store.now n.0 x v → result ≡ content v (slot_of_key key.0)) }
    ensures there { IfSome home (λ x. (v : PageView) × ShowsData store.now n.0 x v) }
{
    match home {
        Some(x) => slot_of(store, n, x, key.slot()),
        None => None,
    }
}

/// The record of a key as the transaction sees it, where it may have the lock to read it.
///
/// Where a node that is down holds a page of it, that is answered, and no lock is taken.
pub fn get<D: Disk, V: Disk>(
    store: &mut Store,
    disk: &mut D,
    vault: &mut V,
    t: TxnId,
    key: Key,
) -> Result<Option<Value>, Reply>
    requires node { IsPlace t.node.0 }
    requires up { is_up (node_at store.old.nodes t.node.0) ≡ true }
    requires lock { IsTrue (may_take (lock_answer store.old.shared.locks key t locks.Read)) }
    requires ready { IsReady store.old (D.state disk.old) (V.state vault.old) }
    requires quiet { IsTrue D.told → IsQuiet store.old (D.state disk.old).block }
    ensures works { WorksWith t.node.0 (SaysStopOf result) store.old store.new (D.state disk.old) (D.state disk.new) (V.state vault.old) (V.state vault.new) }
    ensures writes { IsTrue D.told → WritesWith t.node.0 store.old store.new (D.state disk.old).block (D.state disk.new).block }
    ensures vault_outcomes { IsTrue V.told → Narrows (V.state vault.old).block (V.state vault.new).block }
    ensures cause { IfErr result (λ why. HasCause why (D.state disk.old) (D.state disk.new)) }
    ensures read { IfOk result (IsFoundIn store.new t.node.0 key) }
    ensures fault { IfErr result (IsFaultFor store.old t.node.0 key) }
    ensures told { IsTrue D.told → IfErr result (IsToldOfPages store.old.shape (contents (D.state disk.new).block)) }
    ensures down { IfErr result (λ why. (h : ℕ) → IsStopReply h why → node_at store.new.nodes h ≡ Down) }
    ensures up { OnOk result (is_up (node_at store.new.nodes t.node.0) ≡ true) }
    ensures answer { OnOk result (IsTrue D.told → (m : Machine) → IsShown store.old (D.state disk.old).block m → MayAnswer m (asks.Get t key) (reply_found result)) }
    ensures kept { IfErr result (λ why. says_stop why ≡ false → KeepsWork t.node.0 store.old store.new) }
    ensures step { IsTrue D.told → (m : Machine) → IsShown store.old (D.state disk.old).block m
        → UnlessStop result (UnlessHeld m (takes m (asks.Get t key)) result (IsShown store.new (D.state disk.new).block) ((IsOk result) × IsShown store.new (D.state disk.new).block (dos (parts m (asks.Get t key)) m))) }
    ensures taken { OnOk result (IsTrue D.told → (m : Machine) → IsShown store.old (D.state disk.old).block m → HasBoth store.new t.node.0 m key.0 (home m key.0)) }
    ensures made_room { OnOk result (IsTrue D.told → MakesRoomWith t.node key store.old store.new (D.state disk.old).block (D.state disk.new).block) }
{
    let home = take_group(store, disk, vault, t.node, key)?;
    let value = record_in(store, t.node, home, key);
    store.shared.locks.take(key, t, Mode::Read);
    Ok(value)
}
