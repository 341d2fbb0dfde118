//! The command `abort`: what a transaction has written is taken back, once all pages for it are there.

ghost use Rattle.std.specs.Prelude.{◌≡◌, ◌<◌, ◌≤◌, ℕ, true, false, Some, IsTrue, IsOk, IfErr, OnOk};
ghost use Rattle.sd_base.specs.Calls.{Narrows};
ghost use Rattle.sd_base.specs.Shape.{page_count};
ghost use Rattle.txn_core.specs.Seats.{OpenTxn, txn_in};
ghost use Rattle.script_text.specs.declared.command.Command.TheVariants as asks;
ghost use Rattle.record_machine.specs.Commands.{backs, parts, takes, takes_back};
ghost use Rattle.record_machine.specs.Machine.{Deed, Machine, Write, newest_of};
ghost use Rattle.record_machine.specs.Parts.{Back, dos, one};
ghost use Rattle.record_machine.specs.Steps.{held};
ghost use Rattle.store_nodes.specs.declared.node.Node.TheVariants.{Down};
ghost use Rattle.store_nodes.specs.Nodes.{IsPlace, OnUp, is_up, node_at};
ghost use Rattle.store_nodes.specs.Pages.{KeepsWork, LeavesLess, has_txn};
ghost use Rattle.store_nodes.specs.Ports.{HasCause, IsQuiet, IsReady, IsStopReply, SaysStopOf, UnlessStop, WorksWith, WritesWith, says_stop};
ghost use Rattle.store_nodes.specs.Shows.{IsShown};
ghost use Rattle.store_pages.specs.Holders.{AreFree};
ghost use Rattle.store_commands.specs.Aborts.{HoldsBoth, HoldsWritten, IsAbortFault, IsToldOfAbort, KeepsOpen, Leaves, RefusesHeld, takes_page};
ghost use Rattle.store_commands.specs.Answering.{Answers, reply_of};
ghost use Rattle.store_commands.specs.Taking.{UnlessHeld};

use crate::abort_pages::{take_if_gone, take_update};
use script_text::Reply;
use sd_base::{Disk, PageNo, TxnId};
use store_nodes::Store;
use store_pages::{test_holders, test_room, update_after};
use txn_core::Ending;

/// Takes the page of an update of the transaction, after its map page, and tests that it has room for what
/// is to be taken back of it.
fn take_with_room<D: Disk, V: Disk>(
    store: &mut Store,
    disk: &mut D,
    vault: &mut V,
    t: TxnId,
    x: PageNo,
) -> Result<(), Reply>
    requires node { IsPlace t.node.0 }
    requires up { is_up (node_at store.old.nodes t.node.0) ≡ true }
    requires seat { t.seat ≤ 7 }
    requires busy { has_txn (node_at store.old.nodes t.node.0) t ≡ true }
    requires data { store.old.shape.maps ≤ x.0 }
    requires page { x.0 < page_count store.old.shape }
    requires ready { IsReady store.old (D.state disk.old) (V.state vault.old) }
    requires quiet { IsTrue D.told → IsQuiet store.old (D.state disk.old).block }
    ensures leaves { Leaves D.told V.told t.node.0 result store.old store.new (D.state disk.old) (D.state disk.new) (V.state vault.old) (V.state vault.new) }
    ensures work { UnlessStop result (KeepsWork t.node.0 store.old store.new) }
    ensures fault { IfErr result (IsAbortFault store.old t.node.0) }
    ensures told { IsTrue D.told → IfErr result (IsToldOfAbort store.new (D.state disk.new).block t) }
    ensures step { IsTrue D.told → (m : Machine) → IsShown store.old (D.state disk.old).block m
        → UnlessStop result (UnlessHeld m (takes_page store.old.shape t.node.0 x) result (IsShown store.new (D.state disk.new).block) ((IsOk result) × IsShown store.new (D.state disk.new).block (dos (takes_page store.old.shape t.node.0 x) m))) }
{
    take_update(store, disk, vault, t.node, x)?;
    test_room(store, disk, vault, t, x)
}

/// Takes the pages of all updates that are left of a transaction, the newest first, so that each is known to
/// be there and to have room before the first one is taken back.
fn take_updates<D: Disk, V: Disk>(
    store: &mut Store,
    disk: &mut D,
    vault: &mut V,
    t: TxnId,
) -> Result<(), Reply>
    requires node { IsPlace t.node.0 }
    requires up { is_up (node_at store.old.nodes t.node.0) ≡ true }
    requires seat { t.seat ≤ 7 }
    requires busy { has_txn (node_at store.old.nodes t.node.0) t ≡ true }
    requires ready { IsReady store.old (D.state disk.old) (V.state vault.old) }
    requires quiet { IsTrue D.told → IsQuiet store.old (D.state disk.old).block }
    ensures leaves { Leaves D.told V.told t.node.0 result store.old store.new (D.state disk.old) (D.state disk.new) (V.state vault.old) (V.state vault.new) }
    ensures work { UnlessStop result (KeepsWork t.node.0 store.old store.new) }
    ensures fault { IfErr result (IsAbortFault store.old t.node.0) }
    ensures told { IsTrue D.told → IfErr result (IsToldOfAbort store.new (D.state disk.new).block t) }
    ensures step { IsTrue D.told → (m : Machine) → IsShown store.old (D.state disk.old).block m
        → UnlessStop result (UnlessHeld m (takes_back m t) result (IsShown store.new (D.state disk.new).block) ((IsOk result) × IsShown store.new (D.state disk.new).block (dos (takes_back m t) m))) }
{
    let mut after = None;
    while let Some((number, x)) = update_after(store, disk, vault, t, after)? {
        take_with_room(store, disk, vault, t, x)?;
        after = Some(number);
    }
    Ok(())
}

/// Takes the pages of all updates that are left of a transaction. Before the first one is read, or taken,
/// all of them are tested: where a node that is down has one, nothing has changed.
fn take_pages<D: Disk, V: Disk>(
    store: &mut Store,
    disk: &mut D,
    vault: &mut V,
    t: TxnId,
) -> Result<(), Reply>
    requires node { IsPlace t.node.0 }
    requires up { is_up (node_at store.old.nodes t.node.0) ≡ true }
    requires seat { t.seat ≤ 7 }
    requires busy { has_txn (node_at store.old.nodes t.node.0) t ≡ true }
    requires ready { IsReady store.old (D.state disk.old) (V.state vault.old) }
    requires quiet { IsTrue D.told → IsQuiet store.old (D.state disk.old).block }
    ensures leaves { Leaves D.told V.told t.node.0 result store.old store.new (D.state disk.old) (D.state disk.new) (V.state vault.old) (V.state vault.new) }
    ensures work { UnlessStop result (KeepsWork t.node.0 store.old store.new) }
    ensures fault { IfErr result (IsAbortFault store.old t.node.0) }
    ensures told { IsTrue D.told → IfErr result (IsToldOfAbort store.new (D.state disk.new).block t) }
    ensures free { OnOk result (IsTrue D.told → AreFree store.old (D.state disk.old).block t) }
    ensures held { IsTrue D.told → RefusesHeld store.old store.new (D.state disk.old).block (D.state disk.new).block t (reply_of result) }
    ensures step { IsTrue D.told → (m : Machine) → IsShown store.old (D.state disk.old).block m
        → UnlessStop result (Answers (held m (takes_back m t)) result (IsShown store.new (D.state disk.new).block (dos (takes_back m t) m)) (IsShown store.new (D.state disk.new).block m)) }
{
    test_holders(store, disk, vault, t)?;
    take_updates(store, disk, vault, t)
}

/// Takes back an update that is left of a transaction, where this is its page. A page that has left the
/// cache since it was taken is taken anew.
fn take_back_on<D: Disk, V: Disk>(
    store: &mut Store,
    disk: &mut D,
    vault: &mut V,
    t: TxnId,
    x: PageNo,
) -> Result<(), Reply>
    requires node { IsPlace t.node.0 }
    requires up { is_up (node_at store.old.nodes t.node.0) ≡ true }
    requires seat { t.seat ≤ 7 }
    requires busy { has_txn (node_at store.old.nodes t.node.0) t ≡ true }
    requires data { store.old.shape.maps ≤ x.0 }
    requires page { x.0 < page_count store.old.shape }
    requires ready { IsReady store.old (D.state disk.old) (V.state vault.old) }
    requires quiet { IsTrue D.told → IsQuiet store.old (D.state disk.old).block }
    ensures leaves { Leaves D.told V.told t.node.0 result store.old store.new (D.state disk.old) (D.state disk.new) (V.state vault.old) (V.state vault.new) }
    ensures open { UnlessStop result (KeepsOpen t store.old store.new) }
    ensures fault { IfErr result (IsAbortFault store.old t.node.0) }
    ensures told { IsTrue D.told → IfErr result (IsToldOfAbort store.new (D.state disk.new).block t) }
    ensures fewer { OnOk result (OnUp (node_at store.old.nodes t.node.0) (λ c old. OnUp (node_at store.new.nodes t.node.0) (λ d new. LeavesLess t.seat old new))) }
    ensures shows { OnOk result (IsTrue D.told → (m : Machine) (d : Deed) (w : Write) → newest_of m t ≡ Some d → d.write ≡ Some w → w.page ≡ x.0 → HoldsBoth m t.node.0 x
        → IsShown store.old (D.state disk.old).block m → IsShown store.new (D.state disk.new).block (one (Back t) m)) }
    ensures stopped { IfErr result (λ why. IsTrue D.told → (m : Machine) (d : Deed) (w : Write) → newest_of m t ≡ Some d → d.write ≡ Some w → w.page ≡ x.0 → HoldsBoth m t.node.0 x
        → IsShown store.old (D.state disk.old).block m → says_stop why ≡ true) }
{
    take_if_gone(store, disk, vault, t.node, x)?;
    test_room(store, disk, vault, t, x)?;
    store.take_back_one(disk, vault, t)
}

/// Takes back all updates that are left of a transaction, the newest first.
fn take_back_updates<D: Disk, V: Disk>(
    store: &mut Store,
    disk: &mut D,
    vault: &mut V,
    t: TxnId,
) -> Result<(), Reply>
    requires node { IsPlace t.node.0 }
    requires up { is_up (node_at store.old.nodes t.node.0) ≡ true }
    requires seat { t.seat ≤ 7 }
    requires busy { has_txn (node_at store.old.nodes t.node.0) t ≡ true }
    requires ready { IsReady store.old (D.state disk.old) (V.state vault.old) }
    requires quiet { IsTrue D.told → IsQuiet store.old (D.state disk.old).block }
    ensures leaves { Leaves D.told V.told t.node.0 result store.old store.new (D.state disk.old) (D.state disk.new) (V.state vault.old) (V.state vault.new) }
    ensures open { UnlessStop result (KeepsOpen t store.old store.new) }
    ensures fault { IfErr result (IsAbortFault store.old t.node.0) }
    ensures told { IsTrue D.told → IfErr result (IsToldOfAbort store.new (D.state disk.new).block t) }
    ensures nothing { OnOk result (OnUp (node_at store.new.nodes t.node.0) (λ c seats. (u : OpenTxn) → txn_in seats t.seat ≡ Some u → u.left ≡ 0)) }
    ensures shows { OnOk result (IsTrue D.told → (m : Machine) → HoldsWritten m t → IsShown store.old (D.state disk.old).block m → IsShown store.new (D.state disk.new).block (dos (backs m t) m)) }
    ensures stopped { IfErr result (λ why. IsTrue D.told → (m : Machine) → HoldsWritten m t → IsShown store.old (D.state disk.old).block m → says_stop why ≡ true) }
{
    while let Some((_, x)) = update_after(store, disk, vault, t, None)? {
        take_back_on(store, disk, vault, t, x)?;
    }
    Ok(())
}

/// Gives up an open transaction. The pages of all its updates are taken first, so that nothing is taken back
/// where one is lost or damaged, and before that it is tested that no node that is down has one; then the updates are taken back, the
/// newest first, the end becomes stable, and its locks are released.
pub fn abort<D: Disk, V: Disk>(
    store: &mut Store,
    disk: &mut D,
    vault: &mut V,
    t: TxnId,
) -> Result<(), Reply>
    requires node { IsPlace t.node.0 }
    requires up { is_up (node_at store.old.nodes t.node.0) ≡ true }
    requires seat { t.seat ≤ 7 }
    requires busy { has_txn (node_at store.old.nodes t.node.0) t ≡ true }
    requires ready { IsReady store.old (D.state disk.old) (V.state vault.old) }
    requires quiet { IsTrue D.told → IsQuiet store.old (D.state disk.old).block }
    ensures works { WorksWith t.node.0 (SaysStopOf result) store.old store.new (D.state disk.old) (D.state disk.new) (V.state vault.old) (V.state vault.new) }
    ensures writes { IsTrue D.told → WritesWith t.node.0 store.old store.new (D.state disk.old).block (D.state disk.new).block }
    ensures vault_outcomes { IsTrue V.told → Narrows (V.state vault.old).block (V.state vault.new).block }
    ensures cause { IfErr result (λ why. HasCause why (D.state disk.old) (D.state disk.new)) }
    ensures fault { IfErr result (IsAbortFault store.old t.node.0) }
    ensures told { IsTrue D.told → IfErr result (IsToldOfAbort store.new (D.state disk.new).block t) }
    ensures down { IfErr result (λ why. (h : ℕ) → IsStopReply h why → node_at store.new.nodes h ≡ Down) }
    ensures up { OnOk result (is_up (node_at store.new.nodes t.node.0) ≡ true) }
    ensures open { IfErr result (λ why. says_stop why ≡ false → KeepsOpen t store.old store.new) }
    ensures kept { IfErr result (λ why. says_stop why ≡ false → IsTrue D.told → (m : Machine) → IsShown store.old (D.state disk.old).block m → KeepsWork t.node.0 store.old store.new) }
    ensures held { IsTrue D.told → RefusesHeld store.old store.new (D.state disk.old).block (D.state disk.new).block t (reply_of result) }
    ensures step { IsTrue D.told → (m : Machine) → IsShown store.old (D.state disk.old).block m
        → UnlessStop result (Answers (held m (takes m (asks.Abort t))) result (IsShown store.new (D.state disk.new).block (dos (parts m (asks.Abort t)) m)) (IsShown store.new (D.state disk.new).block m)) }
{
    take_pages(store, disk, vault, t)?;
    take_back_updates(store, disk, vault, t)?;
    store.end(disk, vault, t, Ending::Abort)
}
