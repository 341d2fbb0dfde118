//! For an abort: whether a node that is down has a page of the updates that it is to take back.

ghost use Rattle.std.specs.Prelude.{◌≡◌, ◌<◌, ◌≤◌, [], true, false, IsTrue, IfErr, OnOk};
ghost use Rattle.sd_base.specs.Calls.{Narrows};
ghost use Rattle.sd_base.specs.Shape.{page_count};
ghost use Rattle.record_machine.specs.Commands.{takes_back};
ghost use Rattle.record_machine.specs.Led.{LedOnStop};
ghost use Rattle.record_machine.specs.Machine.{Machine};
ghost use Rattle.record_machine.specs.Steps.{held};
ghost use Rattle.txn_core.specs.Seats.{is_busy};
ghost use Rattle.store_nodes.specs.declared.node.Node.TheVariants.{Down};
ghost use Rattle.store_nodes.specs.Endures.{Endures};
ghost use Rattle.store_nodes.specs.Known.{checked, held_in};
ghost use Rattle.store_nodes.specs.Nodes.{IsPlace, IsStore, OnUp, is_up, node_at};
ghost use Rattle.store_nodes.specs.Ports.{HasCause, IsQuiet, IsReady, UnlessStop, Works, Writes, says_stop};
ghost use Rattle.store_nodes.specs.Shows.{IsShown};
ghost use Rattle.store_pages.specs.Holders.{IsHolderReply, TestsHolders, held_both};

use crate::abort_updates::update_after;
use page_owner::Own;
use script_text::Reply;
use sd_base::{Disk, PageNo, TxnId};
use store_nodes::Store;

/// Tests that no node that is down has a page.
fn test_holder(store: &Store, x: PageNo) -> Result<(), Reply>
    requires is { IsStore store.now }
    requires page { x.0 < page_count store.now.shape }
    ensures { result ≡ checked (held_in store.now x) }
{
    let h = match store.shared.owners.state(x) {
        Own::Nobody => return Ok(()),
        Own::Parked(h) | Own::Out(h) => h,
    };
    if store.node(h).is_up() {
        Ok(())
    } else {
        Err(Reply::Held(x, h))
    }
}

/// Tests that no node that is down has the map page with the entry of a data page, or that page.
fn test_both(store: &Store, x: PageNo) -> Result<(), Reply>
    requires is { IsStore store.now }
    requires data { store.now.shape.maps ≤ x.0 }
    requires page { x.0 < page_count store.now.shape }
    ensures { result ≡ checked (held_both store.now x) }
{
    test_holder(store, store.shape.map_of_data(x))?;
    test_holder(store, x)
}

/// Tests that no node that is down has a page of the updates that are left of a transaction, the newest
/// first, or the map page of one. Nothing changes, and of the disk the log of the transaction's node
/// alone is read.
pub fn test_holders<D: Disk, V: Disk>(
    store: &mut Store,
    disk: &mut D,
    vault: &mut V,
    t: TxnId,
) -> Result<(), Reply>
    requires node { IsPlace t.node.0 }
    requires up { is_up (node_at store.old.nodes t.node.0) ≡ true }
    requires seat { t.seat ≤ 7 }
    requires busy { OnUp (node_at store.old.nodes t.node.0) (λ c seats. IsTrue (is_busy seats t.seat)) }
    requires ready { IsReady store.old (D.state disk.old) (V.state vault.old) }
    requires quiet { IsTrue D.told → IsQuiet store.old (D.state disk.old).block }
    ensures works { Works t.node.0 store.old store.new (D.state disk.old) (D.state disk.new) (V.state vault.old) (V.state vault.new) }
    ensures writes { IsTrue D.told → Writes t.node.0 store.old store.new (D.state disk.old).block (D.state disk.new).block }
    ensures vault_outcomes { IsTrue V.told → Narrows (V.state vault.old).block (V.state vault.new).block }
    ensures cause { IfErr result (λ why. HasCause why (D.state disk.old) (D.state disk.new)) }
    ensures fault { IfErr result (IsHolderReply store.old t.node.0) }
    ensures down { IfErr result (λ why. says_stop why ≡ true → node_at store.new.nodes t.node.0 ≡ Down) }
    ensures kept { IfErr result (λ why. says_stop why ≡ false → (store.new ≡ store.old) × (IsTrue D.told → (D.state disk.new).block ≡ (D.state disk.old).block)) }
    ensures same { OnOk result ((store.new ≡ store.old) × (IsTrue D.told → (D.state disk.new).block ≡ (D.state disk.old).block)) }
    ensures tests { IsTrue D.told → TestsHolders store.old (D.state disk.old).block t result }
    ensures led { IfErr result (λ why. IsTrue D.told → (m : Machine) → Endures store.old (D.state disk.old).block m → LedOnStop t.node.0 why [] m (Endures store.new (D.state disk.new).block)) }
    ensures shown { IsTrue D.told → (m : Machine) → IsShown store.old (D.state disk.old).block m → UnlessStop result (result ≡ checked (held m (takes_back m t))) }
{
    let mut after = None;
    while let Some((number, x)) = update_after(store, disk, vault, t, after)? {
        test_both(store, x)?;
        after = Some(number);
    }
    Ok(())
}
