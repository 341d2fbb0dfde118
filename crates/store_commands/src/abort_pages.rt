//! The pages that an abort takes. Of one that is cached and unchanged the block is read again, so that a
//! lost or damaged block is found before anything is taken back.

ghost use Rattle.std.specs.Prelude.{◌≡◌, ◌<◌, ◌≤◌, true, ◌∷◌, [], IsTrue, IsOk, IfErr, OnOk};
ghost use Rattle.sd_base.specs.Shape.{page_count};
ghost use Rattle.node_cache.specs.Room.{IsEntryOf};
ghost use Rattle.private_log.specs.Reading.{contents};
ghost use Rattle.record_machine.specs.Machine.{Machine};
ghost use Rattle.record_machine.specs.Parts.{Take, dos, one};
ghost use Rattle.store_nodes.specs.Causes.{IsToldOfPages};
ghost use Rattle.store_nodes.specs.Nodes.{IsPlace, OnUp, is_up, node_at};
ghost use Rattle.store_nodes.specs.Pages.{HasCached, KeepsWork};
ghost use Rattle.store_nodes.specs.Ports.{IsQuiet, IsReady, UnlessStop, says_stop};
ghost use Rattle.store_nodes.specs.Shows.{IsShown};
ghost use Rattle.store_commands.specs.Aborts.{HoldsBoth, IsAbortFault, Leaves, takes_page};
ghost use Rattle.store_commands.specs.Taking.{UnlessHeld};

use script_text::Reply;
use sd_base::{Disk, NodeId, PageNo};
use space_map::MapEntry;
use store_nodes::Store;
use store_pages::{entry_at, has_page, is_clean, reread, take};

/// Makes a page the node's, and cached. Where it was cached already, and its block has all its changes, the
/// block is read all the same: what is said of it is then found out.
fn take_anew<D: Disk, V: Disk>(
    store: &mut Store,
    disk: &mut D,
    vault: &mut V,
    n: NodeId,
    x: PageNo,
    e: Option<MapEntry>,
) -> Result<(), Reply>
    requires node { IsPlace n.0 }
    requires up { is_up (node_at store.old.nodes n.0) ≡ true }
    requires page { x.0 < page_count store.old.shape }
    requires entry { OnUp (node_at store.old.nodes n.0) (λ c seats. IsEntryOf store.old.shape store.old.shared.pool c x e) }
    requires ready { IsReady store.old (D.state disk.old) (V.state vault.old) }
    requires quiet { IsTrue D.told → IsQuiet store.old (D.state disk.old).block }
    ensures leaves { Leaves D.told V.told n.0 result store.old store.new (D.state disk.old) (D.state disk.new) (V.state vault.old) (V.state vault.new) }
    ensures work { UnlessStop result (KeepsWork n.0 store.old store.new) }
    ensures fault { IfErr result (IsAbortFault store.old n.0) }
    ensures told { IsTrue D.told → IfErr result (IsToldOfPages store.old.shape (contents (D.state disk.new).block)) }
    ensures cached { OnOk result (HasCached store.new n.0 x) }
    ensures step { IsTrue D.told → (m : Machine) → IsShown store.old (D.state disk.old).block m
        → UnlessStop result (UnlessHeld m (Take x.0 n.0 ∷ []) result (IsShown store.new (D.state disk.new).block) ((IsOk result) × IsShown store.new (D.state disk.new).block (one (Take x.0 n.0) m))) }
{
    let again = is_clean(store, n, x);
    take(store, disk, vault, n, x, e)?;
    if again {
        reread(store, disk, vault, n, x)
    } else {
        Ok(())
    }
}

/// Takes the map page of a data page, and then the data page with its entry.
pub(crate) fn take_update<D: Disk, V: Disk>(
    store: &mut Store,
    disk: &mut D,
    vault: &mut V,
    n: NodeId,
    x: PageNo,
) -> Result<(), Reply>
    requires node { IsPlace n.0 }
    requires up { is_up (node_at store.old.nodes n.0) ≡ true }
    requires data { store.old.shape.maps ≤ x.0 }
    requires page { x.0 < page_count store.old.shape }
    requires ready { IsReady store.old (D.state disk.old) (V.state vault.old) }
    requires quiet { IsTrue D.told → IsQuiet store.old (D.state disk.old).block }
    ensures leaves { Leaves D.told V.told n.0 result store.old store.new (D.state disk.old) (D.state disk.new) (V.state vault.old) (V.state vault.new) }
    ensures work { UnlessStop result (KeepsWork n.0 store.old store.new) }
    ensures fault { IfErr result (IsAbortFault store.old n.0) }
    ensures told { IsTrue D.told → IfErr result (IsToldOfPages store.old.shape (contents (D.state disk.new).block)) }
    ensures cached { OnOk result (HasCached store.new n.0 x) }
    ensures step { IsTrue D.told → (m : Machine) → IsShown store.old (D.state disk.old).block m
        → UnlessStop result (UnlessHeld m (takes_page store.old.shape n.0 x) result (IsShown store.new (D.state disk.new).block) ((IsOk result) × IsShown store.new (D.state disk.new).block (dos (takes_page store.old.shape n.0 x) m))) }
{
    let map = store.shape.map_of_data(x);
    take_anew(store, disk, vault, n, map, None)?;
    let entry = entry_at(store, n, map, store.shape.place_of_page(x));
    take_anew(store, disk, vault, n, x, Some(entry))
}

/// Makes sure that a data page is cached: one that has left the cache is taken again, after its map page.
pub(crate) fn take_if_gone<D: Disk, V: Disk>(
    store: &mut Store,
    disk: &mut D,
    vault: &mut V,
    n: NodeId,
    x: PageNo,
) -> Result<(), Reply>
    requires node { IsPlace n.0 }
    requires up { is_up (node_at store.old.nodes n.0) ≡ true }
    requires data { store.old.shape.maps ≤ x.0 }
    requires page { x.0 < page_count store.old.shape }
    requires ready { IsReady store.old (D.state disk.old) (V.state vault.old) }
    requires quiet { IsTrue D.told → IsQuiet store.old (D.state disk.old).block }
    ensures leaves { Leaves D.told V.told n.0 result store.old store.new (D.state disk.old) (D.state disk.new) (V.state vault.old) (V.state vault.new) }
    ensures work { UnlessStop result (KeepsWork n.0 store.old store.new) }
    ensures fault { IfErr result (IsAbortFault store.old n.0) }
    ensures told { IsTrue D.told → IfErr result (IsToldOfPages store.old.shape (contents (D.state disk.new).block)) }
    ensures cached { OnOk result (HasCached store.new n.0 x) }
    ensures shows { OnOk result (IsTrue D.told → (m : Machine) → HoldsBoth m n.0 x → IsShown store.old (D.state disk.old).block m → IsShown store.new (D.state disk.new).block m) }
    ensures stopped { IfErr result (λ why. IsTrue D.told → (m : Machine) → HoldsBoth m n.0 x → IsShown store.old (D.state disk.old).block m → says_stop why ≡ true) }
{
    if has_page(store, n, x) {
        return Ok(());
    }
    take_update(store, disk, vault, n, x)
}
