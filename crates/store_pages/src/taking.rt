//! A node takes a page: whoever else has it gives it up first, and then it comes into the node's cache.

ghost use Rattle.std.specs.Prelude.{◌≡◌, ◌≢◌, ◌<◌, ◌≤◌, ◌∷◌, [], false, true, ℕ, None, Err, IsTrue, IsOk, IfErr, IfOk, IfSome, OnOk};
ghost use Rattle.sd_base.specs.Calls.{Narrows};
ghost use Rattle.sd_base.specs.Places.{map_of_data};
ghost use Rattle.sd_base.specs.Shape.{page_count};
ghost use Rattle.space_map.specs.Image.{MapImage};
ghost use Rattle.private_log.specs.Reading.{contents};
ghost use Rattle.page_owner.specs.Owners.{owner_of};
ghost use Rattle.node_cache.specs.Room.{IsEntryOf, IsOpenTo};
ghost use Rattle.record_machine.specs.Led.{LedOnStop};
ghost use Rattle.record_machine.specs.Machine.{Machine};
ghost use Rattle.record_machine.specs.Parts.{Take, one};
ghost use Rattle.record_machine.specs.Steps.{held_page};
ghost use Rattle.store_nodes.specs.declared.node.Node.TheVariants.{Down};
ghost use Rattle.store_nodes.specs.Causes.{IsFaultOfTake, IsToldOfPages};
ghost use Rattle.store_nodes.specs.Endures.{Endures};
ghost use Rattle.store_nodes.specs.Footprint.{KeepsHoldersBut, TookPage};
ghost use Rattle.store_nodes.specs.Known.{held_in};
ghost use Rattle.store_nodes.specs.Nodes.{IsHeldBy, IsPlace, IsStore, OnUp, is_up, node_at};
ghost use Rattle.store_nodes.specs.Pages.{HasCached, KeepsSeats, KeepsWork, ShowsMap};
ghost use Rattle.store_nodes.specs.Ports.{HasCause, IsQuiet, IsReady, IsStopReply, SaysStopOf, UnlessStop, WorksWith, WritesWith, says_stop};
ghost use Rattle.store_nodes.specs.Shows.{IsShown};

use crate::fetching::fetch;
use crate::surrendering::surrender;
use page_owner::Own;
use script_text::Reply;
use sd_base::{Disk, NodeId, PageNo};
use space_map::MapEntry;
use store_nodes::Store;

/// Another node than this one that is up and has the page, if one has. One that is down and has it is
/// why the page can't be taken.
fn holder(store: &Store, n: NodeId, x: PageNo) -> Result<Option<NodeId>, Reply>
    requires node { IsPlace n.0 }
    requires up { is_up (node_at store.now.nodes n.0) ≡ true }
    requires page { x.0 < page_count store.now.shape }
    requires is { IsStore store.now }
    ensures held { IfSome (held_in store.now x) (λ why. result ≡ Err why) }
    ensures free { held_in store.now x ≡ None → IsOk result }
    ensures holder { IfOk result (λ found. IfSome found (λ h. IsPlace h.0 × (h.0 ≢ n.0) × IsHeldBy h (owner_of store.now.shared.owners x.0) × (is_up (node_at store.now.nodes h.0) ≡ true))) }
    ensures open { IfOk result (λ found. found ≡ None → IsOpenTo n (owner_of store.now.shared.owners x.0)) }
{
    let h = match store.shared.owners.state(x) {
        Own::Nobody => return Ok(None),
        Own::Parked(h) | Own::Out(h) => h,
    };
    if !store.node(h).is_up() {
        return Err(Reply::Held(x, h));
    }
    if h == n { Ok(None) } else { Ok(Some(h)) }
}

/// Takes a page that another node has which is up: that one gives it up through its own port, and then
/// it is fetched.
fn pass<D: Disk, V: Disk>(
    store: &mut Store,
    disk: &mut D,
    vault: &mut V,
    h: NodeId,
    n: NodeId,
    x: PageNo,
    e: Option<MapEntry>,
) -> Result<(), Reply>
    requires holder { IsPlace h.0 }
    requires other { h.0 ≢ n.0 }
    requires holder_up { is_up (node_at store.old.nodes h.0) ≡ true }
    requires has { IsHeldBy h (owner_of store.old.shared.owners x.0) }
    requires node { IsPlace n.0 }
    requires up { is_up (node_at store.old.nodes n.0) ≡ true }
    requires page { x.0 < page_count store.old.shape }
    requires entry { OnUp (node_at store.old.nodes n.0) (λ c seats. IsEntryOf store.old.shape store.old.shared.pool c x e) }
    requires ready { IsReady store.old (D.state disk.old) (V.state vault.old) }
    requires quiet { IsTrue D.told → IsQuiet store.old (D.state disk.old).block }
    ensures works { WorksWith n.0 (SaysStopOf result) store.old store.new (D.state disk.old) (D.state disk.new) (V.state vault.old) (V.state vault.new) }
    ensures writes { IsTrue D.told → WritesWith n.0 store.old store.new (D.state disk.old).block (D.state disk.new).block }
    ensures vault_outcomes { IsTrue V.told → Narrows (V.state vault.old).block (V.state vault.new).block }
    ensures cause { IfErr result (λ why. HasCause why (D.state disk.old) (D.state disk.new)) }
    ensures fault { IfErr result (IsFaultOfTake store.old n.0 x) }
    ensures told { IsTrue D.told → IfErr result (IsToldOfPages store.old.shape (contents (D.state disk.new).block)) }
    ensures up { OnOk result (is_up (node_at store.new.nodes n.0) ≡ true) }
    ensures down { IfErr result (λ why. (k : ℕ) → IsStopReply k why → node_at store.new.nodes k ≡ Down) }
    ensures work { UnlessStop result (KeepsWork n.0 store.old store.new) }
    ensures seats { ¬ (SaysStopOf result n.0) → KeepsSeats (node_at store.old.nodes n.0) (node_at store.new.nodes n.0) }
    ensures holders { UnlessStop result ((y : PageNo) → held_in store.new y ≡ held_in store.old y) }
    ensures shows { OnOk result (IsTrue D.told → (m : Machine) → IsShown store.old (D.state disk.old).block m → IsShown store.new (D.state disk.new).block (one (Take x.0 n.0) m)) }
    ensures stopped { IfErr result (λ why. IsTrue D.told → (m : Machine) → IsShown store.old (D.state disk.old).block m → says_stop why ≡ true) }
    ensures led { UnlessStop result (IsTrue D.told → (m : Machine) → m.reopening ≡ false → Endures store.old (D.state disk.old).block m → Endures store.new (D.state disk.new).block (one (Take x.0 n.0) m)) }
    ensures halts { IfErr result (λ why. IsTrue D.told → (m : Machine) → m.reopening ≡ false → Endures store.old (D.state disk.old).block m → LedOnStop n.0 why (Take x.0 n.0 ∷ []) m (Endures store.new (D.state disk.new).block)) }
    ensures map { OnOk result (store.old.shape.maps ≤ x.0 → (image : MapImage) → ShowsMap store.old n.0 (map_of_data store.old.shape x) image → ShowsMap store.new n.0 (map_of_data store.old.shape x) image) }
    ensures cached { OnOk result (HasCached store.new n.0 x) }
    ensures made_room { OnOk result (IsTrue D.told → TookPage n x store.old store.new (D.state disk.old).block (D.state disk.new).block) }
    ensures owners { OnOk result (KeepsHoldersBut x store.old store.new) }
{
    surrender(store, disk, vault, h, x)?;
    fetch(store, disk, vault, n, x, e)
}

/// Makes a page the node's, and cached. Another node that has it and is up gives it up first, through
/// its own port; where that stops, that node goes down, and the page stays its own.
///
/// A page that a node has which is down is `Held`: nothing changes then.
pub fn take<D: Disk, V: Disk>(
    store: &mut Store,
    disk: &mut D,
    vault: &mut V,
    n: NodeId,
    x: PageNo,
    e: Option<MapEntry>,
) -> Result<(), Reply>
    requires node { IsPlace n.0 }
    requires up { is_up (node_at store.old.nodes n.0) ≡ true }
    requires page { x.0 < page_count store.old.shape }
    requires entry { OnUp (node_at store.old.nodes n.0) (λ c seats. IsEntryOf store.old.shape store.old.shared.pool c x e) }
    requires ready { IsReady store.old (D.state disk.old) (V.state vault.old) }
    requires quiet { IsTrue D.told → IsQuiet store.old (D.state disk.old).block }
    ensures works { WorksWith n.0 (SaysStopOf result) store.old store.new (D.state disk.old) (D.state disk.new) (V.state vault.old) (V.state vault.new) }
    ensures writes { IsTrue D.told → WritesWith n.0 store.old store.new (D.state disk.old).block (D.state disk.new).block }
    ensures vault_outcomes { IsTrue V.told → Narrows (V.state vault.old).block (V.state vault.new).block }
    ensures held { IfSome (held_in store.old x) (λ why. (result ≡ Err why) × (store.new ≡ store.old) × (disk.new ≡ disk.old) × (vault.new ≡ vault.old)) }
    ensures cause { IfErr result (λ why. HasCause why (D.state disk.old) (D.state disk.new)) }
    ensures fault { IfErr result (IsFaultOfTake store.old n.0 x) }
    ensures told { IsTrue D.told → IfErr result (IsToldOfPages store.old.shape (contents (D.state disk.new).block)) }
    ensures up { OnOk result (is_up (node_at store.new.nodes n.0) ≡ true) }
    ensures down { IfErr result (λ why. (h : ℕ) → IsStopReply h why → node_at store.new.nodes h ≡ Down) }
    ensures work { UnlessStop result (KeepsWork n.0 store.old store.new) }
    ensures seats { ¬ (SaysStopOf result n.0) → KeepsSeats (node_at store.old.nodes n.0) (node_at store.new.nodes n.0) }
    ensures holders { UnlessStop result ((y : PageNo) → held_in store.new y ≡ held_in store.old y) }
    ensures shows { OnOk result (IsTrue D.told → (m : Machine) → IsShown store.old (D.state disk.old).block m → IsShown store.new (D.state disk.new).block (one (Take x.0 n.0) m)) }
    ensures refused { IsTrue D.told → (m : Machine) → IsShown store.old (D.state disk.old).block m → held_page m x.0 ≡ held_in store.old x }
    ensures stopped { IfErr result (λ why. IsTrue D.told → (m : Machine) → IsShown store.old (D.state disk.old).block m → held_in store.old x ≡ None → says_stop why ≡ true) }
    ensures led { held_in store.old x ≡ None → UnlessStop result (IsTrue D.told → (m : Machine) → m.reopening ≡ false → Endures store.old (D.state disk.old).block m → Endures store.new (D.state disk.new).block (one (Take x.0 n.0) m)) }
    ensures halts { IfErr result (λ why. IsTrue D.told → (m : Machine) → m.reopening ≡ false → Endures store.old (D.state disk.old).block m → LedOnStop n.0 why (Take x.0 n.0 ∷ []) m (Endures store.new (D.state disk.new).block)) }
    ensures map { OnOk result (store.old.shape.maps ≤ x.0 → (image : MapImage) → ShowsMap store.old n.0 (map_of_data store.old.shape x) image → ShowsMap store.new n.0 (map_of_data store.old.shape x) image) }
    ensures cached { OnOk result (HasCached store.new n.0 x) }
    ensures made_room { OnOk result (IsTrue D.told → TookPage n x store.old store.new (D.state disk.old).block (D.state disk.new).block) }
    ensures owners { OnOk result (KeepsHoldersBut x store.old store.new) }
    ensures hit { HasCached store.old n.0 x → (IsOk result) × (store.new ≡ store.old) × (disk.new ≡ disk.old) × (vault.new ≡ vault.old) }
{
    match holder(store, n, x)? {
        None => fetch(store, disk, vault, n, x, e),
        Some(h) => pass(store, disk, vault, h, n, x, e),
    }
}
