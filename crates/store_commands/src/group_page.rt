//! The page of a key's group is looked up in its map page, and the node takes both.

ghost use Rattle.std.specs.Prelude.{◌≡◌, ◌≤◌, ◌<◌, ◌∷◌, [], true, ℕ, IsTrue, IsOk, IfErr, IfOk, IfNone, IfSome, OnOk, option_map};
ghost use Rattle.std.specs.List.{position};
ghost use Rattle.sd_base.specs.Calls.{Narrows};
ghost use Rattle.sd_base.specs.Shape.{page_count};
ghost use Rattle.sd_base.specs.Places.{group_of, map_of_key, page_of_place};
ghost use Rattle.space_map.specs.Entry.{is_used_by};
ghost use Rattle.space_map.specs.Image.{MapImage};
ghost use Rattle.private_log.specs.Reading.{contents};
ghost use Rattle.record_machine.specs.Commands.{takes_both};
ghost use Rattle.record_machine.specs.Machine.{Machine, home};
ghost use Rattle.record_machine.specs.Parts.{Take, dos, one};
ghost use Rattle.store_nodes.specs.declared.node.Node.TheVariants.{Down};
ghost use Rattle.store_nodes.specs.Causes.{IsFaultOfTake, IsToldOfPages};
ghost use Rattle.store_nodes.specs.Footprint.{KeepsHoldersBut, TookPage};
ghost use Rattle.store_nodes.specs.Nodes.{IsPlace, is_up, node_at};
ghost use Rattle.store_nodes.specs.Pages.{HasCached, KeepsWork, ShowsMap};
ghost use Rattle.store_nodes.specs.Ports.{HasCause, IsQuiet, IsReady, IsStopReply, SaysStopOf, UnlessStop, WorksWith, WritesWith};
ghost use Rattle.store_nodes.specs.Shows.{IsShown};
ghost use Rattle.store_nodes.specs.Known.{held_in};
ghost use Rattle.store_commands.specs.AtHand.{HasPlace, MakesRoomWith};
ghost use Rattle.store_commands.specs.Faults.{IsFaultFor};
ghost use Rattle.store_commands.specs.Reasons.{HasNoPage, IsPageFor};
ghost use Rattle.store_commands.specs.Taking.{UnlessHeld};

use script_text::Reply;
use sd_base::{Disk, Key, NodeId, PageNo};
use store_nodes::Store;
use store_pages::{entry_at, place_of_group, take};

/// Makes the data page of a place of a cached map page the node's, and cached.
pub(crate) fn take_data<D: Disk, V: Disk>(
    store: &mut Store,
    disk: &mut D,
    vault: &mut V,
    n: NodeId,
    map: PageNo,
    place: u8,
) -> Result<PageNo, Reply>
    requires node { IsPlace n.0 }
    requires up { is_up (node_at store.old.nodes n.0) ≡ true }
    requires map { map.0 < store.old.shape.maps }
    requires place { place ≤ 251 }
    requires cached { HasCached store.old n.0 map }
    requires ready { IsReady store.old (D.state disk.old) (V.state vault.old) }
    requires quiet { IsTrue D.told → IsQuiet store.old (D.state disk.old).block }
    ensures works { WorksWith n.0 (SaysStopOf result) store.old store.new (D.state disk.old) (D.state disk.new) (V.state vault.old) (V.state vault.new) }
    ensures writes { IsTrue D.told → WritesWith n.0 store.old store.new (D.state disk.old).block (D.state disk.new).block }
    ensures vault_outcomes { IsTrue V.told → Narrows (V.state vault.old).block (V.state vault.new).block }
    ensures cause { IfErr result (λ why. HasCause why (D.state disk.old) (D.state disk.new)) }
    ensures fault { IfErr result (IsFaultOfTake store.old n.0 (record { 0 = page_of_place store.old.shape map.0 place })) }
    ensures told { IsTrue D.told → IfErr result (IsToldOfPages store.old.shape (contents (D.state disk.new).block)) }
    ensures up { OnOk result (is_up (node_at store.new.nodes n.0) ≡ true) }
    ensures work { UnlessStop result (KeepsWork n.0 store.old store.new) }
    ensures holders { UnlessStop result ((y : PageNo) → held_in store.new y ≡ held_in store.old y) }
    ensures down { IfErr result (λ why. (h : ℕ) → IsStopReply h why → node_at store.new.nodes h ≡ Down) }
    ensures page { IfOk result (λ x. (x.0 ≡ page_of_place store.old.shape map.0 place) × (store.old.shape.maps ≤ x.0) × (x.0 < page_count store.old.shape)) }
    ensures cached { IfOk result (λ x. HasCached store.new n.0 x) }
    ensures map { OnOk result ((image : MapImage) → ShowsMap store.old n.0 map image → ShowsMap store.new n.0 map image) }
    ensures map_cached { OnOk result (HasCached store.new n.0 map) }
    ensures step { IsTrue D.told → (m : Machine) → IsShown store.old (D.state disk.old).block m
        → UnlessStop result (UnlessHeld m (Take (page_of_place store.old.shape map.0 place) n.0 ∷ []) result (IsShown store.new (D.state disk.new).block) ((IsOk result) × IsShown store.new (D.state disk.new).block (one (Take (page_of_place store.old.shape map.0 place) n.0) m))) }
    ensures made_room { IfOk result (λ x. IsTrue D.told → TookPage n x store.old store.new (D.state disk.old).block (D.state disk.new).block) }
    ensures hit { HasPlace store.old n.0 map.0 place → (IsOk result) × (store.new ≡ store.old) × (disk.new ≡ disk.old) × (vault.new ≡ vault.old) }
{
    let x = store.shape.data_page(map, place);
    let entry = entry_at(store, n, map, place);
    take(store, disk, vault, n, x, Some(entry))?;
    Ok(x)
}

/// The node takes the map page of a key's group and, where the group has a page, that page.
pub fn take_group<D: Disk, V: Disk>(
    store: &mut Store,
    disk: &mut D,
    vault: &mut V,
    n: NodeId,
    key: Key,
) -> Result<Option<PageNo>, Reply>
    requires node { IsPlace n.0 }
    requires up { is_up (node_at store.old.nodes n.0) ≡ true }
    requires ready { IsReady store.old (D.state disk.old) (V.state vault.old) }
    requires quiet { IsTrue D.told → IsQuiet store.old (D.state disk.old).block }
    ensures works { WorksWith n.0 (SaysStopOf result) store.old store.new (D.state disk.old) (D.state disk.new) (V.state vault.old) (V.state vault.new) }
    ensures writes { IsTrue D.told → WritesWith n.0 store.old store.new (D.state disk.old).block (D.state disk.new).block }
    ensures vault_outcomes { IsTrue V.told → Narrows (V.state vault.old).block (V.state vault.new).block }
    ensures cause { IfErr result (λ why. HasCause why (D.state disk.old) (D.state disk.new)) }
    ensures fault { IfErr result (IsFaultFor store.old n.0 key) }
    ensures told { IsTrue D.told → IfErr result (IsToldOfPages store.old.shape (contents (D.state disk.new).block)) }
    ensures up { OnOk result (is_up (node_at store.new.nodes n.0) ≡ true) }
    ensures work { UnlessStop result (KeepsWork n.0 store.old store.new) }
    ensures holders { UnlessStop result ((y : PageNo) → held_in store.new y ≡ held_in store.old y) }
    ensures down { IfErr result (λ why. (h : ℕ) → IsStopReply h why → node_at store.new.nodes h ≡ Down) }
    ensures page { IfOk result (λ found. IfSome found (λ x. (store.old.shape.maps ≤ x.0) × (x.0 < page_count store.old.shape) × HasCached store.new n.0 x)) }
    ensures none { IfOk result (λ found. IfNone found (HasNoPage store.new n.0 key)) }
    ensures for_key { IfOk result (λ found. IfSome found (IsPageFor store.old.shape key)) }
    ensures map { IfOk result (λ found. (image : MapImage) → ShowsMap store.new n.0 (record { 0 = map_of_key store.old.shape key.0 }) image
        → option_map (λ x. x.0) found ≡ option_map (page_of_place store.old.shape (map_of_key store.old.shape key.0)) (position (is_used_by (group_of key.0)) image.entries)) }
    ensures map_cached { OnOk result (HasCached store.new n.0 (record { 0 = map_of_key store.old.shape key.0 })) }
    ensures found { IfOk result (λ found. IsTrue D.told → (m : Machine) → IsShown store.old (D.state disk.old).block m → option_map (λ x. x.0) found ≡ home m key.0) }
    ensures step { IsTrue D.told → (m : Machine) → IsShown store.old (D.state disk.old).block m
        → UnlessStop result (UnlessHeld m (takes_both m n.0 key.0 (home m key.0)) result (IsShown store.new (D.state disk.new).block) ((IsOk result) × IsShown store.new (D.state disk.new).block (dos (takes_both m n.0 key.0 (home m key.0)) m))) }
    ensures made_room { OnOk result (IsTrue D.told → MakesRoomWith n key store.old store.new (D.state disk.old).block (D.state disk.new).block) }
    ensures took { IfOk result (λ found. IfNone found (IsTrue D.told → TookPage n (record { 0 = map_of_key store.old.shape key.0 }) store.old store.new (D.state disk.old).block (D.state disk.new).block)) }
    ensures owners { IfOk result (λ found. IfNone found (KeepsHoldersBut (record { 0 = map_of_key store.old.shape key.0 }) store.old store.new)) }
    ensures hit { (image : MapImage) → ShowsMap store.old n.0 (record { 0 = map_of_key store.old.shape key.0 }) image → IfSome (position (is_used_by (group_of key.0)) image.entries) (HasPlace store.old n.0 (map_of_key store.old.shape key.0))
        → (IsOk result) × (store.new ≡ store.old) × (disk.new ≡ disk.old) × (vault.new ≡ vault.old) }
{
    let map = store.shape.map_of_key(key);
    take(store, disk, vault, n, map, None)?;
    match place_of_group(store, n, map, key.group()) {
        Some(place) => {
            let x = take_data(store, disk, vault, n, map, place)?;
            Ok(Some(x))
        }
        None => Ok(None),
    }
}
