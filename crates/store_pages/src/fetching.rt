//! A page that is nobody's, or a node's own, comes into the node's cache.

ghost use Rattle.std.specs.Prelude.{◌≡◌, ◌<◌, ◌≤◌, [], false, true, IsTrue, IsOk, IfErr, OnOk};
ghost use Rattle.sd_base.specs.Calls.{Narrows};
ghost use Rattle.sd_base.specs.Places.{map_of_data};
ghost use Rattle.sd_base.specs.Shape.{page_count};
ghost use Rattle.space_map.specs.Image.{MapImage};
ghost use Rattle.private_log.specs.Reading.{contents};
ghost use Rattle.page_owner.specs.Owners.{owner_of};
ghost use Rattle.node_cache.specs.Room.{IsEntryOf, IsOpenTo};
ghost use Rattle.record_machine.specs.Led.{LedOnStop};
ghost use Rattle.record_machine.specs.Machine.{Machine};
ghost use Rattle.record_machine.specs.Parts.{Take, one};
ghost use Rattle.store_nodes.specs.declared.node.Node.TheVariants.{Down};
ghost use Rattle.store_nodes.specs.Causes.{IsFaultOfPage, IsToldOfPages};
ghost use Rattle.store_nodes.specs.Endures.{Endures};
ghost use Rattle.store_nodes.specs.Footprint.{KeepsHoldersBut, MadeRoom};
ghost use Rattle.store_nodes.specs.Known.{held_in};
ghost use Rattle.store_nodes.specs.Nodes.{IsPlace, OnUp, is_up, node_at};
ghost use Rattle.store_nodes.specs.Pages.{HasCached, KeepsWork, ShowsMap};
ghost use Rattle.store_nodes.specs.Ports.{HasCause, IsQuiet, IsReady, UnlessStop, Works, Writes, says_stop};
ghost use Rattle.store_nodes.specs.Shows.{IsShown};

use script_text::Reply;
use sd_base::{Disk, NodeId, PageNo};
use space_map::MapEntry;
use store_nodes::{Node, Store, place};

/// Makes a page that is nobody's, or a node's own, the node's, and cached.
///
/// Where its block is lost or damaged, the page is parked at the node, and its transactions go on.
pub(crate) fn fetch<D: Disk, V: Disk>(
    store: &mut Store,
    disk: &mut D,
    vault: &mut V,
    n: NodeId,
    x: PageNo,
    e: Option<MapEntry>,
) -> Result<(), Reply>
    requires node { IsPlace n.0 }
    requires up { is_up (node_at store.old.nodes n.0) ≡ true }
    requires page { x.0 < page_count store.old.shape }
    requires entry { OnUp (node_at store.old.nodes n.0) (λ c seats. IsEntryOf store.old.shape store.old.shared.pool c x e) }
    requires open { IsOpenTo n (owner_of store.old.shared.owners x.0) }
    requires ready { IsReady store.old (D.state disk.old) (V.state vault.old) }
    requires quiet { IsTrue D.told → IsQuiet store.old (D.state disk.old).block }
    ensures works { Works n.0 store.old store.new (D.state disk.old) (D.state disk.new) (V.state vault.old) (V.state vault.new) }
    ensures writes { IsTrue D.told → Writes n.0 store.old store.new (D.state disk.old).block (D.state disk.new).block }
    ensures vault_outcomes { IsTrue V.told → Narrows (V.state vault.old).block (V.state vault.new).block }
    ensures cause { IfErr result (λ why. HasCause why (D.state disk.old) (D.state disk.new)) }
    ensures fault { IfErr result (IsFaultOfPage store.old.shape n.0 x) }
    ensures told { IsTrue D.told → IfErr result (IsToldOfPages store.old.shape (contents (D.state disk.new).block)) }
    ensures up { OnOk result (is_up (node_at store.new.nodes n.0) ≡ true) }
    ensures down { IfErr result (λ why. says_stop why ≡ true → node_at store.new.nodes n.0 ≡ Down) }
    ensures work { UnlessStop result (KeepsWork n.0 store.old store.new) }
    ensures holders { UnlessStop result ((y : PageNo) → held_in store.new y ≡ held_in store.old y) }
    ensures shows { OnOk result (IsTrue D.told → (m : Machine) → IsShown store.old (D.state disk.old).block m → IsShown store.new (D.state disk.new).block (one (Take x.0 n.0) m)) }
    ensures stopped { IfErr result (λ why. IsTrue D.told → (m : Machine) → IsShown store.old (D.state disk.old).block m → says_stop why ≡ true) }
    ensures led { UnlessStop result (IsTrue D.told → (m : Machine) → m.reopening ≡ false → Endures store.old (D.state disk.old).block m → Endures store.new (D.state disk.new).block (one (Take x.0 n.0) m)) }
    ensures halts { IfErr result (λ why. IsTrue D.told → (m : Machine) → m.reopening ≡ false → Endures store.old (D.state disk.old).block m → LedOnStop n.0 why [] (one (Take x.0 n.0) m) (Endures store.new (D.state disk.new).block)) }
    ensures map { OnOk result (store.old.shape.maps ≤ x.0 → (image : MapImage) → ShowsMap store.old n.0 (map_of_data store.old.shape x) image → ShowsMap store.new n.0 (map_of_data store.old.shape x) image) }
    ensures cached { OnOk result (HasCached store.new n.0 x) }
    ensures made_room { OnOk result (IsTrue D.told → MadeRoom n.0 x store.old store.new (D.state disk.old).block (D.state disk.new).block) }
    ensures owners { OnOk result (KeepsHoldersBut x store.old store.new) }
    ensures hit { HasCached store.old n.0 x → (IsOk result) × (store.new ≡ store.old) × (disk.new ≡ disk.old) × (vault.new ≡ vault.old) }
{
    let fault = match &mut store.nodes[place(n)] {
        Node::Up(cache, _seats) => {
            let shared = &mut store.shared;
            let done = cache.fetch(
                disk,
                &store.shape,
                &mut shared.pool,
                &mut shared.owners,
                x,
                e,
            );
            cache.law_of_pages();
            match done {
                Ok(()) => return Ok(()),
                Err(fault) => fault,
            }
        }
        Node::Idle | Node::Down => unreachable!(),
    };
    Err(store.give_up(disk, vault, n, fault))
}
