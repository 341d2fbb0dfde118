//! One logged change of a cached page: of a slot of a data page, or of a place of a map page.

ghost use Rattle.std.specs.Prelude.{◌≡◌, ◌≤◌, ◌<◌, ◌+◌, ◌^◌, ◌∷◌, [], true, false, ℕ, None, Some, IsTrue, IsOk, IfErr, OnErr, OnOk};
ghost use Rattle.sd_base.specs.Calls.{Narrows};
ghost use Rattle.sd_base.specs.Shape.{page_count};
ghost use Rattle.sd_base.specs.Places.{group_of, map_of_key, page_of_place, slot_of_key};
ghost use Rattle.page_image.specs.declared.page_view.PageView.{PageView};
ghost use Rattle.space_map.specs.Image.{MapImage};
ghost use Rattle.private_log.specs.Log.{space};
ghost use Rattle.txn_core.specs.Seats.{is_busy, owed};
ghost use Rattle.txn_core.specs.Updates.{FitsSlotOf, HasPage};
ghost use Rattle.record_locks.specs.declared.mode.Mode.TheVariants as locks;
ghost use Rattle.record_locks.specs.Held.{mode_of};
ghost use Rattle.record_machine.specs.Led.{Led, LedErr};
ghost use Rattle.record_machine.specs.Machine.{Machine, Write, free_place, home, seen};
ghost use Rattle.record_machine.specs.Parts.{Change as Changed, Use, one};
ghost use Rattle.store_nodes.specs.declared.node.Node.TheVariants.{Down};
ghost use Rattle.store_nodes.specs.Endures.{Endures, EnduresBut};
ghost use Rattle.store_nodes.specs.Footprint.{FillsNoBlock, KeepsCache};
ghost use Rattle.store_nodes.specs.Nodes.{IsPlace, OnUp, is_up, node_at};
ghost use Rattle.store_nodes.specs.Pages.{HasMap, UsesPlace, value_after};
ghost use Rattle.store_nodes.specs.Ports.{HasCause, IsQuiet, IsReady, IsStopReply, Works, Writes};
ghost use Rattle.store_nodes.specs.Shows.{IsShown};

use crate::map_page::map_identifier;
use crate::node::{self, Node};
use crate::store::Store;
use log_record::LogRecord;
use script_text::Reply;
use sd_base::{Disk, GroupNo, NodeId, PageNo, TxnId};
use txn_core::Change;

impl Store {
    /// Changes a slot of a data page that the transaction's node has cached, where its log has room for
    /// it.
    pub fn change<D: Disk, V: Disk>(
        &mut self,
        disk: &mut D,
        vault: &mut V,
        t: TxnId,
        x: PageNo,
        slot: u8,
        what: &Change,
    ) -> Result<(), Reply>
        requires node { IsPlace t.node.0 }
        requires up { is_up (node_at self.old.nodes t.node.0) ≡ true }
        requires seat { t.seat ≤ 7 }
        requires busy { OnUp (node_at self.old.nodes t.node.0) (λ c seats. IsTrue (is_busy seats t.seat)) }
        requires slot { slot ≤ 15 }
        requires place { (self.old.shape.maps ≤ x.0) × (x.0 < page_count self.old.shape) }
        requires page { OnUp (node_at self.old.nodes t.node.0) (λ c seats. (v : PageView) × HasPage self.old.shared.pool c.pages x v × (v.ident < 2 ^ 63) × FitsSlotOf v slot what.now) }
        requires room { OnUp (node_at self.old.nodes t.node.0) (λ c seats. owed seats + 2 ≤ space c.log) }
        requires ready { IsReady self.old (D.state disk.old) (V.state vault.old) }
        requires quiet { IsTrue D.told → IsQuiet self.old (D.state disk.old).block }
        ensures works { Works t.node.0 self.old self.new (D.state disk.old) (D.state disk.new) (V.state vault.old) (V.state vault.new) }
        ensures writes { IsTrue D.told → Writes t.node.0 self.old self.new (D.state disk.old).block (D.state disk.new).block }
        ensures vault_outcomes { IsTrue V.told → Narrows (V.state vault.old).block (V.state vault.new).block }
        ensures cause { IfErr result (λ why. HasCause why (D.state disk.old) (D.state disk.new)) }
        ensures stopped { IfErr result (IsStopReply t.node.0) }
        ensures up { OnOk result (is_up (node_at self.new.nodes t.node.0) ≡ true) }
        ensures down { OnErr result (node_at self.new.nodes t.node.0 ≡ Down) }
        ensures shows { OnOk result (IsTrue D.told → (m : Machine) (w : Write) → home m w.key ≡ Some w.page → w.page ≡ x.0 → slot_of_key w.key ≡ slot → mode_of m.locks (record { 0 = w.key }) t ≡ Some locks.Write → w.value ≡ value_after what.now (seen m t w.key)
            → IsShown self.old (D.state disk.old).block m → IsShown self.new (D.state disk.new).block (one (Changed t w) m)) }
        ensures led { IsTrue D.told → (m : Machine) (w : Write) → home m w.key ≡ Some w.page → w.page ≡ x.0 → slot_of_key w.key ≡ slot → mode_of m.locks (record { 0 = w.key }) t ≡ Some locks.Write → w.value ≡ value_after what.now (seen m t w.key) → m.reopening ≡ false
            → EnduresBut x.0 self.old (D.state disk.old).block m → Led t.node.0 result (Changed t w ∷ []) m (Endures self.new (D.state disk.new).block) }
        ensures pages { OnOk result (IsTrue D.told → KeepsCache t.node.0 self.old self.new (D.state disk.old).block (D.state disk.new).block) }
        ensures memory { FillsNoBlock self.old t.node.0 1 → (IsOk result) × (disk.new ≡ disk.old) × (vault.new ≡ vault.old) }
    {
        let fault = match &mut self.nodes[node::place(t.node)] {
            Node::Up(cache, seats) => {
                let pool = &mut self.shared.pool;
                let done = seats.change(disk, pool, cache, t.seat, x, slot, what);
                cache.law_of_pages();
                match done {
                    Ok(()) => return Ok(()),
                    Err(fault) => fault,
                }
            }
            Node::Idle | Node::Down => unreachable!(),
        };
        Err(self.give_up(disk, vault, t.node, fault))
    }

    /// A free place of a map page that the node has cached comes into use by a group, where its log has
    /// space for it.
    pub fn use_place<D: Disk, V: Disk>(
        &mut self,
        disk: &mut D,
        vault: &mut V,
        n: NodeId,
        map: PageNo,
        place: u8,
        group: GroupNo,
    ) -> Result<(), Reply>
        requires node { IsPlace n.0 }
        requires up { is_up (node_at self.old.nodes n.0) ≡ true }
        requires map { map.0 < self.old.shape.maps }
        requires place { place ≤ 251 }
        requires group { group.0 ≤ 268435455 }
        requires image { OnUp (node_at self.old.nodes n.0) (λ c seats. (image : MapImage) × HasMap self.old.shared.pool c.pages map image × (image.ident < 2 ^ 63)) }
        requires room { OnUp (node_at self.old.nodes n.0) (λ c seats. owed seats + 1 ≤ space c.log) }
        requires ready { IsReady self.old (D.state disk.old) (V.state vault.old) }
        requires quiet { IsTrue D.told → IsQuiet self.old (D.state disk.old).block }
        ensures works { Works n.0 self.old self.new (D.state disk.old) (D.state disk.new) (V.state vault.old) (V.state vault.new) }
        ensures writes { IsTrue D.told → Writes n.0 self.old self.new (D.state disk.old).block (D.state disk.new).block }
        ensures vault_outcomes { IsTrue V.told → Narrows (V.state vault.old).block (V.state vault.new).block }
        ensures cause { IfErr result (λ why. HasCause why (D.state disk.old) (D.state disk.new)) }
        ensures stopped { IfErr result (IsStopReply n.0) }
        ensures up { OnOk result (is_up (node_at self.new.nodes n.0) ≡ true) }
        ensures down { OnErr result (node_at self.new.nodes n.0 ≡ Down) }
        ensures locks { OnOk result (self.new.shared.locks ≡ self.old.shared.locks) }
        ensures kept { OnOk result (OnUp (node_at self.old.nodes n.0) (λ c old. OnUp (node_at self.new.nodes n.0) (λ d new. UsesPlace self.old.shape.maps self.old.shared.pool self.new.shared.pool c d old new))) }
        ensures shows { OnOk result (IsTrue D.told → (m : Machine) (key : ℕ) → home m key ≡ None → free_place m key ≡ Some place → group_of key ≡ group → map_of_key m.shape key ≡ map.0
            → IsShown self.old (D.state disk.old).block m → IsShown self.new (D.state disk.new).block (one (Use n.0 map.0 place group) m)) }
        ensures led { OnOk result (IsTrue D.told → (m : Machine) (key : ℕ) → home m key ≡ None → free_place m key ≡ Some place → group_of key ≡ group → map_of_key m.shape key ≡ map.0 → m.hold (page_of_place m.shape map.0 place) ≡ Some n.0 → m.reopening ≡ false
            → Endures self.old (D.state disk.old).block m → EnduresBut (page_of_place m.shape map.0 place) self.new (D.state disk.new).block (one (Use n.0 map.0 place group) m)) }
        ensures broke { IfErr result (λ why. IsTrue D.told → (m : Machine) (key : ℕ) → home m key ≡ None → free_place m key ≡ Some place → group_of key ≡ group → map_of_key m.shape key ≡ map.0 → m.hold (page_of_place m.shape map.0 place) ≡ Some n.0 → m.reopening ≡ false
            → Endures self.old (D.state disk.old).block m → LedErr n.0 why (Use n.0 map.0 place group ∷ []) m (Endures self.new (D.state disk.new).block)) }
        ensures pages { OnOk result (IsTrue D.told → KeepsCache n.0 self.old self.new (D.state disk.old).block (D.state disk.new).block) }
        ensures memory { FillsNoBlock self.old n.0 1 → (IsOk result) × (disk.new ≡ disk.old) × (vault.new ≡ vault.old) }
    {
        let fault = match &mut self.nodes[node::place(n)] {
            Node::Up(cache, _seats) => {
                let pool = &mut self.shared.pool;
                let bsi = map_identifier(cache.view(pool, map));
                let rec = LogRecord::MapUse {
                    page: map,
                    bsi,
                    place,
                    group,
                };
                let done = cache.change(disk, pool, &rec);
                cache.law_of_pages();
                match done {
                    Ok(_) => return Ok(()),
                    Err(fault) => fault,
                }
            }
            Node::Idle | Node::Down => unreachable!(),
        };
        Err(self.give_up(disk, vault, n, fault))
    }
}
