//! A node gives up a page that it has, for another one to take.

ghost use Rattle.std.specs.Prelude.{◌≡◌, ◌≢◌, ◌<◌, [], true, false, IsTrue, IfErr, MatchResult, OnErr, OnOk, slice_set};
ghost use Rattle.sd_base.specs.Calls.{Narrows};
ghost use Rattle.sd_base.specs.Shape.{page_count};
ghost use Rattle.page_owner.specs.declared.owners.Own.TheVariants.{Nobody};
ghost use Rattle.page_owner.specs.Owners.{owner_of};
ghost use Rattle.record_machine.specs.Led.{LedErr};
ghost use Rattle.record_machine.specs.Machine.{Machine};
ghost use Rattle.record_machine.specs.Parts.{Drop, one};
ghost use Rattle.store_nodes.specs.declared.node.Node.TheVariants.{Down};
ghost use Rattle.store_nodes.specs.Endures.{Endures};
ghost use Rattle.store_nodes.specs.Footprint.{KeepsPage};
ghost use Rattle.store_nodes.specs.Halting.{Halts};
ghost use Rattle.store_nodes.specs.Nodes.{IsHeldBy, IsPlace, OnUp, is_up, node_at};
ghost use Rattle.store_nodes.specs.Pages.{GivesUp, KeepsWork};
ghost use Rattle.store_nodes.specs.Ports.{HasCause, IsQuiet, IsReady, IsStopReply, Works, Writes};
ghost use Rattle.store_nodes.specs.Shows.{IsShown};

use script_text::Reply;
use sd_base::{Disk, NodeId, PageNo};
use store_nodes::{Node, Store, place};

/// A node that is up gives up a page that it has, through its own port: a page with changes is
/// written behind its log, and is nobody's then.
///
/// If its port stops, the node goes down, and the page stays its own.
pub(crate) fn surrender<D: Disk, V: Disk>(
    store: &mut Store,
    disk: &mut D,
    vault: &mut V,
    h: NodeId,
    x: PageNo,
) -> Result<(), Reply>
    requires node { IsPlace h.0 }
    requires up { is_up (node_at store.old.nodes h.0) ≡ true }
    requires page { x.0 < page_count store.old.shape }
    requires held { IsHeldBy h (owner_of store.old.shared.owners x.0) }
    requires ready { IsReady store.old (D.state disk.old) (V.state vault.old) }
    requires quiet { IsTrue D.told → IsQuiet store.old (D.state disk.old).block }
    ensures works { Works h.0 store.old store.new (D.state disk.old) (D.state disk.new) (V.state vault.old) (V.state vault.new) }
    ensures writes { IsTrue D.told → Writes h.0 store.old store.new (D.state disk.old).block (D.state disk.new).block }
    ensures vault_outcomes { IsTrue V.told → Narrows (V.state vault.old).block (V.state vault.new).block }
    ensures cause { IfErr result (λ why. HasCause why (D.state disk.old) (D.state disk.new)) }
    ensures stopped { IfErr result (IsStopReply h.0) }
    ensures up { OnOk result (is_up (node_at store.new.nodes h.0) ≡ true) }
    ensures down { OnErr result (node_at store.new.nodes h.0 ≡ Down) }
    ensures halts { OnErr result (Halts h store.old store.new (D.state disk.new) (V.state vault.new)) }
    ensures work { OnOk result (KeepsWork h.0 store.old store.new) }
    ensures owners { OnOk result (store.new.shared.owners ≡ slice_set store.old.shared.owners x.0 Nobody) }
    ensures given { OnOk result (OnUp (node_at store.old.nodes h.0) (λ c old. OnUp (node_at store.new.nodes h.0) (λ d new. GivesUp x c d))) }
    ensures pages { OnOk result (IsTrue D.told → (y : PageNo) → y.0 < page_count store.old.shape → y ≢ x → KeepsPage store.old.shape y (D.state disk.old).block (D.state disk.new).block) }
    ensures shows { OnOk result (IsTrue D.told → (m : Machine) → IsShown store.old (D.state disk.old).block m → IsShown store.new (D.state disk.new).block (one (Drop x.0) m)) }
    ensures led { IsTrue D.told → (m : Machine) → m.reopening ≡ false → Endures store.old (D.state disk.old).block m → MatchResult result (λ _. Endures store.new (D.state disk.new).block (one (Drop x.0) m)) (λ why. LedErr h.0 why [] m (Endures store.new (D.state disk.new).block)) }
{
    let fault = match &mut store.nodes[place(h)] {
        Node::Up(cache, _seats) => {
            let shared = &mut store.shared;
            let done = cache.surrender(disk, &store.shape, &mut shared.pool, &mut shared.owners, x);
            cache.law_of_pages();
            match done {
                Ok(()) => return Ok(()),
                Err(fault) => fault,
            }
        }
        Node::Idle | Node::Down => unreachable!(),
    };
    Err(store.give_up(disk, vault, h, fault))
}
