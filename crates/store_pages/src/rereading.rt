//! The block of a page that a node may have cached is read again.

ghost use Rattle.std.specs.Prelude.{◌≡◌, ◌&&◌, ◌<◌, [], true, false, not, IsTrue, IfErr, OnOk};
ghost use Rattle.sd_base.specs.Calls.{Narrows};
ghost use Rattle.sd_base.specs.Shape.{page_count};
ghost use Rattle.private_log.specs.Reading.{contents};
ghost use Rattle.node_cache.specs.Cache.{is_cached, is_changed};
ghost use Rattle.record_machine.specs.Led.{LedOnStop};
ghost use Rattle.record_machine.specs.Machine.{Machine};
ghost use Rattle.store_nodes.specs.declared.node.Node.TheVariants.{Down};
ghost use Rattle.store_nodes.specs.Causes.{IsFaultOfPage, IsToldOfPages};
ghost use Rattle.store_nodes.specs.Endures.{Endures};
ghost use Rattle.store_nodes.specs.Nodes.{IsPlace, OnUp, is_up, node_at};
ghost use Rattle.store_nodes.specs.Ports.{HasCause, IsQuiet, IsReady, IsStopReply, Works, Writes, says_stop};
ghost use Rattle.store_nodes.specs.Shows.{IsShown};

use script_text::Reply;
use sd_base::{Disk, NodeId, PageNo};
use store_nodes::{Node, Store, place};

/// Whether a node has a page cached.
pub fn has_page(store: &Store, n: NodeId, x: PageNo) -> bool
    requires node { IsPlace n.0 }
    requires up { is_up (node_at store.now.nodes n.0) ≡ true }
    ensures { OnUp (node_at store.now.nodes n.0) (λ c seats. result ≡ is_cached x c) }
{
    match store.node(n) {
        Node::Up(cache, _seats) => cache.has(x),
        Node::Idle | Node::Down => unreachable!(),
    }
}

/// Whether a node has a page cached, of which its block has all changes.
pub fn is_clean(store: &Store, n: NodeId, x: PageNo) -> bool
    requires node { IsPlace n.0 }
    requires up { is_up (node_at store.now.nodes n.0) ≡ true }
    ensures { OnUp (node_at store.now.nodes n.0) (λ c seats. result ≡ (is_cached x c && not (is_changed x c))) }
{
    match store.node(n) {
        Node::Up(cache, _seats) => cache.has(x) && !cache.is_dirty(x),
        Node::Idle | Node::Down => unreachable!(),
    }
}

/// Reads the block of a page, which the node may have cached, and tests that it is an image of the page.
/// Nothing changes.
pub fn reread<D: Disk, V: Disk>(
    store: &mut Store,
    disk: &mut D,
    vault: &mut V,
    n: NodeId,
    x: PageNo,
) -> Result<(), Reply>
    requires node { IsPlace n.0 }
    requires up { is_up (node_at store.old.nodes n.0) ≡ true }
    requires page { x.0 < page_count store.old.shape }
    requires ready { IsReady store.old (D.state disk.old) (V.state vault.old) }
    requires quiet { IsTrue D.told → IsQuiet store.old (D.state disk.old).block }
    ensures works { Works n.0 store.old store.new (D.state disk.old) (D.state disk.new) (V.state vault.old) (V.state vault.new) }
    ensures writes { IsTrue D.told → Writes n.0 store.old store.new (D.state disk.old).block (D.state disk.new).block }
    ensures vault_outcomes { IsTrue V.told → Narrows (V.state vault.old).block (V.state vault.new).block }
    ensures cause { IfErr result (λ why. HasCause why (D.state disk.old) (D.state disk.new)) }
    ensures fault { IfErr result (IsFaultOfPage store.old.shape n.0 x) }
    ensures told { IsTrue D.told → IfErr result (IsToldOfPages store.old.shape (contents (D.state disk.new).block)) }
    ensures down { IfErr result (λ why. says_stop why ≡ true → node_at store.new.nodes n.0 ≡ Down) }
    ensures kept { IfErr result (λ why. says_stop why ≡ false → (store.new ≡ store.old) × (IsTrue D.told → (D.state disk.new).block ≡ (D.state disk.old).block)) }
    ensures same { OnOk result ((store.new ≡ store.old) × (IsTrue D.told → (D.state disk.new).block ≡ (D.state disk.old).block)) }
    ensures led { IfErr result (λ why. IsTrue D.told → (m : Machine) → Endures store.old (D.state disk.old).block m → LedOnStop n.0 why [] m (Endures store.new (D.state disk.new).block)) }
    ensures stopped { OnUp (node_at store.old.nodes n.0) (λ c seats. IsTrue (is_cached x c) × (is_changed x c ≡ false)) → IfErr result (λ why. IsTrue D.told → (m : Machine) → IsShown store.old (D.state disk.old).block m → IsStopReply n.0 why) }
{
    let fault = match &mut store.nodes[place(n)] {
        Node::Up(cache, _seats) => match cache.reread(disk, &store.shape, x) {
            Ok(()) => return Ok(()),
            Err(fault) => fault,
        },
        Node::Idle | Node::Down => unreachable!(),
    };
    Err(store.give_up(disk, vault, n, fault))
}
