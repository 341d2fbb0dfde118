//! A store is formatted and opened, for which its memory is taken; and an open one is closed.

ghost use Rattle.std.specs.Prelude.{◌≡◌, ◌⊎◌, ◌+◌, ◌*◌, ℕ, true, false, None, IsTrue, IfErr, IfOk, OnOk, OnErr, replicate};
ghost use Rattle.std.specs.FinMap.{empty};
ghost use Rattle.sd_base.specs.Calls.{Narrows};
ghost use Rattle.sd_base.specs.Shape.{IsShape, page_count};
ghost use Rattle.page_owner.specs.declared.owners.Own.TheVariants.{Nobody};
ghost use Rattle.script_text.specs.declared.reply.Reply.TheVariants.{NoMem};
ghost use Rattle.store_format.specs.Device.{ComesToRest, IsIdle, NarrowsAt, TakesOver};
ghost use Rattle.store_format.specs.Formatted.{IsBornDisk, IsFormattedDisk, IsFormattedVault, TakesDisk, TakesVault};
ghost use Rattle.store_format.specs.Refusal.{FitsSizes, HasSuper, IsFormatRefusal, IsRefusal, MayHaveSuper, MustHaveSuper, OnFound};
ghost use Rattle.store_nodes.specs.declared.node.Node.TheVariants.{Idle};
ghost use Rattle.store_nodes.specs.Endures.{Endures};
ghost use Rattle.store_nodes.specs.Nodes.{IsPlace, IsStore, OthersStay, is_up, node_at};
ghost use Rattle.store_nodes.specs.Ports.{IsQuiet, IsReady, says_stop};
ghost use Rattle.store_nodes.specs.Shows.{ShowsStore};
ghost use Rattle.record_machine.specs.Machine.{formatted};
ghost use Rattle.record_machine.specs.Meaning.{born};

use crate::cluster::Cluster;
use frame_pool::Pool;
use page_owner::Owners;
use record_locks::Locks;
use script_text::Reply;
use sd_base::{Arm, Disk, NodeId, Shape};
use std::alloc::{AllocError, Global};
use store_format::{FIRST, law_of_formatted_disks, may_format, stop_all, write_store};
use store_nodes::{NODES, Node, Shared, Store};

/// Takes the memory of a store: 16 frames for each node, and 4 more.
fn take_memory(alloc: Global, s: &Shape) -> Result<Shared, AllocError>
    requires { IsShape s.now }
    ensures pool { IfOk result (λ shared. shared.pool ≡ replicate (16 * s.now.nodes + 4) None) }
    ensures owners { IfOk result (λ shared. shared.owners ≡ replicate (page_count s.now) Nobody) }
    ensures locks { IfOk result (λ shared. shared.locks ≡ empty) }
    ensures reopening { IfOk result (λ shared. shared.reopening ≡ false) }
{
    Ok(Shared {
        pool: Pool::new(alloc, 16 * u16::from(s.nodes) + 4)?,
        owners: Owners::new(alloc, s.page_count())?,
        locks: Locks::new(alloc)?,
        reopening: false,
    })
}

/// Stops all ports, looks for a store on the disk, tests the sizes, the disk's first, and takes the
/// memory. Port 1 of both devices may be used afterwards exactly where the answer is `Ok`.
fn prepare<D: Disk, V: Disk>(
    alloc: Global,
    disk: &mut D,
    vault: &mut V,
    s: &Shape,
) -> Result<Shared, Reply>
    requires { IsShape s.now }
    ensures disk { TakesOver (D.state disk.old) (D.state disk.new) }
    ensures vault { TakesOver (V.state vault.old) (V.state vault.new) }
    ensures disk_blocks { IsTrue D.told → ComesToRest (D.state disk.old).block (D.state disk.new).block }
    ensures vault_blocks { IsTrue V.told → ComesToRest (V.state vault.old).block (V.state vault.new).block }
    ensures live { OnOk result (((D.state disk.new).live 1 ≡ true) × ((V.state vault.new).live 1 ≡ true)) }
    ensures stopped { OnErr result (IsIdle (D.state disk.new) × IsIdle (V.state vault.new)) }
    ensures cause { IfErr result (λ why. (why ≡ NoMem) ⊎ IsRefusal why (D.state disk.old) (D.state disk.new)) }
    ensures sizes { FitsSizes s.now result (D.state disk.old).size (V.state vault.old).size }
    ensures found { IsTrue D.told → OnFound result (HasSuper (D.state disk.new)) (¬ (HasSuper (D.state disk.new))) }
    ensures before { IsTrue D.told → OnFound result (MayHaveSuper (D.state disk.old)) (¬ (MustHaveSuper (D.state disk.old))) }
    ensures pool { IfOk result (λ shared. shared.pool ≡ replicate (16 * s.now.nodes + 4) None) }
    ensures owners { IfOk result (λ shared. shared.owners ≡ replicate (page_count s.now) Nobody) }
    ensures locks { IfOk result (λ shared. shared.locks ≡ empty) }
    ensures reopening { IfOk result (λ shared. shared.reopening ≡ false) }
{
    may_format(disk, vault, s)?;
    match take_memory(alloc, s) {
        Ok(shared) => Ok(shared),
        Err(_) => {
            disk.stop(FIRST, 0);
            vault.stop(FIRST, 0);
            Err(Reply::NoMem)
        }
    }
}

/// The nodes of a store that has just been opened.
fn idle_nodes() -> [Node; NODES]
    ensures { result ≡ replicate 8 Idle }
{
    [
        Node::Idle,
        Node::Idle,
        Node::Idle,
        Node::Idle,
        Node::Idle,
        Node::Idle,
        Node::Idle,
        Node::Idle,
    ]
}

/// Ends the cache of a node, if that is up, once all ports have stopped.
fn take_one_down<D: Disk>(store: &mut Store, disk: &D, n: NodeId)
    requires node { IsPlace n.0 }
    requires is { IsStore store.old }
    requires stopped { IsIdle (D.state disk.now) }
    ensures is { IsStore store.new }
    ensures down { is_up (node_at store.new.nodes n.0) ≡ false }
    ensures others { OthersStay n.0 store.old.nodes store.new.nodes }
{
    if !store.node(n).is_up() {
        return;
    }
    store.take_down(disk, n);
}

/// Ends the caches of all nodes that are up, once all ports have stopped.
fn take_all_down<D: Disk>(mut store: Store, disk: &D) -> [Node; NODES]
    requires is { IsStore store }
    requires stopped { IsIdle (D.state disk.now) }
    ensures { (n : ℕ) → IsPlace n → is_up (node_at result n) ≡ false }
{
    for n in 1..9 {
        take_one_down(&mut store, disk, NodeId(n));
    }
    let Store {
        shape: _shape,
        shared: _shared,
        nodes,
    } = store;
    nodes
}

/// Ends a node that isn't up.
fn end_node(node: Node)
    requires { is_up node ≡ false }
{
    match node {
        Node::Idle | Node::Down => (),
        Node::Up(_cache, _seats) => unreachable!(),
    }
}

/// Ends nodes of which none is up. Each is ended by itself: an array of nodes can't be let go, since a
/// node could have a cache.
fn end_nodes(nodes: [Node; NODES])
    requires { (n : ℕ) → IsPlace n → is_up (node_at nodes n) ≡ false }
{
    let [first, second, third, fourth, fifth, sixth, seventh, eighth] = nodes;
    end_node(first);
    end_node(second);
    end_node(third);
    end_node(fourth);
    end_node(fifth);
    end_node(sixth);
    end_node(seventh);
    end_node(eighth);
}

impl Cluster {
    /// Writes an empty store of this shape to two devices, and opens it.
    ///
    /// It stops all ports first. It refuses where a store stands on the disk, where a device is too small,
    /// the disk first, and for want of memory, in this order and before it writes. After each answer no
    /// port is live.
    pub fn format<D: Arm, V: Arm>(
        alloc: Global,
        disk: &mut D,
        vault: &mut V,
        s: Shape,
    ) -> Result<Cluster, Reply>
        requires shape { IsShape s }
        ensures disk { TakesOver (D.state disk.old) (D.state disk.new) }
        ensures vault { TakesOver (V.state vault.old) (V.state vault.new) }
        ensures disk_idle { IsIdle (D.state disk.new) }
        ensures vault_idle { IsIdle (V.state vault.new) }
        ensures cause { IfErr result (λ why. IsFormatRefusal why (D.state disk.old) (D.state disk.new) (V.state vault.old) (V.state vault.new)) }
        ensures sizes { FitsSizes s result (D.state disk.old).size (V.state vault.old).size }
        ensures found { OnErr result (IsTrue D.told → OnFound result (HasSuper (D.state disk.new)) (¬ (HasSuper (D.state disk.new)))) }
        ensures before { IsTrue D.told → OnFound result (MayHaveSuper (D.state disk.old)) (¬ (MustHaveSuper (D.state disk.old))) }
        ensures disk_blocks { IsTrue D.told → TakesDisk s (D.state disk.old).block (D.state disk.new).block }
        ensures vault_blocks { IsTrue V.told → TakesVault s (V.state vault.old).block (V.state vault.new).block }
        ensures unwritten { IfErr result (λ why. says_stop why ≡ false → IsTrue D.told → Narrows (D.state disk.old).block (D.state disk.new).block) }
        ensures vault_unwritten { IfErr result (λ why. says_stop why ≡ false → IsTrue V.told → Narrows (V.state vault.old).block (V.state vault.new).block) }
        ensures super_behind_disk { OnErr result (IsTrue D.told → NarrowsAt 0 (D.state disk.old).block (D.state disk.new).block ⊎ IsBornDisk s (D.state disk.new).block) }
        ensures super_behind_vault { OnErr result (IsTrue D.told → IsTrue V.told → NarrowsAt 0 (D.state disk.old).block (D.state disk.new).block ⊎ IsFormattedVault s (V.state vault.new).block) }
        ensures shape { IfOk result (λ c. c.shape ≡ s) }
        ensures idle { IfOk result (λ c. (n : ℕ) → IsPlace n → node_at c.nodes n ≡ Idle) }
        ensures ready { IfOk result (λ c. IsReady c (D.state disk.new) (V.state vault.new)) }
        ensures quiet { IfOk result (λ c. IsTrue D.told → IsQuiet c (D.state disk.new).block) }
        ensures shows { IfOk result (λ c. IsTrue D.told → ShowsStore c (D.state disk.new).block (born s) (formatted s)) }
        ensures endures { IfOk result (λ c. IsTrue D.told → Endures c (D.state disk.new).block (formatted s)) }
        ensures disk_done { OnOk result (IsTrue D.told → IsFormattedDisk s (D.state disk.new).block) }
        ensures vault_done { OnOk result (IsTrue V.told → IsFormattedVault s (V.state vault.new).block) }
    {
        let shared = prepare(alloc, disk, vault, &s)?;
        write_store(disk, vault, &s)?;
        law_of_formatted_disks();
        Ok(Cluster {
            store: Store {
                shape: s,
                shared,
                nodes: idle_nodes(),
            },
        })
    }

    /// Ends a store that is open: all ports of both devices stop.
    pub fn close<D: Arm, V: Arm>(self, disk: &mut D, vault: &mut V)
        requires is { IsStore self }
        ensures disk_idle { IsIdle (D.state disk.new) }
        ensures vault_idle { IsIdle (V.state vault.new) }
        ensures disk { TakesOver (D.state disk.old) (D.state disk.new) }
        ensures vault { TakesOver (V.state vault.old) (V.state vault.new) }
        ensures disk_blocks { IsTrue D.told → ComesToRest (D.state disk.old).block (D.state disk.new).block }
        ensures vault_blocks { IsTrue V.told → ComesToRest (V.state vault.old).block (V.state vault.new).block }
    {
        stop_all(disk);
        stop_all(vault);
        let Cluster { store } = self;
        end_nodes(take_all_down(store, disk));
    }
}
