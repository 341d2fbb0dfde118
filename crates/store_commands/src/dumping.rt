//! What a dump finds next: the record with the least key from one on.

ghost use Rattle.std.specs.Prelude.{◌≡◌, ◌^◌, ◌≤◌, ◌<◌, true, ℕ, Some, None, IsTrue, IfErr, IfNone, IfOk, IfSome, OnOk};
ghost use Rattle.sd_base.specs.Calls.{Narrows};
ghost use Rattle.sd_base.specs.Places.{first_key, group_of, slot_of_key};
ghost use Rattle.page_image.specs.declared.page_view.PageView.{PageView};
ghost use Rattle.compensation.specs.Inverse.{content};
ghost use Rattle.private_log.specs.Reading.{contents};
ghost use Rattle.record_locks.specs.Held.{least_where};
ghost use Rattle.record_machine.specs.Machine.{Machine};
ghost use Rattle.record_machine.specs.Steps.{NextOrStop};
ghost use Rattle.store_nodes.specs.declared.node.Node.TheVariants.{Down};
ghost use Rattle.store_nodes.specs.Causes.{IsToldOfPages};
ghost use Rattle.store_nodes.specs.Nodes.{IsPlace, IsStore, is_up, node_at};
ghost use Rattle.store_nodes.specs.Pages.{AreUnused, HasCached, KeepsWork, ShowsData};
ghost use Rattle.store_nodes.specs.Ports.{HasCause, IsQuiet, IsReady, IsStopReply, SaysStopOf, UnlessStop, WorksWith, WritesWith};
ghost use Rattle.store_nodes.specs.Shows.{IsShown};
ghost use Rattle.store_commands.specs.Dumps.{DumpsOn, IsDumpFault, IsFirstRecord, IsFoundFrom, IsFoundInGroup, LeadsOn, TakesOf, group_end, reply_row};
ghost use Rattle.store_commands.specs.Reasons.{IsFoundIn};

use crate::group_page::take_group;
use script_text::Reply;
use sd_base::{Disk, GroupNo, KEYS_PER_GROUP, Key, MAX_GROUP, NodeId, PageNo, Value};
use store_nodes::Store;
use store_pages::{next_group, slot_of, take};

/// The groups end here: that of the greatest key is the last one.
const GROUPS: u32 = MAX_GROUP + 1;

/// How many keys a group has.
const GROUP_KEYS: u64 = KEYS_PER_GROUP as u64;

/// A record, with its key.
#[derive(Clone, Copy)]
pub struct Row {
    /// The key.
    pub key: Key,
    /// What the record holds.
    pub value: Value,
}

/// What is found where the records from a group on are looked for.
pub(crate) enum Found {
    /// The first record.
    Record(Row),
    /// No group below this one has a record, and the search is to go on from there.
    NoneBelow(u32),
}

/// The reply where the next record is asked for.
pub fn reply_row(found: Result<Option<Row>, Reply>) -> Reply
    ensures { result ≡ reply_row found }
{
    match found {
        Ok(Some(row)) => Reply::Row(row.key, row.value),
        Ok(None) => Reply::NoMore,
        Err(why) => why,
    }
}

/// Takes all map pages, in their order, and finds the least group from this one on that has a page, or
/// where the groups end.
fn find_group<D: Disk, V: Disk>(
    store: &mut Store,
    disk: &mut D,
    vault: &mut V,
    n: NodeId,
    first: u32,
) -> Result<u32, Reply>
    requires node { IsPlace n.0 }
    requires up { is_up (node_at store.old.nodes n.0) ≡ true }
    requires range { first ≤ 2 ^ 28 }
    requires ready { IsReady store.old (D.state disk.old) (V.state vault.old) }
    requires quiet { IsTrue D.told → IsQuiet store.old (D.state disk.old).block }
    ensures takes { TakesOf n.0 result (IsTrue D.told) (IsTrue V.told) store.old store.new (D.state disk.old) (D.state disk.new) (V.state vault.old) (V.state vault.new) }
    ensures within { IfOk result (λ g. (first ≤ g) × (g ≤ 2 ^ 28)) }
    ensures step { IsTrue D.told → (m : Machine) → IsShown store.old (D.state disk.old).block m
        → UnlessStop result (DumpsOn m n result (IsShown store.new (D.state disk.new).block) (λ g. (x : ℕ) → x < m.shape.maps → AreUnused first g (m.entries x))) }
{
    let mut least = GROUPS;
    for x in 0..store.shape.maps {
        take(store, disk, vault, n, PageNo(x), None)?;
        least = next_group(store, n, PageNo(x), first, least);
    }
    Ok(least)
}

/// The first record from a key on in the page of the key's group, which node n has cached.
fn next_in_page(store: &Store, n: NodeId, x: PageNo, first: Key) -> Option<Row>
    requires node { IsPlace n.0 }
    requires is { IsStore store.now }
    requires up { is_up (node_at store.now.nodes n.0) ≡ true }
    requires data { store.now.shape.maps ≤ x.0 }
    requires cached { HasCached store.now n.0 x }
    ensures some { IfSome result (λ r. (first.0 ≤ r.key.0) × ((group_of r.key.0).0 ≡ (group_of first.0).0) × ((v : PageView) → ShowsData store.now n.0 x v → content v (slot_of_key r.key.0) ≡ Some r.value)) }
    ensures least { IfSome result (λ r. (v : PageView) → ShowsData store.now n.0 x v → (k : ℕ) → first.0 ≤ k → k < r.key.0 → content v (slot_of_key k) ≡ None) }
    ensures none { IfNone result ((v : PageView) → ShowsData store.now n.0 x v → (k : ℕ) → first.0 ≤ k → k < group_end first.0 → content v (slot_of_key k) ≡ None) }
    ensures there { (v : PageView) × ShowsData store.now n.0 x v }
{
    let end = GroupNo(first.group().0 + 1).first_key();
    for k in u64::from(first.0)..end {
        let key = Key(k as u32);
        if let Some(value) = slot_of(store, n, x, key.slot()) {
            return Some(Row { key, value });
        }
    }
    None
}

/// Takes the page of a key's group, if it has one, and finds the group's first record from the key on.
fn find_in_group<D: Disk, V: Disk>(
    store: &mut Store,
    disk: &mut D,
    vault: &mut V,
    n: NodeId,
    first: Key,
) -> Result<Option<Row>, Reply>
    requires node { IsPlace n.0 }
    requires up { is_up (node_at store.old.nodes n.0) ≡ true }
    requires free { least_where (λ l mode. true) store.old.shared.locks ≡ None }
    requires ready { IsReady store.old (D.state disk.old) (V.state vault.old) }
    requires quiet { IsTrue D.told → IsQuiet store.old (D.state disk.old).block }
    ensures takes { TakesOf n.0 result (IsTrue D.told) (IsTrue V.told) store.old store.new (D.state disk.old) (D.state disk.new) (V.state vault.old) (V.state vault.new) }
    ensures read { IfOk result (λ found. IfSome found (λ r. (first.0 ≤ r.key.0) × IsFoundIn store.new n.0 r.key (Some r.value))) }
    ensures step { IsTrue D.told → (m : Machine) → IsShown store.old (D.state disk.old).block m
        → UnlessStop result (DumpsOn m n result (IsShown store.new (D.state disk.new).block) (IsFoundInGroup m first.0)) }
{
    match take_group(store, disk, vault, n, first)? {
        Some(x) => Ok(next_in_page(store, n, x, first)),
        None => Ok(None),
    }
}

/// Looks for the first record from a group on, in the page of the least one that has a page.
fn find_from<D: Disk, V: Disk>(
    store: &mut Store,
    disk: &mut D,
    vault: &mut V,
    n: NodeId,
    first: u32,
) -> Result<Found, Reply>
    requires node { IsPlace n.0 }
    requires up { is_up (node_at store.old.nodes n.0) ≡ true }
    requires free { least_where (λ l mode. true) store.old.shared.locks ≡ None }
    requires range { first < 2 ^ 28 }
    requires ready { IsReady store.old (D.state disk.old) (V.state vault.old) }
    requires quiet { IsTrue D.told → IsQuiet store.old (D.state disk.old).block }
    ensures takes { TakesOf n.0 result (IsTrue D.told) (IsTrue V.told) store.old store.new (D.state disk.old) (D.state disk.new) (V.state vault.old) (V.state vault.new) }
    ensures leads { IfOk result (LeadsOn store.new n.0 first) }
    ensures step { IsTrue D.told → (m : Machine) → IsShown store.old (D.state disk.old).block m
        → UnlessStop result (DumpsOn m n result (IsShown store.new (D.state disk.new).block) (IsFoundFrom m first)) }
{
    let group = find_group(store, disk, vault, n, first)?;
    if group == GROUPS {
        return Ok(Found::NoneBelow(GROUPS));
    }
    match find_in_group(
        store,
        disk,
        vault,
        n,
        Key(GroupNo(group).first_key() as u32),
    )? {
        Some(row) => Ok(Found::Record(row)),
        None => Ok(Found::NoneBelow(group + 1)),
    }
}

/// The first record from a group on.
fn find_onward<D: Disk, V: Disk>(
    store: &mut Store,
    disk: &mut D,
    vault: &mut V,
    n: NodeId,
    first: u32,
) -> Result<Option<Row>, Reply>
    requires node { IsPlace n.0 }
    requires up { is_up (node_at store.old.nodes n.0) ≡ true }
    requires free { least_where (λ l mode. true) store.old.shared.locks ≡ None }
    requires range { first ≤ 2 ^ 28 }
    requires ready { IsReady store.old (D.state disk.old) (V.state vault.old) }
    requires quiet { IsTrue D.told → IsQuiet store.old (D.state disk.old).block }
    ensures takes { TakesOf n.0 result (IsTrue D.told) (IsTrue V.told) store.old store.new (D.state disk.old) (D.state disk.new) (V.state vault.old) (V.state vault.new) }
    ensures read { IfOk result (λ found. IfSome found (λ r. (first_key first ≤ r.key.0) × IsFoundIn store.new n.0 r.key (Some r.value))) }
    ensures step { IsTrue D.told → (m : Machine) → IsShown store.old (D.state disk.old).block m
        → UnlessStop result (DumpsOn m n result (IsShown store.new (D.state disk.new).block) (IsFirstRecord m (first_key first))) }
{
    let mut first = first;
    while first < GROUPS {
        match find_from(store, disk, vault, n, first)? {
            Found::Record(row) => return Ok(Some(row)),
            Found::NoneBelow(end) => first = end,
        }
    }
    Ok(None)
}

/// The first record from a key on, where no transaction has a lock.
///
/// Where the key isn't the first one of its group, it looks in that group's page first, and only then goes
/// over the map pages, from the next group on. The pages that it needs are taken as their turn comes: where
/// a node that is down has one, that is answered.
pub fn find_record<D: Disk, V: Disk>(
    store: &mut Store,
    disk: &mut D,
    vault: &mut V,
    n: NodeId,
    first: u64,
) -> Result<Option<Row>, Reply>
    requires node { IsPlace n.0 }
    requires up { is_up (node_at store.old.nodes n.0) ≡ true }
    requires free { least_where (λ l mode. true) store.old.shared.locks ≡ None }
    requires range { first ≤ 2 ^ 32 }
    requires ready { IsReady store.old (D.state disk.old) (V.state vault.old) }
    requires quiet { IsTrue D.told → IsQuiet store.old (D.state disk.old).block }
    ensures works { WorksWith n.0 (SaysStopOf result) store.old store.new (D.state disk.old) (D.state disk.new) (V.state vault.old) (V.state vault.new) }
    ensures writes { IsTrue D.told → WritesWith n.0 store.old store.new (D.state disk.old).block (D.state disk.new).block }
    ensures vault_outcomes { IsTrue V.told → Narrows (V.state vault.old).block (V.state vault.new).block }
    ensures cause { IfErr result (λ why. HasCause why (D.state disk.old) (D.state disk.new)) }
    ensures fault { IfErr result (IsDumpFault store.old n.0) }
    ensures told { IsTrue D.told → IfErr result (IsToldOfPages store.old.shape (contents (D.state disk.new).block)) }
    ensures down { IfErr result (λ why. (h : ℕ) → IsStopReply h why → node_at store.new.nodes h ≡ Down) }
    ensures up { OnOk result (is_up (node_at store.new.nodes n.0) ≡ true) }
    ensures work { UnlessStop result (KeepsWork n.0 store.old store.new) }
    ensures read { IfOk result (λ found. IfSome found (λ r. (first ≤ r.key.0) × IsFoundIn store.new n.0 r.key (Some r.value))) }
    ensures step { IsTrue D.told → (m : Machine) → IsShown store.old (D.state disk.old).block m
        → UnlessStop result (NextOrStop m n first (reply_row result) (IsShown store.new (D.state disk.new).block)) }
{
    let group = (first / GROUP_KEYS) as u32;
    if first % GROUP_KEYS == 0 {
        return find_onward(store, disk, vault, n, group);
    }
    match find_in_group(store, disk, vault, n, Key(first as u32))? {
        Some(row) => Ok(Some(row)),
        None => find_onward(store, disk, vault, n, group + 1),
    }
}
