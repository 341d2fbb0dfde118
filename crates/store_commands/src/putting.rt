//! A record is written into the page that its group has, or into one that the group gets.

ghost use Rattle.std.specs.Prelude.{◌≡◌, ◌⊎◌, ◌≤◌, ◌<◌, ◌^◌, ◌∷◌, [], true, false, nat_le, ℕ, List, Option, Some, None, IsTrue, IsOk, IfErr, IfOk, IfSome, OnErr, OnOk, length, unwrap_or};
ghost use Rattle.std.specs.List.{position};
ghost use Rattle.sd_base.specs.Calls.{Narrows};
ghost use Rattle.sd_base.specs.Shape.{page_count};
ghost use Rattle.sd_base.specs.Places.{map_of_data, map_of_key, slot_of_key};
ghost use Rattle.page_image.specs.declared.page_view.PageView.{PageView};
ghost use Rattle.space_map.specs.Entry.{is_free};
ghost use Rattle.space_map.specs.Image.{MapImage};
ghost use Rattle.private_log.specs.Reading.{contents};
ghost use Rattle.compensation.specs.Inverse.{content};
ghost use Rattle.txn_core.specs.Updates.{FitsSlotOf};
ghost use Rattle.record_locks.specs.declared.mode.Mode.TheVariants as locks;
ghost use Rattle.record_locks.specs.Answer.{lock_answer, may_take};
ghost use Rattle.script_text.specs.declared.reply.Reply.TheVariants as says;
ghost use Rattle.record_machine.specs.Commands.{at_limit, first_of, no_page, takes_target, target, to_write, where_so};
ghost use Rattle.record_machine.specs.Commands as wants;
ghost use Rattle.record_machine.specs.Machine.{Machine, home, new_home, seen};
ghost use Rattle.record_machine.specs.Parts.{Change as Changed, Lock, dos};
ghost use Rattle.store_nodes.specs.declared.node.Node.TheVariants.{Down};
ghost use Rattle.store_nodes.specs.Causes.{IsToldOfPages};
ghost use Rattle.store_nodes.specs.Footprint.{FillsNoBlock, KeepsCache, TookPage};
ghost use Rattle.store_nodes.specs.Known.{checked, no_room};
ghost use Rattle.store_nodes.specs.Nodes.{IsPlace, IsStore, is_up, node_at};
ghost use Rattle.store_nodes.specs.Pages.{HasCached, KeepsWork, ShowsData, ShowsMap, has_txn, room_in, value_after};
ghost use Rattle.store_nodes.specs.Ports.{HasCause, IsQuiet, IsReady, IsStopReply, SaysStopOf, UnlessStop, Works, WorksWith, Writes, WritesWith, says_stop};
ghost use Rattle.store_nodes.specs.Shows.{IsShown};
ghost use Rattle.store_commands.specs.Answering.{Answers, new_parts, new_takes, reply_of};
ghost use Rattle.store_commands.specs.AtHand.{CanWriteAt, HasBoth, IsAtHand, MakesRoomWith};
ghost use Rattle.store_commands.specs.Changing.{Suits, length_refusal, new_place};
ghost use Rattle.store_commands.specs.Faults.{IsWriteReason};
ghost use Rattle.store_commands.specs.Reasons.{HasNoPage, IsPageFor, IsWriteRefusal};
ghost use Rattle.store_commands.specs.Taking.{UnlessHeld};

use crate::group_page::{take_data, take_group};
use record_locks::Mode;
use script_text::Reply;
use sd_base::{Disk, Key, NodeId, PageNo, TxnId, Value};
use store_nodes::Store;
use store_pages::{data_ident, free_place, map_ident, slot_of};
use txn_core::Change;

/// A page whose identifier is this or more takes no further change.
const IDENT_LIMIT: u64 = 1 << 63;

/// How many bytes a record has; an absent one has none.
fn length_of(held: Option<Value>) -> usize
    ensures length { result ≡ length (unwrap_or held []) }
    ensures high { result ≤ 248 }
{
    match held {
        Some(value) => value.as_slice().len(),
        None => 0,
    }
}

/// The record in a slot of a data page that the node has cached isn't too long after the change.
fn check_length(store: &Store, n: NodeId, x: PageNo, slot: u8, what: &Change) -> Result<(), Reply>
    requires node { IsPlace n.0 }
    requires is { IsStore store.now }
    requires up { is_up (node_at store.now.nodes n.0) ≡ true }
    requires data { store.now.shape.maps ≤ x.0 }
    requires slot { slot ≤ 15 }
    requires cached { HasCached store.now n.0 x }
    ensures { (v : PageView) → ShowsData store.now n.0 x v → result ≡ checked (length_refusal what.now (content v slot)) }
{
    match what {
        Change::Append(bytes) => {
            let len = length_of(slot_of(store, n, x, slot)) + bytes.as_slice().len();
            if len > Value::MAX_LEN {
                return Err(Reply::TooLong(len as u32));
            }
            Ok(())
        }
        Change::Put(_) | Change::Delete => Ok(()),
    }
}

/// A record of a data page that the node has cached can be changed: the page takes one more change, the
/// record isn't too long then, and the log has room for so many records.
fn check_change(
    store: &Store,
    n: NodeId,
    x: PageNo,
    key: Key,
    what: &Change,
    need: u64,
) -> Result<(), Reply>
    requires node { IsPlace n.0 }
    requires is { IsStore store.now }
    requires up { is_up (node_at store.now.nodes n.0) ≡ true }
    requires data { store.now.shape.maps ≤ x.0 }
    requires cached { HasCached store.now n.0 x }
    ensures tests { (v : PageView) → ShowsData store.now n.0 x v → result ≡ checked (first_of (where_so (nat_le (2 ^ 63) v.ident) (says.Limit x) ∷ length_refusal what.now (content v (slot_of_key key.0)) ∷ no_room store.now n need ∷ [])) }
    ensures there { (v : PageView) × ShowsData store.now n.0 x v }
{
    if data_ident(store, n, x) >= IDENT_LIMIT {
        return Err(Reply::Limit(x));
    }
    check_length(store, n, x, key.slot(), what)?;
    store.check_room(n, need)
}

/// A map page that the node has cached takes one more change.
fn check_map(store: &Store, n: NodeId, map: PageNo) -> Result<(), Reply>
    requires node { IsPlace n.0 }
    requires is { IsStore store.now }
    requires up { is_up (node_at store.now.nodes n.0) ≡ true }
    requires map { map.0 < store.now.shape.maps }
    requires cached { HasCached store.now n.0 map }
    ensures tests { (image : MapImage) → ShowsMap store.now n.0 map image → result ≡ checked (where_so (nat_le (2 ^ 63) image.ident) (says.Limit map)) }
    ensures there { (image : MapImage) × ShowsMap store.now n.0 map image }
{
    if map_ident(store, n, map) >= IDENT_LIMIT {
        return Err(Reply::Limit(map));
    }
    Ok(())
}

/// The place of a cached map page that a group gets which has none.
fn new_place(store: &Store, n: NodeId, map: PageNo) -> Result<u8, Reply>
    requires node { IsPlace n.0 }
    requires is { IsStore store.now }
    requires up { is_up (node_at store.now.nodes n.0) ≡ true }
    requires map { map.0 < store.now.shape.maps }
    requires cached { HasCached store.now n.0 map }
    ensures is { (image : MapImage) → ShowsMap store.now n.0 map image → result ≡ new_place map image }
    ensures place { IfOk result (λ place. place ≤ 251) }
    ensures there { (image : MapImage) × ShowsMap store.now n.0 map image }
{
    match free_place(store, n, map) {
        Some(place) => Ok(place),
        None => {
            check_map(store, n, map)?;
            Err(Reply::NoSpace(map))
        }
    }
}

/// A group without a page can get this cached one of its cached map page, and a record be written into it:
/// the map page takes one more change, and then the record can be changed.
fn check_anew(
    store: &Store,
    n: NodeId,
    map: PageNo,
    x: PageNo,
    key: Key,
    what: &Change,
) -> Result<(), Reply>
    requires node { IsPlace n.0 }
    requires is { IsStore store.now }
    requires up { is_up (node_at store.now.nodes n.0) ≡ true }
    requires map { map.0 < store.now.shape.maps }
    requires data { store.now.shape.maps ≤ x.0 }
    requires map_cached { HasCached store.now n.0 map }
    requires cached { HasCached store.now n.0 x }
    ensures tests { (image : MapImage) (v : PageView) → ShowsMap store.now n.0 map image → ShowsData store.now n.0 x v
        → result ≡ checked (first_of (where_so (nat_le (2 ^ 63) image.ident) (says.Limit map) ∷ where_so (nat_le (2 ^ 63) v.ident) (says.Limit x) ∷ length_refusal what.now (content v (slot_of_key key.0)) ∷ no_room store.now n 3 ∷ [])) }
    ensures map_there { (image : MapImage) × ShowsMap store.now n.0 map image }
    ensures there { (v : PageView) × ShowsData store.now n.0 x v }
{
    check_map(store, n, map).and(check_change(store, n, x, key, what, 3))
}

/// Takes the lock on a record, and changes it in the cached page of its group.
fn write<D: Disk, V: Disk>(
    store: &mut Store,
    disk: &mut D,
    vault: &mut V,
    t: TxnId,
    key: Key,
    x: PageNo,
    what: &Change,
) -> Result<(), Reply>
    requires node { IsPlace t.node.0 }
    requires up { is_up (node_at store.old.nodes t.node.0) ≡ true }
    requires seat { t.seat ≤ 7 }
    requires busy { has_txn (node_at store.old.nodes t.node.0) t ≡ true }
    requires lock { IsTrue (may_take (lock_answer store.old.shared.locks key t locks.Write)) }
    requires place { (store.old.shape.maps ≤ x.0) × (x.0 < page_count store.old.shape) }
    requires page { (v : PageView) × ShowsData store.old t.node.0 x v × (v.ident < 2 ^ 63) × FitsSlotOf v (slot_of_key key.0) what.now }
    requires room { 2 ≤ room_in (node_at store.old.nodes t.node.0) }
    requires ready { IsReady store.old (D.state disk.old) (V.state vault.old) }
    requires quiet { IsTrue D.told → IsQuiet store.old (D.state disk.old).block }
    ensures works { Works t.node.0 store.old store.new (D.state disk.old) (D.state disk.new) (V.state vault.old) (V.state vault.new) }
    ensures writes { IsTrue D.told → Writes t.node.0 store.old store.new (D.state disk.old).block (D.state disk.new).block }
    ensures vault_outcomes { IsTrue V.told → Narrows (V.state vault.old).block (V.state vault.new).block }
    ensures cause { IfErr result (λ why. HasCause why (D.state disk.old) (D.state disk.new)) }
    ensures stopped { IfErr result (IsStopReply t.node.0) }
    ensures up { OnOk result (is_up (node_at store.new.nodes t.node.0) ≡ true) }
    ensures down { OnErr result (node_at store.new.nodes t.node.0 ≡ Down) }
    ensures shows { OnOk result (IsTrue D.told → (m : Machine) → home m key.0 ≡ Some x.0 → IsShown store.old (D.state disk.old).block m
        → IsShown store.new (D.state disk.new).block (dos (Lock key t locks.Write ∷ Changed t (record { key = key.0; page = x.0; value = value_after what.now (seen m t key.0) }) ∷ []) m)) }
    ensures pages { OnOk result (IsTrue D.told → KeepsCache t.node.0 store.old store.new (D.state disk.old).block (D.state disk.new).block) }
    ensures memory { FillsNoBlock store.old t.node.0 1 → (IsOk result) × (disk.new ≡ disk.old) × (vault.new ≡ vault.old) }
{
    store.shared.locks.take(key, t, Mode::Write);
    store.change(disk, vault, t, x, key.slot(), what)
}

/// Changes a record in the cached page that its group has, where that can be done.
///
/// What it is refused for leaves all as it was. It takes the lock only once all tests are passed.
pub fn write_there<D: Disk, V: Disk>(
    store: &mut Store,
    disk: &mut D,
    vault: &mut V,
    t: TxnId,
    key: Key,
    x: PageNo,
    what: &Change,
) -> Result<(), Reply>
    requires node { IsPlace t.node.0 }
    requires up { is_up (node_at store.old.nodes t.node.0) ≡ true }
    requires seat { t.seat ≤ 7 }
    requires busy { has_txn (node_at store.old.nodes t.node.0) t ≡ true }
    requires lock { IsTrue (may_take (lock_answer store.old.shared.locks key t locks.Write)) }
    requires suits { (v : PageView) → ShowsData store.old t.node.0 x v → Suits what.now (content v (slot_of_key key.0)) }
    requires place { (store.old.shape.maps ≤ x.0) × (x.0 < page_count store.old.shape) }
    requires cached { HasCached store.old t.node.0 x }
    requires ready { IsReady store.old (D.state disk.old) (V.state vault.old) }
    requires quiet { IsTrue D.told → IsQuiet store.old (D.state disk.old).block }
    ensures works { Works t.node.0 store.old store.new (D.state disk.old) (D.state disk.new) (V.state vault.old) (V.state vault.new) }
    ensures writes { IsTrue D.told → Writes t.node.0 store.old store.new (D.state disk.old).block (D.state disk.new).block }
    ensures vault_outcomes { IsTrue V.told → Narrows (V.state vault.old).block (V.state vault.new).block }
    ensures cause { IfErr result (λ why. HasCause why (D.state disk.old) (D.state disk.new)) }
    ensures refused { IsPageFor store.old.shape key x → IfErr result (λ why. IsStopReply t.node.0 why ⊎ IsWriteRefusal store.new t.node.0 key what.now why) }
    ensures up { OnOk result (is_up (node_at store.new.nodes t.node.0) ≡ true) }
    ensures down { IfErr result (λ why. (h : ℕ) → IsStopReply h why → (h ≡ t.node.0) × (node_at store.new.nodes h ≡ Down)) }
    ensures kept { IfErr result (λ why. says_stop why ≡ false → (store.new ≡ store.old) × (disk.new ≡ disk.old) × (vault.new ≡ vault.old)) }
    ensures step { IsTrue D.told → says_stop (reply_of result) ≡ false → (m : Machine) → home m key.0 ≡ Some x.0 → IsShown store.old (D.state disk.old).block m
        → Answers (first_of (at_limit m x.0 ∷ length_refusal what.now (seen m t key.0) ∷ wants.no_room m t.node 2 ∷ [])) result (IsShown store.new (D.state disk.new).block (dos (Lock key t locks.Write ∷ Changed t (record { key = key.0; page = x.0; value = value_after what.now (seen m t key.0) }) ∷ []) m)) (IsShown store.new (D.state disk.new).block m) }
    ensures pages { OnOk result (IsTrue D.told → KeepsCache t.node.0 store.old store.new (D.state disk.old).block (D.state disk.new).block) }
    ensures memory { FillsNoBlock store.old t.node.0 1 → (disk.new ≡ disk.old) × (vault.new ≡ vault.old) }
{
    check_change(store, t.node, x, key, what, 2)?;
    write(store, disk, vault, t, key, x, what)
}

/// Writes a record whose group has no page into the first free one of its cached map page, where that can
/// be done. It takes that page before it tests anything but that there is one.
fn write_anew<D: Disk, V: Disk>(
    store: &mut Store,
    disk: &mut D,
    vault: &mut V,
    t: TxnId,
    key: Key,
    what: &Change,
) -> Result<(), Reply>
    requires node { IsPlace t.node.0 }
    requires up { is_up (node_at store.old.nodes t.node.0) ≡ true }
    requires seat { t.seat ≤ 7 }
    requires busy { has_txn (node_at store.old.nodes t.node.0) t ≡ true }
    requires lock { IsTrue (may_take (lock_answer store.old.shared.locks key t locks.Write)) }
    requires suits { Suits what.now None }
    requires cached { HasCached store.old t.node.0 (record { 0 = map_of_key store.old.shape key.0 }) }
    requires ready { IsReady store.old (D.state disk.old) (V.state vault.old) }
    requires quiet { IsTrue D.told → IsQuiet store.old (D.state disk.old).block }
    ensures works { WorksWith t.node.0 (SaysStopOf result) store.old store.new (D.state disk.old) (D.state disk.new) (V.state vault.old) (V.state vault.new) }
    ensures writes { IsTrue D.told → WritesWith t.node.0 store.old store.new (D.state disk.old).block (D.state disk.new).block }
    ensures vault_outcomes { IsTrue V.told → Narrows (V.state vault.old).block (V.state vault.new).block }
    ensures cause { IfErr result (λ why. HasCause why (D.state disk.old) (D.state disk.new)) }
    ensures refused { HasNoPage store.old t.node.0 key → IfErr result (IsWriteReason store.old store.new t.node.0 key what.now) }
    ensures told { IsTrue D.told → HasNoPage store.old t.node.0 key → IfErr result (IsToldOfPages store.old.shape (contents (D.state disk.new).block)) }
    ensures down { IfErr result (λ why. (h : ℕ) → IsStopReply h why → node_at store.new.nodes h ≡ Down) }
    ensures up { OnOk result (is_up (node_at store.new.nodes t.node.0) ≡ true) }
    ensures kept { IfErr result (λ why. says_stop why ≡ false → KeepsWork t.node.0 store.old store.new) }
    ensures step { IsTrue D.told → (m : Machine) → home m key.0 ≡ None → IsShown store.old (D.state disk.old).block m
        → UnlessStop result (UnlessHeld m (new_takes t.node.0 (new_home m key.0)) result (IsShown store.new (D.state disk.new).block)
        (Answers (no_page m t.node key.0 (length_refusal what.now (seen m t key.0))) result (IsShown store.new (D.state disk.new).block (dos (new_parts m t key (value_after what.now (seen m t key.0))) m)) (IsShown store.new (D.state disk.new).block (dos (new_takes t.node.0 (new_home m key.0)) m)))) }
    ensures taken { OnOk result (IsTrue D.told → (m : Machine) → home m key.0 ≡ None → IsShown store.old (D.state disk.old).block m → HasBoth store.new t.node.0 m key.0 (new_home m key.0)) }
    ensures made_room { OnOk result (IsTrue D.told → (x : PageNo) × (store.old.shape.maps ≤ x.0) × (map_of_data store.old.shape x ≡ record { 0 = map_of_key store.old.shape key.0 }) × IsPageFor store.old.shape key x × TookPage t.node x store.old store.new (D.state disk.old).block (D.state disk.new).block) }
    ensures memory { (image : MapImage) → ShowsMap store.old t.node.0 (record { 0 = map_of_key store.old.shape key.0 }) image → IfSome (position is_free image.entries) (CanWriteAt store.old t.node.0 (map_of_key store.old.shape key.0) 2)
        → (disk.new ≡ disk.old) × (vault.new ≡ vault.old) }
{
    let map = store.shape.map_of_key(key);
    let place = new_place(store, t.node, map)?;
    let x = take_data(store, disk, vault, t.node, map, place)?;
    check_anew(store, t.node, map, x, key, what)?;
    store.use_place(disk, vault, t.node, map, place, key.group())?;
    write(store, disk, vault, t, key, x, what)
}

/// Writes a record into its group's page, or into the one that the group gets, where it can be written.
pub fn write_record<D: Disk, V: Disk>(
    store: &mut Store,
    disk: &mut D,
    vault: &mut V,
    t: TxnId,
    key: Key,
    what: &Change,
) -> Result<(), Reply>
    requires node { IsPlace t.node.0 }
    requires up { is_up (node_at store.old.nodes t.node.0) ≡ true }
    requires seat { t.seat ≤ 7 }
    requires busy { has_txn (node_at store.old.nodes t.node.0) t ≡ true }
    requires lock { IsTrue (may_take (lock_answer store.old.shared.locks key t locks.Write)) }
    requires suits { (v : Option (List ℕ)) → Suits what.now v }
    requires ready { IsReady store.old (D.state disk.old) (V.state vault.old) }
    requires quiet { IsTrue D.told → IsQuiet store.old (D.state disk.old).block }
    ensures works { WorksWith t.node.0 (SaysStopOf result) store.old store.new (D.state disk.old) (D.state disk.new) (V.state vault.old) (V.state vault.new) }
    ensures writes { IsTrue D.told → WritesWith t.node.0 store.old store.new (D.state disk.old).block (D.state disk.new).block }
    ensures vault_outcomes { IsTrue V.told → Narrows (V.state vault.old).block (V.state vault.new).block }
    ensures cause { IfErr result (λ why. HasCause why (D.state disk.old) (D.state disk.new)) }
    ensures refused { IfErr result (IsWriteReason store.old store.new t.node.0 key what.now) }
    ensures told { IsTrue D.told → IfErr result (IsToldOfPages store.old.shape (contents (D.state disk.new).block)) }
    ensures down { IfErr result (λ why. (h : ℕ) → IsStopReply h why → node_at store.new.nodes h ≡ Down) }
    ensures up { OnOk result (is_up (node_at store.new.nodes t.node.0) ≡ true) }
    ensures kept { IfErr result (λ why. says_stop why ≡ false → KeepsWork t.node.0 store.old store.new) }
    ensures step { IsTrue D.told → (m : Machine) → IsShown store.old (D.state disk.old).block m
        → UnlessStop result (UnlessHeld m (takes_target m t key) result (IsShown store.new (D.state disk.new).block)
        (Answers (no_page m t.node key.0 (length_refusal what.now (seen m t key.0))) result (IsShown store.new (D.state disk.new).block (dos (to_write m t key (value_after what.now (seen m t key.0))) m)) (IsShown store.new (D.state disk.new).block (dos (takes_target m t key) m)))) }
    ensures taken { OnOk result (IsTrue D.told → (m : Machine) → IsShown store.old (D.state disk.old).block m → HasBoth store.new t.node.0 m key.0 (target m key.0)) }
    ensures made_room { OnOk result (IsTrue D.told → MakesRoomWith t.node key store.old store.new (D.state disk.old).block (D.state disk.new).block) }
    ensures memory { IsAtHand store.old t.node.0 key.0 → (disk.new ≡ disk.old) × (vault.new ≡ vault.old) }
{
    match take_group(store, disk, vault, t.node, key)? {
        Some(x) => write_there(store, disk, vault, t, key, x, what),
        None => write_anew(store, disk, vault, t, key, what),
    }
}
