//! For an abort: which update is taken back next, and whether its page has room for that.

ghost use Rattle.std.specs.Prelude.{◌≡◌, ◌⊎◌, ◌*◌, ◌+◌, ◌^◌, ◌<◌, ◌≤◌, [], true, false, None, Some, ℕ, List, IsTrue, IfErr, IfOk, IfSome, IsOk, MatchOption, OnOk, map};
ghost use Rattle.sd_base.specs.Calls.{Keeps, KeepsForeign, Narrows, NoNewWriter};
ghost use Rattle.sd_base.specs.Faults.{Caused, IsStopOf, OnStop, StaysLive};
ghost use Rattle.sd_base.specs.Shape.{IsShape, page_count};
ghost use Rattle.log_record.specs.declared.record.LogRecord.{LogRecord};
ghost use Rattle.log_record.specs.Text.{record_text};
ghost use Rattle.private_log.specs.Content.{region_of};
ghost use Rattle.private_log.specs.Frames.{IsInReach};
ghost use Rattle.private_log.specs.Log.{region};
ghost use Rattle.private_log.specs.Reading.{IsLogFault};
ghost use Rattle.private_log.specs.Spread.{IsCutLog, IsFreeRegion, IsStill};
ghost use Rattle.node_cache.specs.Cache.{IsTiedToLog, is_cached};
ghost use Rattle.state_ids.specs.Blocks.{page_place};
ghost use Rattle.txn_core.specs.Seats.{AreTied, OpenTxn, is_busy, owed, txn_in};
ghost use Rattle.txn_core.specs.Told.{AreTold, HasRecords};
ghost use Rattle.record_machine.specs.Led.{LedOnStop};
ghost use Rattle.record_machine.specs.Machine.{Deed, Machine, Write, newest_of};
ghost use Rattle.store_nodes.specs.declared.node.Node.TheVariants.{Down};
ghost use Rattle.store_nodes.specs.Causes.{IsLogReply};
ghost use Rattle.store_nodes.specs.Endures.{Endures};
ghost use Rattle.store_nodes.specs.Nodes.{IsPlace, IsStore, OnUp, is_up, node_at};
ghost use Rattle.store_nodes.specs.Ports.{HasCause, IsQuiet, IsReady, IsStopReply, Works, Writes, says_stop};
ghost use Rattle.store_nodes.specs.Shows.{IsShown};
ghost use Rattle.store_pages.specs.Updates.{HasNoRoomFor, HasRoomFor, IsLeftAfter, IsLogBlock, IsNextAfter, IsNumberOf, IsWithin, left_on};

use crate::cached_pages::data_ident;
use node_cache::NodeCache;
use script_text::Reply;
use sd_base::{DevFault, Disk, MAX_IDENT, NodeId, PageNo, Shape, TxnId};
use store_nodes::{Node, Store, place};
use txn_core::Seats;

/// The update of a transaction that is to be taken back after the one with this number or, where none is
/// given, next.
fn find_update<D: Disk>(
    disk: &mut D,
    cache: &NodeCache,
    seats: &Seats,
    seat: u8,
    after: Option<u64>,
) -> Result<Option<(u64, PageNo)>, DevFault>
    requires seat { seat ≤ 7 }
    requires busy { IsTrue (is_busy seats.now seat) }
    requires within { IfSome after (IsWithin seats.now seat) }
    requires tie { AreTied seats.now cache.now }
    requires log_tie { IsTiedToLog cache.now }
    requires live { (D.state disk.old).live cache.now.node.0 ≡ true }
    requires reach { IsInReach (region cache.now.log) (D.state disk.old).reach }
    ensures keeps { Keeps cache.now.node.0 (D.state disk.old) (D.state disk.new) }
    ensures cause { IfErr result (λ fault. Caused fault (D.state disk.old) (D.state disk.new)) }
    ensures fault { IfErr result (IsLogFault (region cache.now.log) cache.now.node.0) }
    ensures live { StaysLive result ((D.state disk.new).live cache.now.node.0 ≡ true) }
    ensures stopped { IfErr result (λ fault. OnStop fault ((D.state disk.new).live cache.now.node.0 ≡ false)) }
    ensures outcomes { IsTrue D.told → Narrows (D.state disk.old).block (D.state disk.new).block }
    ensures writers { IsTrue D.told → NoNewWriter (D.state disk.old).block (D.state disk.new).block }
    ensures foreign { IsTrue D.told → KeepsForeign cache.now.node.0 (D.state disk.old).block (D.state disk.new).block }
    ensures blocks { IsTrue D.told → StaysLive result ((D.state disk.new).block ≡ (D.state disk.old).block) }
    ensures still { IfErr result (λ fault. OnStop fault (IsTrue D.told → IsFreeRegion (region cache.now.log) cache.now.node.0 (D.state disk.old).block → IsStill (region cache.now.log) (D.state disk.new).block)) }
    ensures cut { IfErr result (λ fault. OnStop fault (IsTrue D.told → IsFreeRegion (region cache.now.log) cache.now.node.0 (D.state disk.old).block → (recs : List LogRecord) → HasRecords cache.now.log (D.state disk.old).block recs
        → IsCutLog (region cache.now.log) cache.now.log.start cache.now.log.stable (D.state disk.new).block (map record_text recs))) }
    ensures within { IfOk result (λ o. IfSome o (λ u. IsWithin seats.now seat u.0)) }
    ensures behind { IfOk result (λ o. IfSome o (λ u. IfSome after (λ number. u.0 < number))) }
    ensures low { IfOk result (λ o. IfSome o (λ u. u.0 < 6 * 2 ^ 56)) }
    ensures left { after ≡ None → IfOk result (λ o. (t : OpenTxn) → txn_in seats.now seat ≡ Some t → MatchOption o (t.left ≡ 0) (λ u. 1 ≤ t.left)) }
    ensures found { IfOk result (λ o. IsTrue D.told → (recs : List LogRecord) (t : OpenTxn) (before : List ℕ) → txn_in seats.now seat ≡ Some t → HasRecords cache.now.log (D.state disk.old).block recs → AreTold seats.now cache.now.log.start recs
        → IsLeftAfter t.begin (6 * cache.now.log.start) recs after before → IsNextAfter t.begin (6 * cache.now.log.start) recs before o) }
    ensures there { IsTrue D.told → (recs : List LogRecord) (t : OpenTxn) (before : List ℕ) → txn_in seats.now seat ≡ Some t → HasRecords cache.now.log (D.state disk.old).block recs → AreTold seats.now cache.now.log.start recs
        → IsLeftAfter t.begin (6 * cache.now.log.start) recs after before → IfErr result (IsStopOf cache.now.node.0) }
{
    match after {
        None => seats.next(disk, cache, seat),
        Some(number) => seats.next_before(disk, cache, seat, number),
    }
}

/// An update that was found in the log of a node, where its page is a data page of the store. If it
/// isn't, the block of the update's record is damaged.
fn of_store(
    s: &Shape,
    n: NodeId,
    found: Option<(u64, PageNo)>,
) -> Result<Option<(u64, PageNo)>, Reply>
    requires shape { IsShape s.now }
    requires node { (1 ≤ n.0) × (n.0 ≤ s.now.nodes) }
    ensures same { IfOk result (λ o. o ≡ found) }
    ensures page { IfOk result (λ o. IfSome o (λ u. (s.now.maps ≤ u.1.0) × (u.1.0 < page_count s.now))) }
    ensures fault { IfErr result (IsLogBlock (region_of s.now n.0)) }
    ensures there { IfSome found (λ u. (s.now.maps ≤ u.1.0) × (u.1.0 < page_count s.now)) → IsOk result }
{
    match found {
        Some((number, x)) if x.0 < s.maps || x.0 >= s.page_count() => {
            Err(Reply::DamagedDisk(s.ring_block(n, number / 6)))
        }
        _ => Ok(found),
    }
}

/// The update of a transaction that is to be taken back after the one with this number or, where none is
/// given, next; and its page, a data page of the store. It is read from the log of the transaction's
/// node; where that can't be, a block of it is said to be damaged.
pub fn update_after<D: Disk, V: Disk>(
    store: &mut Store,
    disk: &mut D,
    vault: &mut V,
    t: TxnId,
    after: Option<u64>,
) -> Result<Option<(u64, PageNo)>, Reply>
    requires node { IsPlace t.node.0 }
    requires up { is_up (node_at store.old.nodes t.node.0) ≡ true }
    requires seat { t.seat ≤ 7 }
    requires busy { OnUp (node_at store.old.nodes t.node.0) (λ c seats. IsTrue (is_busy seats t.seat)) }
    requires within { IfSome after (λ number. OnUp (node_at store.old.nodes t.node.0) (λ c seats. IsWithin seats t.seat number)) }
    requires ready { IsReady store.old (D.state disk.old) (V.state vault.old) }
    requires quiet { IsTrue D.told → IsQuiet store.old (D.state disk.old).block }
    ensures works { Works t.node.0 store.old store.new (D.state disk.old) (D.state disk.new) (V.state vault.old) (V.state vault.new) }
    ensures writes { IsTrue D.told → Writes t.node.0 store.old store.new (D.state disk.old).block (D.state disk.new).block }
    ensures vault_outcomes { IsTrue V.told → Narrows (V.state vault.old).block (V.state vault.new).block }
    ensures cause { IfErr result (λ why. HasCause why (D.state disk.old) (D.state disk.new)) }
    ensures fault { IfErr result (IsLogReply t.node.0 (region_of store.old.shape t.node.0)) }
    ensures down { IfErr result (λ why. says_stop why ≡ true → node_at store.new.nodes t.node.0 ≡ Down) }
    ensures kept { IfErr result (λ why. says_stop why ≡ false → (store.new ≡ store.old) × (IsTrue D.told → (D.state disk.new).block ≡ (D.state disk.old).block)) }
    ensures same { OnOk result ((store.new ≡ store.old) × (IsTrue D.told → (D.state disk.new).block ≡ (D.state disk.old).block)) }
    ensures page { IfOk result (λ o. IfSome o (λ u. (store.old.shape.maps ≤ u.1.0) × (u.1.0 < page_count store.old.shape))) }
    ensures within { IfOk result (λ o. IfSome o (λ u. OnUp (node_at store.old.nodes t.node.0) (λ c seats. IsWithin seats t.seat u.0))) }
    ensures behind { IfOk result (λ o. IfSome o (λ u. IfSome after (λ number. u.0 < number))) }
    ensures low { IfOk result (λ o. IfSome o (λ u. u.0 < 6 * 2 ^ 56)) }
    ensures left { after ≡ None → IfOk result (λ o. OnUp (node_at store.old.nodes t.node.0) (λ c seats. (u : OpenTxn) → txn_in seats t.seat ≡ Some u → MatchOption o (u.left ≡ 0) (λ found. 1 ≤ u.left))) }
    ensures found { IfOk result (λ o. IsTrue D.told → OnUp (node_at store.old.nodes t.node.0) (λ c seats. (recs : List LogRecord) (u : OpenTxn) (before : List ℕ) → txn_in seats t.seat ≡ Some u → HasRecords c.log (D.state disk.old).block recs → AreTold seats c.log.start recs
        → IsLeftAfter u.begin (6 * c.log.start) recs after before → IsNextAfter u.begin (6 * c.log.start) recs before o)) }
    ensures led { IfErr result (λ why. IsTrue D.told → (m : Machine) → Endures store.old (D.state disk.old).block m → LedOnStop t.node.0 why [] m (Endures store.new (D.state disk.new).block)) }
    ensures stopped { IfErr result (λ why. IsTrue D.told → (m : Machine) → IsShown store.old (D.state disk.old).block m → IfSome after (IsNumberOf m t) → IsStopReply t.node.0 why) }
    ensures next { IfOk result (λ o. IsTrue D.told → (m : Machine) → IsShown store.old (D.state disk.old).block m → IfSome after (IsNumberOf m t) → IfSome o (λ u. IsNumberOf m t u.0)) }
    ensures newest { after ≡ None → IfOk result (λ o. IsTrue D.told → (m : Machine) → IsShown store.old (D.state disk.old).block m → MatchOption o (newest_of m t ≡ None) (λ u. (d : Deed) × (w : Write) × (newest_of m t ≡ Some d) × (d.write ≡ Some w) × (w.page ≡ u.1.0))) }
{
    let fault = match &mut store.nodes[place(t.node)] {
        Node::Up(cache, seats) => match find_update(disk, cache, seats, t.seat, after) {
            Ok(found) => return of_store(&store.shape, t.node, found),
            Err(fault) => fault,
        },
        Node::Idle | Node::Down => unreachable!(),
    };
    Err(store.give_up(disk, vault, t.node, fault))
}

/// How many of the updates that are left of a transaction are of this page.
fn count_left<D: Disk, V: Disk>(
    store: &mut Store,
    disk: &mut D,
    vault: &mut V,
    t: TxnId,
    x: PageNo,
) -> Result<u64, Reply>
    requires node { IsPlace t.node.0 }
    requires up { is_up (node_at store.old.nodes t.node.0) ≡ true }
    requires seat { t.seat ≤ 7 }
    requires busy { OnUp (node_at store.old.nodes t.node.0) (λ c seats. IsTrue (is_busy seats t.seat)) }
    requires ready { IsReady store.old (D.state disk.old) (V.state vault.old) }
    requires quiet { IsTrue D.told → IsQuiet store.old (D.state disk.old).block }
    ensures works { Works t.node.0 store.old store.new (D.state disk.old) (D.state disk.new) (V.state vault.old) (V.state vault.new) }
    ensures writes { IsTrue D.told → Writes t.node.0 store.old store.new (D.state disk.old).block (D.state disk.new).block }
    ensures vault_outcomes { IsTrue V.told → Narrows (V.state vault.old).block (V.state vault.new).block }
    ensures cause { IfErr result (λ why. HasCause why (D.state disk.old) (D.state disk.new)) }
    ensures fault { IfErr result (IsLogReply t.node.0 (region_of store.old.shape t.node.0)) }
    ensures down { IfErr result (λ why. says_stop why ≡ true → node_at store.new.nodes t.node.0 ≡ Down) }
    ensures kept { IfErr result (λ why. says_stop why ≡ false → (store.new ≡ store.old) × (IsTrue D.told → (D.state disk.new).block ≡ (D.state disk.old).block)) }
    ensures same { OnOk result ((store.new ≡ store.old) × (IsTrue D.told → (D.state disk.new).block ≡ (D.state disk.old).block)) }
    ensures few { IfOk result (λ count. count ≤ 6 * 2 ^ 56) }
    ensures count { IfOk result (λ count. IsTrue D.told → OnUp (node_at store.old.nodes t.node.0) (λ c seats. (recs : List LogRecord) (u : OpenTxn) → txn_in seats t.seat ≡ Some u → HasRecords c.log (D.state disk.old).block recs → AreTold seats c.log.start recs
        → count ≡ left_on u.begin (6 * c.log.start) recs x.0)) }
    ensures led { IfErr result (λ why. IsTrue D.told → (m : Machine) → Endures store.old (D.state disk.old).block m → LedOnStop t.node.0 why [] m (Endures store.new (D.state disk.new).block)) }
    ensures stopped { IfErr result (λ why. IsTrue D.told → (m : Machine) → IsShown store.old (D.state disk.old).block m → IsStopReply t.node.0 why) }
{
    let mut count = 0;
    let mut after = None;
    while let Some((number, page)) = update_after(store, disk, vault, t, after)? {
        if page.0 == x.0 {
            count += 1;
        }
        after = Some(number);
    }
    Ok(count)
}

/// How many records the open transactions of a node that is up may still need.
fn owed(store: &Store, n: NodeId) -> u64
    requires node { IsPlace n.0 }
    requires is { IsStore store.now }
    requires up { is_up (node_at store.now.nodes n.0) ≡ true }
    ensures is { OnUp (node_at store.now.nodes n.0) (λ c seats. result ≡ owed seats) }
    ensures few { result ≤ 6 * 2 ^ 56 }
{
    match store.node(n) {
        Node::Up(_cache, seats) => seats.owed(),
        Node::Idle | Node::Down => unreachable!(),
    }
}

/// Tests that a data page that the transaction's node has cached has room for the changes that take back
/// what the transaction has written of it. Where it hasn't, its block is said to be damaged.
///
/// How many these are is counted only where the page hasn't room for all that the node's open
/// transactions may need.
pub fn test_room<D: Disk, V: Disk>(
    store: &mut Store,
    disk: &mut D,
    vault: &mut V,
    t: TxnId,
    x: PageNo,
) -> Result<(), Reply>
    requires node { IsPlace t.node.0 }
    requires up { is_up (node_at store.old.nodes t.node.0) ≡ true }
    requires seat { t.seat ≤ 7 }
    requires busy { OnUp (node_at store.old.nodes t.node.0) (λ c seats. IsTrue (is_busy seats t.seat)) }
    requires data { store.old.shape.maps ≤ x.0 }
    requires page { x.0 < page_count store.old.shape }
    requires cached { OnUp (node_at store.old.nodes t.node.0) (λ c seats. IsTrue (is_cached x c)) }
    requires ready { IsReady store.old (D.state disk.old) (V.state vault.old) }
    requires quiet { IsTrue D.told → IsQuiet store.old (D.state disk.old).block }
    ensures works { Works t.node.0 store.old store.new (D.state disk.old) (D.state disk.new) (V.state vault.old) (V.state vault.new) }
    ensures writes { IsTrue D.told → Writes t.node.0 store.old store.new (D.state disk.old).block (D.state disk.new).block }
    ensures vault_outcomes { IsTrue V.told → Narrows (V.state vault.old).block (V.state vault.new).block }
    ensures cause { IfErr result (λ why. HasCause why (D.state disk.old) (D.state disk.new)) }
    ensures fault { IfErr result (λ why. IsLogReply t.node.0 (region_of store.old.shape t.node.0) why ⊎ ((why ≡ Reply.DamagedDisk (record { 0 = page_place store.old.shape x })) × (IsTrue D.told → HasNoRoomFor store.old (D.state disk.old).block t x) × (store.new ≡ store.old) × (IsTrue D.told → (D.state disk.new).block ≡ (D.state disk.old).block))) }
    ensures down { IfErr result (λ why. says_stop why ≡ true → node_at store.new.nodes t.node.0 ≡ Down) }
    ensures kept { IfErr result (λ why. says_stop why ≡ false → (store.new ≡ store.old) × (IsTrue D.told → (D.state disk.new).block ≡ (D.state disk.old).block)) }
    ensures same { OnOk result ((store.new ≡ store.old) × (IsTrue D.told → (D.state disk.new).block ≡ (D.state disk.old).block)) }
    ensures room { OnOk result (IsTrue D.told → HasRoomFor store.old (D.state disk.old).block t x) }
    ensures led { IfErr result (λ why. IsTrue D.told → (m : Machine) → Endures store.old (D.state disk.old).block m → LedOnStop t.node.0 why [] m (Endures store.new (D.state disk.new).block)) }
    ensures stopped { IfErr result (λ why. IsTrue D.told → (m : Machine) → IsShown store.old (D.state disk.old).block m → IsStopReply t.node.0 why) }
{
    let ident = data_ident(store, t.node, x);
    if ident + owed(store, t.node) <= MAX_IDENT {
        return Ok(());
    }
    let count = count_left(store, disk, vault, t, x)?;
    if ident + count > MAX_IDENT {
        return Err(Reply::DamagedDisk(store.shape.page_block(x)));
    }
    Ok(())
}
