//! What is read of a cached page: entries of a map page, slots of a data page, identifiers.

ghost use Rattle.std.specs.Prelude.{◌≡◌, ◌+◌, ◌^◌, ◌≤◌, ◌<◌, true, Some, IsTrue, IfSome};
ghost use Rattle.std.specs.List.{position, slice_get};
ghost use Rattle.page_image.specs.declared.page_view.PageView.{PageView};
ghost use Rattle.page_image.specs.Image.{IsTextOf};
ghost use Rattle.space_map.specs.Entry.{is_free, is_used_by};
ghost use Rattle.space_map.specs.Image.{IsMapText, MapImage};
ghost use Rattle.compensation.specs.Inverse.{content};
ghost use Rattle.frame_pool.specs.Frames.{frame_at};
ghost use Rattle.node_cache.specs.Cache.{page_at};
ghost use Rattle.store_nodes.specs.Nodes.{IsPlace, IsStore, OnUp, is_up, node_at};
ghost use Rattle.store_nodes.specs.Pages.{AreUnused, HasCached, ShowsData, ShowsMap};

use page_image::{identifier, slot};
use sd_base::{Block, GroupNo, NodeId, PageNo, Value};
use space_map::{ENTRIES, MapEntry, entry, find_group, first_free};
use store_nodes::{Node, Store, map_identifier};

/// What the frame of a cached page holds: a page of its kind.
fn view(store: &Store, n: NodeId, x: PageNo) -> &Block
    requires node { IsPlace n.0 }
    requires is { IsStore store.now }
    requires up { is_up (node_at store.now.nodes n.0) ≡ true }
    requires cached { HasCached store.now n.0 x }
    ensures holds { OnUp (node_at store.now.nodes n.0) (λ c seats. IfSome (page_at x c.pages) (λ p. frame_at store.now.shared.pool p.frame ≡ Some result.now)) }
    ensures is_map { x.0 < store.now.shape.maps → (image : MapImage) × ShowsMap store.now n.0 x image × IsMapText image result.now }
    ensures map { (image : MapImage) → ShowsMap store.now n.0 x image → IsMapText image result.now }
    ensures is_data { store.now.shape.maps ≤ x.0 → (v : PageView) × ShowsData store.now n.0 x v × IsTextOf v result.now }
    ensures page { (v : PageView) → ShowsData store.now n.0 x v → IsTextOf v result.now }
{
    match store.node(n) {
        Node::Up(cache, _seats) => cache.view(&store.shared.pool, x),
        Node::Idle | Node::Down => unreachable!(),
    }
}

/// The place of a map page whose entry the group uses.
pub fn place_of_group(store: &Store, n: NodeId, map: PageNo, g: GroupNo) -> Option<u8>
    requires node { IsPlace n.0 }
    requires is { IsStore store.now }
    requires up { is_up (node_at store.now.nodes n.0) ≡ true }
    requires map { map.0 < store.now.shape.maps }
    requires cached { HasCached store.now n.0 map }
    ensures first { (image : MapImage) → ShowsMap store.now n.0 map image → result ≡ position (is_used_by g) image.entries }
    ensures place { IfSome result (λ place. place ≤ 251) }
    ensures there { (image : MapImage) × ShowsMap store.now n.0 map image }
{
    find_group(view(store, n, map), g)
}

/// The least place of a map page whose entry is free.
pub fn free_place(store: &Store, n: NodeId, map: PageNo) -> Option<u8>
    requires node { IsPlace n.0 }
    requires is { IsStore store.now }
    requires up { is_up (node_at store.now.nodes n.0) ≡ true }
    requires map { map.0 < store.now.shape.maps }
    requires cached { HasCached store.now n.0 map }
    ensures first { (image : MapImage) → ShowsMap store.now n.0 map image → result ≡ position is_free image.entries }
    ensures place { IfSome result (λ place. place ≤ 251) }
    ensures there { (image : MapImage) × ShowsMap store.now n.0 map image }
{
    first_free(view(store, n, map))
}

/// The entry at a place of a map page.
pub fn entry_at(store: &Store, n: NodeId, map: PageNo, place: u8) -> MapEntry
    requires node { IsPlace n.0 }
    requires is { IsStore store.now }
    requires up { is_up (node_at store.now.nodes n.0) ≡ true }
    requires map { map.0 < store.now.shape.maps }
    requires place { place ≤ 251 }
    requires cached { HasCached store.now n.0 map }
    ensures entry { (image : MapImage) → ShowsMap store.now n.0 map image → slice_get image.entries place ≡ Some result }
    ensures there { (image : MapImage) × ShowsMap store.now n.0 map image }
{
    entry(view(store, n, map), place)
}

/// The identifier of a cached map page.
pub fn map_ident(store: &Store, n: NodeId, map: PageNo) -> u64
    requires node { IsPlace n.0 }
    requires is { IsStore store.now }
    requires up { is_up (node_at store.now.nodes n.0) ≡ true }
    requires map { map.0 < store.now.shape.maps }
    requires cached { HasCached store.now n.0 map }
    ensures ident { (image : MapImage) → ShowsMap store.now n.0 map image → result ≡ image.ident }
    ensures there { (image : MapImage) × ShowsMap store.now n.0 map image }
{
    map_identifier(view(store, n, map))
}

/// The identifier of a cached data page.
pub fn data_ident(store: &Store, n: NodeId, x: PageNo) -> u64
    requires node { IsPlace n.0 }
    requires is { IsStore store.now }
    requires up { is_up (node_at store.now.nodes n.0) ≡ true }
    requires data { store.now.shape.maps ≤ x.0 }
    requires cached { HasCached store.now n.0 x }
    ensures ident { (v : PageView) → ShowsData store.now n.0 x v → result ≡ v.ident }
    ensures range { result ≤ 2 ^ 63 + 2 ^ 40 }
    ensures there { (v : PageView) × ShowsData store.now n.0 x v }
{
    identifier(view(store, n, x))
}

/// What a slot of a cached data page holds.
pub fn slot_of(store: &Store, n: NodeId, x: PageNo, i: u8) -> Option<Value>
    requires node { IsPlace n.0 }
    requires is { IsStore store.now }
    requires up { is_up (node_at store.now.nodes n.0) ≡ true }
    requires data { store.now.shape.maps ≤ x.0 }
    requires slot { i ≤ 15 }
    requires cached { HasCached store.now n.0 x }
    ensures holds { (v : PageView) → ShowsData store.now n.0 x v → result ≡ content v i }
    ensures there { (v : PageView) × ShowsData store.now n.0 x v }
{
    slot(view(store, n, x), i)
}

/// The least group from `first` on that has a place of a cached map page, where one below `end` has;
/// else `end`.
pub fn next_group(store: &Store, n: NodeId, map: PageNo, first: u32, end: u32) -> u32
    requires node { IsPlace n.0 }
    requires is { IsStore store.now }
    requires up { is_up (node_at store.now.nodes n.0) ≡ true }
    requires map { map.0 < store.now.shape.maps }
    requires cached { HasCached store.now n.0 map }
    requires range { first ≤ end }
    ensures within { (first ≤ result) × (result ≤ end) }
    ensures none { (image : MapImage) → ShowsMap store.now n.0 map image → AreUnused first result image.entries }
    ensures there { (image : MapImage) × ShowsMap store.now n.0 map image }
{
    let mut least = end;
    for place in 0..ENTRIES {
        if let MapEntry::Used(g, _) = entry_at(store, n, map, place) {
            if first <= g.0 && g.0 < least {
                least = g.0;
            }
        }
    }
    least
}
