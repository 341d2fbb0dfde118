//! The list of the cached pages, in the order in which they came in.

ghost use Rattle.std.specs.Prelude.{◌≡◌, ◌+◌, ◌<◌, ◌-◌, ◌≤◌, ◌++◌, List, Some, None, replicate, slice_set, slice_index_or, IsSome, [], ◌∷◌, length};
ghost use Rattle.std.specs.List.{position, remove, slice_get};
ghost use Rattle.state_ids.specs.PageImage.{PageImage, page_of, ident_of, is_map, is_map_op, changed};
ghost use Rattle.state_ids.specs.Held.{Shows, KeepsFrames};
ghost use Rattle.node_cache.specs.Cache.{CachedPage, changed_by, place_of, written_back};
ghost use Rattle.node_cache.specs.Places.{shown, is_in, packed};
ghost use Rattle.node_cache.specs.Sending.{IsSent};
ghost use Rattle.node_cache.specs.declared.slot.Slot.{Slot};

use crate::slot::Slot;
use frame_pool::Pool;
use sd_base::PageNo;
use state_ids::{Covered, Logged};
use std::marker::Model;
use std::mem;

/// How many pages a cache has at the most.
pub(crate) const MAX_PAGES: usize = 16;

/// The pages of a cache, in the order in which they came in. A contract sees it as the list of them.
pub(crate) struct Pages {
    pub(crate) slots: [Option<Slot>; MAX_PAGES],
    pub(crate) len: usize,
}

impl Model for Pages {
    ghost use Rattle.std.specs.Prelude.{List, map};
    ghost use Rattle.node_cache.specs.Cache.{CachedPage};
    ghost use Rattle.node_cache.specs.Places.{shown, filled, IsPacked};

    ghost Value = { List CachedPage };

    ghost view = { λ p. map shown (filled p.slots) };

    ghost invariant = { λ p. IsPacked p.slots p.len };
}

/// Takes the page at a place out.
fn lift(slots: &mut [Option<Slot>], i: usize) -> Slot
    requires place { i < length slots.old }
    requires filled { IsSome (slice_index_or slots.old i None) }
    ensures slots { slots.new ≡ slice_set slots.old i None }
    ensures slot { slice_index_or slots.old i None ≡ Some result }
{
    mem::take(&mut slots[i]).unwrap()
}

/// Puts a page into a free place.
fn fill(slots: &mut [Option<Slot>], i: usize, slot: Slot)
    requires place { i < length slots.old }
    requires free { slice_index_or slots.old i None ≡ None }
    ensures { slots.new ≡ slice_set slots.old i (Some slot) }
{
    match mem::replace(&mut slots[i], Some(slot)) {
        None => (),
        Some(_old) => unreachable!(),
    }
}

/// Whether a place holds the page.
fn holds(place: &Option<Slot>, x: PageNo) -> bool
    ensures { result ≡ is_in x place.now }
{
    match place {
        Some(slot) => slot.page() == x,
        None => false,
    }
}

/// The first place that holds the page.
fn place_in(slots: &[Option<Slot>], x: PageNo) -> Option<usize>
    ensures { result ≡ position (is_in x) slots.now }
{
    slots.iter().position(|place| holds(place, x))
}

/// Takes the page at a place out of the first `len` places; those behind it move up.
fn take_out(slots: &mut [Option<Slot>], i: usize, len: usize) -> Slot
    requires place { i < len }
    requires packed { (xs : List Slot) × (slots.old ≡ packed xs (16 - len)) × (length xs ≡ len) }
    requires len { len ≤ 16 }
    ensures { (xs : List Slot) → slots.old ≡ packed xs (16 - len) → length xs ≡ len → (slots.new ≡ packed (remove xs i) (17 - len)) × (slice_get xs i ≡ Some result) }
{
    let slot = lift(slots, i);
    slots[i..len].rotate_left(1);
    slot
}

/// That no place holds a page.
fn free_places() -> [Option<Slot>; MAX_PAGES]
    ensures { result ≡ replicate 16 None }
{
    [
        None, None, None, None, None, None, None, None, None, None, None, None, None, None, None,
        None,
    ]
}

impl Pages {
    /// No pages.
    pub(crate) fn new() -> Pages
        ensures { result ≡ [] }
    {
        Pages {
            slots: free_places(),
            len: 0,
        }
    }

    /// How many pages there are.
    pub(crate) fn len(&self) -> usize
        ensures { result ≡ length self.now }
    {
        self.len
    }

    /// The page at a place.
    pub(crate) fn slot(&self, i: usize) -> &Slot
        requires { i < length self.now }
        ensures { slice_get self.now i ≡ Some (shown result.now) }
    {
        let slots = &self.slots;
        match &slots[i] {
            Some(slot) => slot,
            None => unreachable!(),
        }
    }

    /// The place of a page.
    pub(crate) fn find(&self, x: PageNo) -> Option<usize>
        ensures { result ≡ place_of x self.now }
    {
        place_in(&self.slots, x)
    }

    /// Adds a page behind the others.
    pub(crate) fn push(&mut self, slot: Slot)
        requires { length self.old < 16 }
        ensures { self.new ≡ self.old ++ shown slot ∷ [] }
    {
        fill(&mut self.slots, self.len, slot);
        self.len += 1;
    }

    /// Takes the page at a place out; those behind it move up.
    pub(crate) fn remove(&mut self, i: usize) -> Slot
        requires { i < length self.old }
        ensures slot { slice_get self.old i ≡ Some (shown result) }
        ensures pages { self.new ≡ remove self.old i }
    {
        let len = self.len;
        self.len -= 1;
        take_out(&mut self.slots, i, len)
    }

    /// Makes the change of a log record to the page at a place.
    pub(crate) fn apply(&mut self, i: usize, pool: &mut Pool, l: Logged)
        requires place { i < length self.old }
        requires page { (p : CachedPage) → slice_get self.old i ≡ Some p → l.page ≡ p.ticket.page }
        requires node { (p : CachedPage) → slice_get self.old i ≡ Some p → l.node ≡ p.ticket.node }
        requires image { (p : CachedPage) → slice_get self.old i ≡ Some p → (image : PageImage) × Shows pool.old p.frame image × (page_of image ≡ p.ticket.page) × (ident_of image ≡ l.ident) × (is_map image ≡ is_map_op l.op) }
        ensures pages { (p : CachedPage) → slice_get self.old i ≡ Some p → self.new ≡ slice_set self.old i (changed_by l.number p) }
        ensures frames { (p : CachedPage) → slice_get self.old i ≡ Some p → KeepsFrames p.frame pool.old pool.new }
        ensures image { (p : CachedPage) (image : PageImage) → slice_get self.old i ≡ Some p → Shows pool.old p.frame image → is_map image ≡ is_map_op l.op → Shows pool.new p.frame (changed l.op image) }
    {
        let slot = lift(&mut self.slots, i);
        fill(&mut self.slots, i, slot.apply(pool, l));
    }

    /// Ends the changes of the page at a place, which was written with them and covered.
    pub(crate) fn written(&mut self, i: usize, covered: &Covered)
        requires place { i < length self.old }
        requires sent { (p : CachedPage) → slice_get self.old i ≡ Some p → IsSent covered.now p }
        ensures { (p : CachedPage) → slice_get self.old i ≡ Some p → self.new ≡ slice_set self.old i (written_back p) }
    {
        let slot = lift(&mut self.slots, i).written(covered);
        fill(&mut self.slots, i, slot);
    }
}
