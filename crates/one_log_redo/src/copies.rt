//! Which pages are in the frames of a redo.

ghost use Rattle.std.specs.Prelude.{◌≡◌, ◌≢◌, ◌<◌, ◌≤◌, ℕ, false, Some, None, IfNone, IfSome, IsSome, IsTrue, length, slice_set};
ghost use Rattle.one_log_redo.specs.Copies.{ComesFirst, IsAt, IsFilled, IsNowhere, copy_at, is_of, noted};
ghost use Rattle.one_log_redo.specs.declared.copies.Copied.{Copied};

use sd_base::PageNo;

/// A page in a frame.
#[derive(Clone, Copy)]
pub(crate) struct Copied {
    pub(crate) page: PageNo,
    /// When it came into the frame: of two pages the one with the lower number came first.
    pub(crate) since: u64,
    /// Whether it has changes that its block hasn't.
    pub(crate) changed: bool,
}

/// Whether the page is at this place.
fn is_of(place: &Option<Copied>, x: PageNo) -> bool
    ensures { result ≡ is_of x place.now }
{
    match place {
        Some(c) => c.page == x,
        None => false,
    }
}

/// The place of a page.
pub(crate) fn find(copies: &[Option<Copied>], x: PageNo) -> Option<usize>
    ensures some { IfSome result (λ k. IsAt x k copies.now) }
    ensures none { IfNone result (IsNowhere x copies.now) }
{
    copies.iter().position(|place| is_of(place, x))
}

/// The first place below `count` that has no page.
pub(crate) fn find_free(copies: &[Option<Copied>], count: usize) -> Option<usize>
    requires { count ≤ length copies.now }
    ensures some { IfSome result (λ k. (k < count) × (copy_at copies.now k ≡ None)) }
    ensures none { IfNone result (IsFilled count copies.now) }
{
    for k in 0..count {
        if copies[k].is_none() {
            return Some(k);
        }
    }
    None
}

/// Whether the page at a place is another one than `keep`, and came before the page at the place
/// `first`, if there is one.
fn comes_before(copies: &[Option<Copied>], k: usize, keep: PageNo, first: Option<usize>) -> bool
    requires place { k < length copies.now }
    requires first { IfSome first (λ j. j < length copies.now) }
    ensures before { IsTrue result → (c : Copied) × (copy_at copies.now k ≡ Some c) × (c.page ≢ keep) × IfSome first (λ j. (d : Copied) → copy_at copies.now j ≡ Some d → c.since ≤ d.since) }
    ensures behind { result ≡ false → (c : Copied) → copy_at copies.now k ≡ Some c → c.page ≢ keep → (j : ℕ) × (first ≡ Some j) × ((d : Copied) → copy_at copies.now j ≡ Some d → d.since ≤ c.since) }
{
    let Some(c) = copies[k] else {
        return false;
    };
    if c.page == keep {
        return false;
    }
    match first {
        None => true,
        Some(j) => match copies[j] {
            None => true,
            Some(d) => c.since < d.since,
        },
    }
}

/// The place of the page that came first, other than the page `keep`.
pub(crate) fn find_first(copies: &[Option<Copied>], keep: PageNo) -> Option<usize>
    ensures { ComesFirst copies.now keep (length copies.now) result }
{
    let mut first = None;
    for k in 0..copies.len() {
        if comes_before(copies, k, keep, first) {
            first = Some(k);
        }
    }
    first
}

/// Notes whether a change was made of the page at a place.
pub(crate) fn note(copies: &mut [Option<Copied>], k: usize, made: bool)
    requires place { k < length copies.old }
    requires there { IsSome (copy_at copies.old k) }
    ensures { (c : Copied) → copy_at copies.old k ≡ Some c → copies.new ≡ slice_set copies.old k (Some (noted made c)) }
{
    if let Some(c) = copies[k] {
        copies[k] = Some(Copied {
            changed: c.changed || made,
            ..c
        });
    }
}
