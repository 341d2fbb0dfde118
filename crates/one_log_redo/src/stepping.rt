//! Redo of one change of a page in a frame, as the fold over a log has it.

ghost use Rattle.std.specs.Prelude.{◌≡◌, ◌<◌, ◌≤◌, ◌+◌, ◌^◌, ℕ, true, false};
ghost use Rattle.sd_base.specs.Shape.{IsShape, page_count};
ghost use Rattle.sd_base.specs.Places.{map_of_data};
ghost use Rattle.page_image.specs.declared.page_view.PageView.{PageView};
ghost use Rattle.space_map.specs.Image.{MapImage};
ghost use Rattle.state_ids.specs.PageImage.{PageImage, IsInRange, data_page, is_map, is_map_op, map_page};
ghost use Rattle.state_ids.specs.Held.{Shows, KeepsFrames};
ghost use Rattle.recovery_theory.specs.Redo.{is_applied, redo_step};
ghost use Rattle.one_log_redo.specs.Redoing.{is_next, redone};

use crate::applying::redo_change;
use crate::stale::birth_at;
use frame_pool::{Frame, Pool};
use sd_base::{PageNo, PageOp, Shape};

/// Makes a change of the page `x` in a frame, whose life began with the identifier `birth`, exactly where
/// the page has the identifier `bsi`.
fn redo_frame(pool: &mut Pool, f: &Frame, x: PageNo, birth: u64, bsi: u64, op: &PageOp) -> bool
    requires image { (i : PageImage) × Shows pool.old f.now i × (is_map i ≡ is_map_op op.now) }
    requires birth { birth ≤ 2 ^ 63 + 2 ^ 40 }
    requires life { is_map_op op.now ≡ true → birth ≡ 0 }
    requires change { IsInRange bsi op.now }
    ensures frames { KeepsFrames f.now pool.old pool.new }
    ensures made { (i : PageImage) → Shows pool.old f.now i → result ≡ is_next x.0 birth bsi i }
    ensures image { (i : PageImage) → Shows pool.old f.now i → is_map i ≡ is_map_op op.now → Shows pool.new f.now (redone x.0 birth bsi op.now i) }
{
    redo_change(pool.bytes_mut(f), x, birth, bsi, op)
}

/// Makes a change of the map page `x` in a frame, exactly where the page has the identifier `bsi`, and
/// answers whether it was made. Otherwise the frame stays as it is.
pub fn redo_map_page(
    pool: &mut Pool,
    s: &Shape,
    f: &Frame,
    x: PageNo,
    bsi: u64,
    op: &PageOp,
) -> bool
    requires page { x.0 < s.now.maps }
    requires image { (m : MapImage) × Shows pool.old f.now (map_page m) }
    requires kind { is_map_op op.now ≡ true }
    requires change { IsInRange bsi op.now }
    ensures frames { KeepsFrames f.now pool.old pool.new }
    ensures made { (images : ℕ → PageImage) → Shows pool.old f.now (images x.0) → result ≡ is_applied s.now x.0 bsi images }
    ensures image { (images : ℕ → PageImage) → Shows pool.old f.now (images x.0) → is_map (images x.0) ≡ true → Shows pool.new f.now (redo_step s.now x.0 (record { bsi = bsi; op = op.now }) images x.0) }
{
    // What the fold makes of a page depends on the shape, which says that this is a map page.
    let _shape = s;
    redo_frame(pool, f, x, 0, bsi, op)
}

/// Makes a change of the data page `x` in the frame `f`, exactly where the page that the frame's image
/// stands for has the identifier `bsi`, and answers whether it was made. Otherwise the frame stays as it
/// is. Which page the image stands for is said by the map page of `x`, as the frame `map` has it.
pub fn redo_data_page(
    pool: &mut Pool,
    s: &Shape,
    map: &Frame,
    f: &Frame,
    x: PageNo,
    bsi: u64,
    op: &PageOp,
) -> bool
    requires shape { IsShape s.now }
    requires data { s.now.maps ≤ x.0 }
    requires page { x.0 < page_count s.now }
    requires map { (m : MapImage) × Shows pool.old map.now (map_page m) }
    requires image { (v : PageView) × Shows pool.old f.now (data_page v) }
    requires kind { is_map_op op.now ≡ false }
    requires change { IsInRange bsi op.now }
    ensures frames { KeepsFrames f.now pool.old pool.new }
    ensures made { (images : ℕ → PageImage) → Shows pool.old map.now (images (map_of_data s.now x).0) → is_map (images (map_of_data s.now x).0) ≡ true → Shows pool.old f.now (images x.0) → result ≡ is_applied s.now x.0 bsi images }
    ensures image { (images : ℕ → PageImage) → Shows pool.old map.now (images (map_of_data s.now x).0) → is_map (images (map_of_data s.now x).0) ≡ true → Shows pool.old f.now (images x.0) → is_map (images x.0) ≡ false → Shows pool.new f.now (redo_step s.now x.0 (record { bsi = bsi; op = op.now }) images x.0) }
{
    let birth = birth_at(pool.bytes(map), s.place_of_page(x));
    redo_frame(pool, f, x, birth, bsi, op)
}
