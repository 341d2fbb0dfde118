//! A change is made of its page, exactly where the page has the change's identifier.

ghost use Rattle.std.specs.Prelude.{◌≡◌, ◌<◌, ℕ};
ghost use Rattle.sd_base.specs.Places.{map_of_page};
ghost use Rattle.sd_base.specs.Shape.{IsShape, page_count};
ghost use Rattle.state_ids.specs.Blocks.{ShowsPage};
ghost use Rattle.state_ids.specs.Held.{KeepsFrames};
ghost use Rattle.state_ids.specs.PageImage.{PageImage};
ghost use Rattle.recovery_theory.specs.Redo.{is_applied, redo_step};
ghost use Rattle.one_log_redo.specs.Copies.{ShowsAs};
ghost use Rattle.one_log_redo.specs.Steps.{IsChangeOf};

use crate::stepping::{redo_data_page, redo_map_page};
use frame_pool::{Frame, Pool};
use sd_base::{PageNo, PageOp, Shape};

/// Makes a change of the page `x` in the frame `f`, exactly where the page that the frame's image stands
/// for has the identifier `bsi`, and answers whether it was made. The frame `map` has its map page, which
/// says what the image stands for.
fn redo_page(
    pool: &mut Pool,
    s: &Shape,
    map: &Frame,
    f: &Frame,
    x: PageNo,
    bsi: u64,
    op: &PageOp,
) -> bool
    requires shape { IsShape s.now }
    requires page { x.0 < page_count s.now }
    requires map { ShowsPage s.now (map_of_page s.now x) pool.old map.now }
    requires image { ShowsPage s.now x pool.old f.now }
    requires change { IsChangeOf s.now x.0 bsi op.now }
    ensures frames { KeepsFrames f.now pool.old pool.new }
    ensures shows { ShowsPage s.now x pool.new f.now }
    ensures made { (images : ℕ → PageImage) → ShowsAs s.now (map_of_page s.now x) pool.old map.now (images (map_of_page s.now x).0) → ShowsAs s.now x pool.old f.now (images x.0) → result ≡ is_applied s.now x.0 bsi images }
    ensures image { (images : ℕ → PageImage) → ShowsAs s.now (map_of_page s.now x) pool.old map.now (images (map_of_page s.now x).0) → ShowsAs s.now x pool.old f.now (images x.0)
        → ShowsAs s.now x pool.new f.now (redo_step s.now x.0 (record { bsi = bsi; op = op.now }) images x.0) }
{
    if x.0 < s.maps {
        redo_map_page(pool, s, f, x, bsi, op)
    } else {
        redo_data_page(pool, s, map, f, x, bsi, op)
    }
}
