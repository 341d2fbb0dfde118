//! A change that a record says is made of a page, exactly where the page has its identifier.

ghost use Rattle.std.specs.Prelude.{◌≡◌, ◌+◌, ◌^◌, ◌≤◌, ℕ, true};
ghost use Rattle.state_ids.specs.PageImage.{PageImage, IsText, IsInRange, changed, ident_of, is_map, is_map_op};
ghost use Rattle.one_log_redo.specs.Redoing.{is_next, redone};

use crate::stale::{ident_in_life, put_in_life};
use page_image::apply;
use sd_base::{Block, PageNo, PageOp};
use space_map::apply_map;

/// Makes a change of a page.
fn change(b: &mut Block, op: &PageOp)
    requires { (i : PageImage) × IsText i b.old × IsInRange (ident_of i) op.now × (is_map i ≡ is_map_op op.now) }
    ensures { (i : PageImage) → IsText i b.old → is_map i ≡ is_map_op op.now → IsText (changed op.now i) b.new }
{
    match op {
        PageOp::MapUse { .. } | PageOp::MapFree { .. } => apply_map(b, op),
        PageOp::Put { .. } | PageOp::Append { .. } | PageOp::Cut { .. } => apply(b, op),
    }
}

/// Makes the change of a record of the page `x`, whose life began with the identifier `birth`: exactly
/// where the page that the image stands for has the record's identifier `bsi`. Otherwise the image stays
/// as it is. It answers whether the change was made.
pub fn redo_change(b: &mut Block, x: PageNo, birth: u64, bsi: u64, op: &PageOp) -> bool
    requires image { (i : PageImage) × IsText i b.old × (is_map i ≡ is_map_op op.now) }
    requires birth { birth ≤ 2 ^ 63 + 2 ^ 40 }
    requires life { is_map_op op.now ≡ true → birth ≡ 0 }
    requires change { IsInRange bsi op.now }
    ensures made { (i : PageImage) → IsText i b.old → result ≡ is_next x.0 birth bsi i }
    ensures image { (i : PageImage) → IsText i b.old → is_map i ≡ is_map_op op.now → IsText (redone x.0 birth bsi op.now i) b.new }
{
    if ident_in_life(b, birth) != bsi {
        return false;
    }
    put_in_life(b, x, birth);
    change(b, op);
    true
}
