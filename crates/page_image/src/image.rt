//! The block of a whole data page: written, read, and as it is when the page is born.

ghost use Rattle.std.specs.Prelude.{◌≡◌, ◌+◌, ◌^◌, ◌≤◌, IfSome, None, slice_index_or};
ghost use Rattle.page_image.specs.declared.page_view.PageView.{PageView};
ghost use Rattle.page_image.specs.Image.{IsImage, IsTextOf, HasFields, image_text, birth_image};

use crate::page_view::PageView;
use crate::slots::{slot_at, slots_at, write_slot};
use sd_base::{Block, DATA_PAGE, MAX_IDENT, PageNo, Value, page_ident, write_page_header};

/// Writes a data page.
fn write_image(v: &PageView, out: &mut Block)
    requires { IsImage v.now }
    ensures { out.new ≡ image_text v.now }
{
    write_page_header(out, DATA_PAGE, v.page, v.ident);
    for i in 0..16 {
        write_slot(out, i, &v.slots[i as usize]);
    }
}

/// The page `x` with the identifier and the slots that stand at their places, whatever stands there.
fn view_at(b: &Block, x: PageNo) -> PageView
    ensures page { result.page ≡ x }
    ensures fields { HasFields result b.now }
{
    PageView {
        page: x,
        ident: page_ident(b),
        slots: slots_at(b),
    }
}

/// Reads a block as the data page `x`. `None` exactly where it isn't one.
///
/// The format is in docs/FORMATS.md.
pub fn parse(b: &Block, x: PageNo) -> Option<PageView>
    ensures found { IfSome result (λ v. (v.page ≡ x) × IsTextOf v b.now) }
    ensures only { (v : PageView) → v.page ≡ x → IsTextOf v b.now → result ≡ Some v }
{
    let view = view_at(b, x);
    if view.ident > MAX_IDENT {
        return None;
    }
    // The page number, the kind and all other bytes are those of the page's own text, or it isn't one.
    let mut text = [0; 4096];
    write_image(&view, &mut text);
    if text == *b { Some(view) } else { None }
}

/// Writes the data page `x` as it is born: with this identifier, at most 2^63 + 2^40, and no record.
///
/// The format is in docs/FORMATS.md.
pub fn write_birth(x: PageNo, ident: u64, out: &mut Block)
    requires { ident ≤ 2 ^ 63 + 2 ^ 40 }
    ensures { IsTextOf (birth_image x ident) out.new }
{
    let birth = PageView {
        page: x,
        ident,
        slots: [None; 16],
    };
    write_image(&birth, out);
}

/// What slot `i` of a data page holds, for `i` from 0 to 15. Only that slot is looked at.
pub fn slot(b: &Block, i: u8) -> Option<Value>
    requires image { (v : PageView) × IsTextOf v b.now }
    requires place { i ≤ 15 }
    ensures { (v : PageView) → IsTextOf v b.now → result ≡ slice_index_or v.slots i None }
{
    slot_at(b, i)
}

/// The identifier of a data page, at most 2^63 + 2^40.
pub fn identifier(b: &Block) -> u64
    requires { (v : PageView) × IsTextOf v b.now }
    ensures { (v : PageView) → IsTextOf v b.now → result ≡ v.ident }
{
    page_ident(b)
}
