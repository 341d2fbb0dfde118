//! A data page is changed: one slot of it, and its identifier.

ghost use Rattle.std.specs.Prelude.{◌≡◌, ◌+◌, ◌^◌, ◌≤◌, ◌<◌};
ghost use Rattle.page_image.specs.declared.page_view.PageView.{PageView};
ghost use Rattle.page_image.specs.Image.{IsTextOf};
ghost use Rattle.page_image.specs.Change.{IsSlotOp, slot_of, value_in, applied, with_put, with_append, with_cut};

use crate::image::slot;
use crate::slots::write_slot;
use sd_base::{Block, PageOp, Value, page_ident, put_page_ident};

/// Changes a data page: one slot, and the identifier, which rises by one. Nothing else is written.
///
/// The format is in docs/FORMATS.md.
pub fn apply(b: &mut Block, op: &PageOp)
    requires image { (v : PageView) × IsTextOf v b.old × (v.ident < 2 ^ 63 + 2 ^ 40) }
    requires kind { IsSlotOp op.now }
    requires slot { slot_of op.now ≤ 15 }
    ensures { (v : PageView) → IsTextOf v b.old → IsTextOf (applied op.now v) b.new }
{
    match op {
        PageOp::Put { slot, after } => apply_put(b, *slot, after),
        PageOp::Append { slot, bytes } => apply_append(b, *slot, bytes),
        PageOp::Cut { slot, present, len } => apply_cut(b, *slot, *present, *len),
        PageOp::MapUse { .. } | PageOp::MapFree { .. } => unreachable!(),
    }
}

/// Puts a value into a slot, or takes the value out.
fn apply_put(b: &mut Block, slot: u8, after: &Option<Value>)
    requires image { (v : PageView) × IsTextOf v b.old × (v.ident < 2 ^ 63 + 2 ^ 40) }
    requires slot { slot ≤ 15 }
    ensures { (v : PageView) → IsTextOf v b.old → IsTextOf (with_put slot after.now v) b.new }
{
    let ident = page_ident(b);
    write_slot(b, slot, after);
    put_page_ident(b, ident + 1);
}

/// Puts bytes behind a slot's value.
fn apply_append(b: &mut Block, slot: u8, bytes: &Value)
    requires image { (v : PageView) × IsTextOf v b.old × (v.ident < 2 ^ 63 + 2 ^ 40) }
    requires slot { slot ≤ 15 }
    ensures { (v : PageView) → IsTextOf v b.old → IsTextOf (with_append slot bytes.now v) b.new }
{
    let joined = value_at(b, slot).join(bytes);
    apply_put(b, slot, &Some(joined));
}

/// Leaves the first bytes of a slot's value, or takes the value out.
fn apply_cut(b: &mut Block, slot: u8, present: bool, len: u8)
    requires image { (v : PageView) × IsTextOf v b.old × (v.ident < 2 ^ 63 + 2 ^ 40) }
    requires slot { slot ≤ 15 }
    ensures { (v : PageView) → IsTextOf v b.old → IsTextOf (with_cut slot present len v) b.new }
{
    if present {
        let kept = value_at(b, slot).prefix(len);
        apply_put(b, slot, &Some(kept));
    } else {
        apply_put(b, slot, &None);
    }
}

/// The value in a slot of a data page, empty where the slot is absent.
fn value_at(b: &Block, i: u8) -> Value
    requires image { (v : PageView) × IsTextOf v b.now }
    requires place { i ≤ 15 }
    ensures { (v : PageView) → IsTextOf v b.now → result ≡ value_in v i }
{
    slot(b, i).unwrap_or(Value::empty())
}
