//! What a change leaves of a page, and that a frame shows one page, stated as laws.

ghost use Rattle.std.specs.Prelude.{◌≡◌, ◌+◌, ℕ, List, Option};
ghost use Rattle.sd_base.specs.declared.page_op.PageOp.{PageOp};
ghost use Rattle.space_map.specs.declared.map_entry.MapEntry.{MapEntry};
ghost use Rattle.state_ids.specs.Held.{Shows};
ghost use Rattle.state_ids.specs.PageImage.{PageImage, page_of, ident_of, is_map, changed, in_life};

/// What a change leaves of a page: its number and its kind. Its identifier rises by one. Nor does the
/// life of a page change its number or its kind.
pub fn law_of_changes()
    ensures page { (op : PageOp) (image : PageImage) → page_of (changed op image) ≡ page_of image }
    ensures kind { (op : PageOp) (image : PageImage) → is_map (changed op image) ≡ is_map image }
    ensures ident { (op : PageOp) (image : PageImage) → ident_of (changed op image) ≡ ident_of image + 1 }
    ensures page_in_life { (e : Option MapEntry) (image : PageImage) → page_of (in_life e image) ≡ page_of image }
    ensures kind_in_life { (e : Option MapEntry) (image : PageImage) → is_map (in_life e image) ≡ is_map image }
{}

/// A frame shows one page at the most that has a given number.
pub fn law_of_one_image()
    ensures { (pool : List (Option (List ℕ))) (frame : ℕ) (image other : PageImage) → Shows pool frame image → Shows pool frame other → page_of image ≡ page_of other → image ≡ other }
{}
