//! The block of a whole map page: read, and written as it is when the page is born.

ghost use Rattle.std.specs.Prelude.{◌≡◌, ◌+◌, ◌^◌, ◌<◌, ◌≤◌, ◌↔◌, ℕ, List, All, IfSome, Some, IsTrue, slice_get};
ghost use Rattle.space_map.specs.Entry.{IsEntry};
ghost use Rattle.space_map.specs.Image.{MapImage, IsMapText, map_text, birth_map};
ghost use Rattle.space_map.specs.Reading.{entries_at, image_at};

use crate::fields::{ENTRIES, entry_at, is_entry, write_entry};
use crate::map_entry::MapEntry;
use sd_base::{Block, MAP_PAGE, MAX_IDENT, PageNo, page_ident, write_page_header};

/// A map page has one block, and a block is of one map page.
pub fn law_of_one_text()
    ensures text { (m : MapImage) (b c : List ℕ) → IsMapText m b → IsMapText m c → b ≡ c }
    ensures image { (m n : MapImage) (b : List ℕ) → m.page.0 < 2 ^ 32 → n.page.0 < 2 ^ 32 → IsMapText m b → IsMapText n b → m ≡ n }
{}

/// Whether all that is read at the places of the entries is in range.
fn are_entries(b: &Block) -> bool
    ensures { IsTrue result ↔ All IsEntry (entries_at b.now) }
{
    for place in 0..ENTRIES {
        if !is_entry(&entry_at(b, place)) {
            return false;
        }
    }
    true
}

/// Writes the map page `x` with the identifier and the entries that are read in a block, whatever
/// stands there.
fn write_as_read(b: &Block, x: PageNo, out: &mut Block)
    ensures { out.new ≡ map_text (image_at x b.now) }
{
    write_page_header(out, MAP_PAGE, x, page_ident(b));
    for place in 0..ENTRIES {
        write_entry(out, place, &entry_at(b, place));
    }
}

/// Reads the identifier of a block that is the map page `x`. `None` exactly where it isn't one.
///
/// The format is in docs/FORMATS.md.
pub fn parse_map(b: &Block, x: PageNo) -> Option<u64>
    ensures found { IfSome result (λ ident. (m : MapImage) × (m.page ≡ x) × (m.ident ≡ ident) × IsMapText m b.now) }
    ensures only { (m : MapImage) → m.page ≡ x → IsMapText m b.now → result ≡ Some m.ident }
{
    let ident = page_ident(b);
    if ident > MAX_IDENT || !are_entries(b) {
        return None;
    }
    // The page number, the kind and all other bytes are those of the page's own text, or it isn't one.
    let mut text = [0; 4096];
    write_as_read(b, x, &mut text);
    if text == *b { Some(ident) } else { None }
}

/// Writes the map page `x` as it is born: with this identifier, at most 2^63 + 2^40, and each entry
/// free with the same.
///
/// The format is in docs/FORMATS.md.
pub fn write_birth_map(x: PageNo, ident: u64, out: &mut Block)
    requires { ident ≤ 2 ^ 63 + 2 ^ 40 }
    ensures { IsMapText (birth_map x ident) out.new }
{
    write_page_header(out, MAP_PAGE, x, ident);
    for place in 0..ENTRIES {
        write_entry(out, place, &MapEntry::Free(ident));
    }
}

/// The entry at a place of a map page, from 0 to 251. Only that entry is looked at.
pub fn entry(b: &Block, place: u8) -> MapEntry
    requires image { (m : MapImage) × IsMapText m b.now }
    requires place { place ≤ 251 }
    ensures entry { (m : MapImage) → IsMapText m b.now → slice_get m.entries place ≡ Some result }
    ensures range { IsEntry result }
{
    entry_at(b, place)
}
