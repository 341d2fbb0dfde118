//! Which page an image stands for: the image itself, or the blank page where an earlier life of the
//! page has left the image.

ghost use Rattle.std.specs.Prelude.{◌≡◌, ◌+◌, ◌^◌, ◌≤◌, ℕ};
ghost use Rattle.space_map.specs.Image.{MapImage, IsMapText};
ghost use Rattle.state_ids.specs.PageImage.{PageImage, IsText, ident_of, map_page};
ghost use Rattle.recovery_theory.specs.Pages.{birth_of, entries_of, in_life_from};

use page_image::write_birth;
use sd_base::{Block, PageNo, page_ident};
use space_map::{MapEntry, entry};

/// The identifier with which the life of a data page began, by the block of its map page and its place
/// there, from 0 to 251.
pub fn birth_at(map: &Block, place: u8) -> u64
    requires image { (m : MapImage) × IsMapText m map.now }
    requires place { place ≤ 251 }
    ensures birth { (m : MapImage) → IsMapText m map.now → result ≡ birth_of (entries_of (map_page m) place) }
    ensures range { result ≤ 2 ^ 63 + 2 ^ 40 }
{
    match entry(map, place) {
        MapEntry::Free(ident) => ident,
        MapEntry::Used(_, ident) => ident,
    }
}

/// The identifier of the page that an image stands for, where the life of the page began with the
/// identifier `birth`. A map page has one life, which began with 0.
pub fn ident_in_life(b: &Block, birth: u64) -> u64
    requires { (i : PageImage) × IsText i b.now }
    ensures { (x : ℕ) (i : PageImage) → IsText i b.now → result ≡ ident_of (in_life_from x birth i) }
{
    page_ident(b).max(birth)
}

/// Makes of an image of the page `x` the page that it stands for, where the life of the page began with
/// the identifier `birth`, at most 2^63 + 2^40.
pub fn put_in_life(b: &mut Block, x: PageNo, birth: u64)
    requires image { (i : PageImage) × IsText i b.old }
    requires birth { birth ≤ 2 ^ 63 + 2 ^ 40 }
    ensures { (i : PageImage) → IsText i b.old → IsText (in_life_from x.0 birth i) b.new }
{
    if page_ident(b) < birth {
        write_birth(x, birth, b);
    }
}
