//! A map page is searched for the entry of a group, or for a free one.

ghost use Rattle.std.specs.Prelude.{◌≡◌, ◌≤◌, IfSome, position};
ghost use Rattle.space_map.specs.Entry.{is_used_by, is_free};
ghost use Rattle.space_map.specs.Image.{MapImage, IsMapText};

use crate::fields::{ENTRIES, entry_at};
use crate::map_entry::MapEntry;
use sd_base::{Block, GroupNo};

fn is_used_by(e: &MapEntry, g: GroupNo) -> bool
    ensures { result ≡ is_used_by g e.now }
{
    match e {
        MapEntry::Free(_) => false,
        MapEntry::Used(group, _) => *group == g,
    }
}

fn is_free(e: &MapEntry) -> bool
    ensures { result ≡ is_free e.now }
{
    match e {
        MapEntry::Free(_) => true,
        MapEntry::Used(..) => false,
    }
}

/// The least place of a map page whose entry is used by the group. `None` exactly where there is none.
pub fn find_group(b: &Block, g: GroupNo) -> Option<u8>
    requires { (m : MapImage) × IsMapText m b.now }
    ensures first { (m : MapImage) → IsMapText m b.now → result ≡ position (is_used_by g) m.entries }
    ensures place { IfSome result (λ place. place ≤ 251) }
{
    for place in 0..ENTRIES {
        if is_used_by(&entry_at(b, place), g) {
            return Some(place);
        }
    }
    None
}

/// The least place of a map page whose entry is free. `None` exactly where all 252 are used.
pub fn first_free(b: &Block) -> Option<u8>
    requires { (m : MapImage) × IsMapText m b.now }
    ensures first { (m : MapImage) → IsMapText m b.now → result ≡ position is_free m.entries }
    ensures place { IfSome result (λ place. place ≤ 251) }
{
    for place in 0..ENTRIES {
        if is_free(&entry_at(b, place)) {
            return Some(place);
        }
    }
    None
}
