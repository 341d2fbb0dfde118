//! A map page is changed: one entry of it, and its identifier.

ghost use Rattle.std.specs.Prelude.{◌≡◌, ◌+◌, ◌^◌, ◌≤◌, ◌<◌};
ghost use Rattle.space_map.specs.declared.map_entry.MapEntry.TheVariants.{Used};
ghost use Rattle.space_map.specs.Entry.{IsEntry};
ghost use Rattle.space_map.specs.Image.{MapImage, IsMapText};
ghost use Rattle.space_map.specs.Change.{IsMapOp, applied_map, entry_ident, with_entry};

use crate::fields::{ident_of, write_entry};
use crate::image::entry;
use crate::map_entry::MapEntry;
use sd_base::{Block, GroupNo, PageOp, page_ident, put_page_ident};

/// Changes a map page: one entry, and the page's identifier, which rises by one. Nothing else is
/// written.
///
/// The format is in docs/FORMATS.md.
pub fn apply_map(b: &mut Block, op: &PageOp)
    requires image { (m : MapImage) × IsMapText m b.old × (m.ident < 2 ^ 63 + 2 ^ 40) }
    requires change { IsMapOp op.now }
    ensures { (m : MapImage) → IsMapText m b.old → IsMapText (applied_map op.now m) b.new }
{
    match op {
        PageOp::MapUse { place, group } => use_entry(b, *place, *group),
        PageOp::MapFree { place, ident } => put_entry(b, *place, &MapEntry::Free(*ident)),
        PageOp::Put { .. } | PageOp::Append { .. } | PageOp::Cut { .. } => unreachable!(),
    }
}

/// Makes an entry used by a group. It keeps its identifier.
fn use_entry(b: &mut Block, place: u8, group: GroupNo)
    requires image { (m : MapImage) × IsMapText m b.old × (m.ident < 2 ^ 63 + 2 ^ 40) }
    requires place { place ≤ 251 }
    requires group { group.0 ≤ 268435455 }
    ensures { (m : MapImage) → IsMapText m b.old → IsMapText (with_entry place (Used group (entry_ident m place)) m) b.new }
{
    let ident = ident_of(&entry(b, place));
    put_entry(b, place, &MapEntry::Used(group, ident));
}

/// Puts another entry at a place.
fn put_entry(b: &mut Block, place: u8, e: &MapEntry)
    requires image { (m : MapImage) × IsMapText m b.old × (m.ident < 2 ^ 63 + 2 ^ 40) }
    requires place { place ≤ 251 }
    requires entry { IsEntry e.now }
    ensures { (m : MapImage) → IsMapText m b.old → IsMapText (with_entry place e.now m) b.new }
{
    let ident = page_ident(b);
    write_entry(b, place, e);
    put_page_ident(b, ident + 1);
}
