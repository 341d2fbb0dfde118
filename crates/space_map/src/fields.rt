//! Where each entry stands in the block of a map page, and how it is written and read.

ghost use Rattle.std.specs.Prelude.{◌≡◌, ◌+◌, ◌*◌, ◌≤◌, ◌↔◌, IsTrue, drop};
ghost use Rattle.sd_base.specs.Text.{put};
ghost use Rattle.space_map.specs.Entry.{IsEntry, ident_of, fields_text, entry_text, entry_of_text};

use crate::map_entry::MapEntry;
use sd_base::{Block, GroupNo, MAX_GROUP, MAX_IDENT, put_bytes, put_u32, put_u64, u32_at, u64_at};

/// The number of entries of a map page.
pub const ENTRIES: u8 = 252;

const FREE: u8 = 0;

const USED: u8 = 1;

/// Where an entry begins in a block.
fn entry_place(place: u8) -> usize
    requires { place ≤ 251 }
    ensures { result ≡ 64 + 16 * place }
{
    64 + 16 * place as usize
}

/// What is read at the place of an entry, whatever stands there.
pub fn entry_at(b: &Block, place: u8) -> MapEntry
    requires { place ≤ 251 }
    ensures { result ≡ entry_of_text (drop (64 + 16 * place) b.now) }
{
    let at = entry_place(place);
    let ident = u64_at(b, at + 8);
    if b[at] == FREE {
        return MapEntry::Free(ident);
    }
    MapEntry::Used(GroupNo(u32_at(b, at + 4)), ident)
}

/// The identifier of an entry.
pub fn ident_of(e: &MapEntry) -> u64
    ensures { result ≡ ident_of e.now }
{
    match *e {
        MapEntry::Free(ident) | MapEntry::Used(_, ident) => ident,
    }
}

/// Whether the numbers of an entry are in their ranges.
pub fn is_entry(e: &MapEntry) -> bool
    ensures { IsTrue result ↔ IsEntry e.now }
{
    match *e {
        MapEntry::Free(ident) => ident <= MAX_IDENT,
        MapEntry::Used(group, ident) => group.0 <= MAX_GROUP && ident <= MAX_IDENT,
    }
}

fn write_fields(out: &mut Block, place: u8, state: u8, group: u32, ident: u64)
    requires { place ≤ 251 }
    ensures { out.new ≡ put (64 + 16 * place) (fields_text state group ident) out.old }
{
    let at = entry_place(place);
    put_bytes(out, at, &[state, 0, 0, 0]);
    put_u32(out, at + 4, group);
    put_u64(out, at + 8, ident);
}

/// Writes an entry.
pub fn write_entry(out: &mut Block, place: u8, e: &MapEntry)
    requires { place ≤ 251 }
    ensures { out.new ≡ put (64 + 16 * place) (entry_text e.now) out.old }
{
    match *e {
        MapEntry::Free(ident) => write_fields(out, place, FREE, 0, ident),
        MapEntry::Used(group, ident) => write_fields(out, place, USED, group.0, ident),
    }
}
