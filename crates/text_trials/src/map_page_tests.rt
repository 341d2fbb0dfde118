//! The texts of map pages, and what an image of a data page stands for.
ghost use Rattle.std.specs.Prelude.{◌+◌, ◌^◌, ◌≤◌, ◌∷◌, codes, replicate};
ghost use Rattle.space_map.specs.Change.{IsMapOp};
ghost use Rattle.space_map.specs.Life.{IsDataText};

use crate::texts::{is_zero_from, stands};
use sd_base::{Block, DATA_PAGE, GroupNo, MAX_IDENT, PageNo, PageOp, put_bytes, write_page_header};
use space_map::MapEntry::{Free, Used};
use space_map::{
    MapEntry, apply_map, entry, find_group, first_free, life, parse_map, write_birth_map,
};
use std::process::Abort;

const MAP: PageNo = PageNo(3);

// The greatest identifier, 2^63 + 2^40, and the greatest group, 2^28 - 1.
const IDENT: u64 = 0x8000_0100_0000_0000;

const GROUP: GroupNo = GroupNo(0x0fff_ffff);

// What is read of map page 3: its identifier, its first entry, the least place of the greatest group, and
// that of a free entry.
type Found = (u64, MapEntry, Option<u8>, Option<u8>);

fn read(map: &Block) -> Option<Found> {
    let ident = parse_map(map, MAP)?;
    Some((
        ident,
        entry(map, 0),
        find_group(map, GROUP),
        first_free(map),
    ))
}

// An entry that was born free with identifier 5.
const BORN: &[u8] = b"\0\0\0\0\0\0\0\0\0\0\0\0\0\0\0\x05";

// Compares the texts of the first and the last entry, and what is read.
fn check(rt: &impl Abort, map: &Block, first: &[u8], last: &[u8], found: Found) {
    assert!(rt; stands(map, 0, b"SDPAGE01\x01\0\0\0\0\0\0\x03"));
    assert!(rt; stands(map, 64, first), "{found:?}");
    assert!(rt; stands(map, 80, BORN));
    assert!(rt; stands(map, 4080, last), "{found:?}");
    assert_eq!(rt; read(map), Some(found));
}

// Changes map page 3.
fn change(rt: &impl Abort, map: &mut Block, op: &PageOp)
    requires { IsMapOp op.now }
{
    let ident = parse_map(map, MAP).expect(rt, "a map page");
    assert!(rt; ident < MAX_IDENT);
    apply_map(map, op);
}

#[test]
fn map_pages_have_their_texts(rt: HostRuntime) {
    let mut map = [7; 4096];
    write_birth_map(MAP, 5, &mut map);
    check(&rt, &map, BORN, BORN, (5, Free(5), None, Some(0)));
    let group = GroupNo(0x0102_0304);
    change(&rt, &mut map, &PageOp::MapUse { place: 0, group });
    let op = PageOp::MapUse {
        place: 251,
        group: GROUP,
    };
    change(&rt, &mut map, &op);
    let used = b"\x01\0\0\0\x01\x02\x03\x04\0\0\0\0\0\0\0\x05";
    let last = b"\x01\0\0\0\x0f\xff\xff\xff\0\0\0\0\0\0\0\x05";
    let found = (7, Used(group, 5), Some(251), Some(1));
    check(&rt, &map, used, last, found);
    let op = PageOp::MapFree {
        place: 0,
        ident: IDENT,
    };
    change(&rt, &mut map, &op);
    let freed = b"\0\0\0\0\0\0\0\0\x80\0\x01\0\0\0\0\0";
    check(&rt, &map, freed, last, (8, Free(IDENT), Some(251), Some(0)));
    // The second life begins with the identifier of the free entry.
    let op = PageOp::MapUse {
        place: 0,
        group: GROUP,
    };
    change(&rt, &mut map, &op);
    let again = b"\x01\0\0\0\x0f\xff\xff\xff\x80\0\x01\0\0\0\0\0";
    let found = (9, Used(GROUP, IDENT), Some(0), Some(1));
    check(&rt, &map, again, last, found);
}

// Data page 7 with this identifier, and a record in slot 0.
fn data_page(ident: u64) -> Block
    requires { ident ≤ 2 ^ 63 + 2 ^ 40 }
    ensures { IsDataText (record { 0 = 7 }) (record { ident = ident; slots = Some (codes "hello") ∷ replicate 15 None }) result }
{
    let mut page = [0; 4096];
    write_page_header(&mut page, DATA_PAGE, PageNo(7), ident);
    put_bytes(&mut page, 64, b"\x01\x05\0\0hello");
    page
}

#[test]
fn an_image_of_an_earlier_life_is_blank(rt: HostRuntime) {
    let mut page = data_page(8);
    life(&Used(GROUP, 8), PageNo(7), &mut page);
    assert!(rt; page == data_page(8));
    life(&Free(IDENT), PageNo(7), &mut page);
    assert!(rt; stands(&page, 0, b"SDPAGE01\x02\0\0\0\0\0\0\x07\x80\0\x01"));
    assert!(rt; is_zero_from(&page, 19));
}
