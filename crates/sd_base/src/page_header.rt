//! The header that map pages and data pages share: kind, page number and identifier.

ghost use Rattle.std.specs.Prelude.{◌≡◌, []};
ghost use Rattle.sd_base.specs.Page.{page_text, header_page, header_ident, with_header_ident};

use crate::device::Block;
use crate::names::PageNo;
use crate::text::{put_bytes, put_u32, put_u64, u32_at, u64_at};

/// The highest identifier that a page may have, in the format of docs/FORMATS.md.
pub const MAX_IDENT: u64 = (1 << 63) + (1 << 40);

/// What the header of a map page has for the kind of page.
pub const MAP_PAGE: u8 = 1;

/// What the header of a data page has for the kind of page.
pub const DATA_PAGE: u8 = 2;

/// Writes the header of a page of a kind over a whole block, with zeros behind it.
///
/// The format is in docs/FORMATS.md.
pub fn write_page_header(out: &mut Block, kind: u8, page: PageNo, ident: u64)
    ensures { out.new ≡ page_text kind page.0 ident [] }
{
    *out = [0; 4096];
    put_bytes(out, 0, b"SDPAGE01");
    put_bytes(out, 8, &[kind]);
    put_u32(out, 12, page.0);
    put_u64(out, 16, ident);
}

/// The page number in the header of a page, of any kind.
#[tactic(auto, unfolding(crate::specs::Page::header_page))]
pub fn page_number(block: &Block) -> PageNo
    ensures { result.0 ≡ header_page block.now }
{
    PageNo(u32_at(block, 12))
}

/// The identifier in the header of a page, of any kind.
#[tactic(auto, unfolding(crate::specs::Page::header_ident))]
pub fn page_ident(block: &Block) -> u64
    ensures { result ≡ header_ident block.now }
{
    u64_at(block, 16)
}

/// Puts another identifier into the header of a page, of any kind.
#[tactic(auto, unfolding(crate::specs::Page::with_header_ident))]
pub fn put_page_ident(block: &mut Block, ident: u64)
    ensures { block.new ≡ with_header_ident ident block.old }
{
    put_u64(block, 16, ident);
}
