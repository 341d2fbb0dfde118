//! An image that an earlier life of a data page has left counts as the blank page.

ghost use Rattle.std.specs.Prelude.{◌+◌, ◌^◌, ◌≤◌};
ghost use Rattle.space_map.specs.Entry.{ident_of};
ghost use Rattle.space_map.specs.Life.{DataPage, IsDataText, page_in_life};

use crate::fields::ident_of;
use crate::map_entry::MapEntry;
use sd_base::{Block, DATA_PAGE, PageNo, page_ident, write_page_header};

/// Makes of the data page `x` the page that it stands for under its map entry. An image whose
/// identifier is below the entry's was left by an earlier life of the page: in its place stands the
/// blank page with the entry's identifier, at most 2^63 + 2^40. Any other image stays.
///
/// So a page comes into use without being written.
pub fn life(e: &MapEntry, x: PageNo, image: &mut Block)
    requires image { (page : DataPage) × IsDataText x page image.old }
    requires ident { ident_of e.now ≤ 2 ^ 63 + 2 ^ 40 }
    ensures { (page : DataPage) → IsDataText x page image.old → IsDataText x (page_in_life e.now page) image.new }
{
    let ident = ident_of(e);
    if page_ident(image) < ident {
        write_page_header(image, DATA_PAGE, x, ident);
    }
}
