//! What is read of the text of a map page before it is changed.

ghost use Rattle.std.specs.Prelude.{◌≡◌};
ghost use Rattle.space_map.specs.Image.{IsMapText, MapImage};

use sd_base::{Block, page_ident};

/// The identifier of a map page.
pub fn map_identifier(b: &Block) -> u64
    requires { (m : MapImage) × IsMapText m b.now }
    ensures { (m : MapImage) → IsMapText m b.now → result ≡ m.ident }
{
    page_ident(b)
}
