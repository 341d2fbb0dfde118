//! The first block of a device of a store, which holds the store's shape.

ghost use Rattle.std.specs.Prelude.{◌≡◌, IfSome};
ghost use Rattle.sd_base.specs.Shape.{IsShape};
ghost use Rattle.sd_base.specs.declared.shape.Shape.{Shape};
ghost use Rattle.sd_base.specs.Supers.{magic, super_text, HasFields};

use crate::device::Block;
use crate::shape::Shape;
use crate::text::{put_bytes, put_u32, put_u64, u32_at, u64_at};

fn magic_of(vault: bool) -> &'static [u8; 8]
    ensures { result.now ≡ magic vault }
{
    if vault { b"SDVAULT1" } else { b"SDSTORE1" }
}

/// Writes the super of a shape, for the vault or for the disk.
pub fn write_super(s: &Shape, vault: bool, out: &mut Block)
    requires { IsShape s.now }
    ensures { out.new ≡ super_text vault s.now }
{
    *out = [0; 4096];
    put_bytes(out, 0, magic_of(vault));
    put_u32(out, 8, 1);
    put_u32(out, 12, u32::from(s.nodes));
    put_u32(out, 16, s.ring);
    put_u32(out, 20, s.maps);
    put_u32(out, 24, s.keep);
    put_u64(out, 32, s.birth);
}

/// The shape whose numbers stand in a block, if they are in their ranges.
fn shape_at(block: &Block) -> Option<Shape>
    ensures valid { IfSome result IsShape }
    ensures read { (s : Shape) → IsShape s → HasFields s block.now → result ≡ Some s }
{
    let nodes = u32_at(block, 12);
    // Tested here, before the number becomes a byte.
    if nodes > 8 {
        return None;
    }
    let shape = Shape {
        nodes: nodes as u8,
        ring: u32_at(block, 16),
        maps: u32_at(block, 20),
        keep: u32_at(block, 24),
        birth: u64_at(block, 32),
    };
    if shape.is_valid() { Some(shape) } else { None }
}

/// Reads the super of the vault or of the disk. `None` exactly where the block isn't one.
pub fn parse_super(block: &Block, vault: bool) -> Option<Shape>
    ensures found { IfSome result (λ s. IsShape s × (block.now ≡ super_text vault s)) }
    ensures only { (s : Shape) → IsShape s → block.now ≡ super_text vault s → result ≡ Some s }
{
    let shape = shape_at(block)?;
    let mut text = [0; 4096];
    write_super(&shape, vault, &mut text);
    if text == *block { Some(shape) } else { None }
}
