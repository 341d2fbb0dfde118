//! The block with a node's anchor: where its log starts, or what is kept of it on the vault.

ghost use Rattle.std.specs.Prelude.{◌≡◌, ℕ, Some, IfSome};
ghost use Rattle.sd_base.specs.Anchors.{anchor_magic, anchor_text, IsAnchorNumber};

use crate::device::{Block, NodeId};
use crate::text::{put_bytes, put_u64, u64_at};

/// The highest number of a log block that an anchor may have, in the format of docs/FORMATS.md.
pub const MAX_ANCHOR: u64 = 1 << 56;

fn magic_of(vault: bool) -> &'static [u8; 8]
    ensures { result.now ≡ anchor_magic vault }
{
    if vault { b"SDVANCHR" } else { b"SDANCHOR" }
}

/// Writes the anchor of a node: for the disk with the number of the log block that its log starts
/// with, for the vault with that of the first log block which is kept there. The format is in
/// docs/FORMATS.md.
pub fn write_anchor(n: NodeId, vault: bool, number: u64, out: &mut Block)
    requires { IsAnchorNumber number }
    ensures { out.new ≡ anchor_text vault n.0 number }
{
    *out = [0; 4096];
    put_bytes(out, 0, magic_of(vault));
    put_bytes(out, 8, &[n.0]);
    put_u64(out, 16, number);
}

/// Reads the number in the anchor of a node, of the vault or of the disk. `None` exactly where the
/// block isn't that anchor.
pub fn parse_anchor(block: &Block, vault: bool, n: NodeId) -> Option<u64>
    ensures found { IfSome result (λ number. IsAnchorNumber number × (block.now ≡ anchor_text vault n.0 number)) }
    ensures only { (number : ℕ) → IsAnchorNumber number → block.now ≡ anchor_text vault n.0 number → result ≡ Some number }
{
    let number = u64_at(block, 16);
    if number > MAX_ANCHOR {
        return None;
    }
    let mut text = [0; 4096];
    write_anchor(n, vault, number, &mut text);
    if text == *block { Some(number) } else { None }
}
