//! What stands in a block.
use sd_base::Block;

/// Whether these bytes stand at a place of the block.
pub(crate) fn stands(block: &Block, at: usize, bytes: &[u8]) -> bool {
    match block.get(at..) {
        Some(rest) => rest.starts_with(bytes),
        None => false,
    }
}

/// Whether the block has only zeros from a place on.
pub(crate) fn is_zero_from(block: &Block, at: usize) -> bool {
    block.iter().skip(at).all(|b| *b == 0)
}
