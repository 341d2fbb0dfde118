//! What a write, a barrier and a stop do to blocks.

ghost use Rattle.std.specs.Prelude.{◌≡◌, ◌≢◌, ◌<◌, ◌≤◌, ◌*◌, ◌%◌, ℕ, List, Some, length};
ghost use Rattle.sd_base.specs.Disk.{IsFreeFor};
ghost use Rattle.disk_model.specs.Memory.{block_at, view_at, waiter_at};
ghost use Rattle.disk_model.specs.Settling.{WritesBlock, CoversBlock, StopsBlock, IsWithin};

use crate::cell::Cell;
use crate::lazy::LazyBlocks;
use sd_base::{Block, BlockNo};

/// Writes one block. True where it had no uncovered write.
pub(crate) fn write_block(
    cells: &mut Vec<Cell>,
    copies: &mut LazyBlocks,
    at: BlockNo,
    port: u8,
    bit: u8,
    content: &Block,
) -> bool
    requires cells { at.0 < length cells.old.items }
    requires copies { length copies.old ≡ 2 * length cells.old.items }
    requires free { IsFreeFor port (block_at cells.old.items copies.old at.0) }
    ensures cells { length cells.new.items ≡ length cells.old.items }
    ensures copies { length copies.new ≡ length copies.old }
    ensures here { WritesBlock port content.now (bit % 64) result (view_at cells.old.items copies.old at.0) (view_at cells.new.items copies.new at.0) }
    ensures others { (k : ℕ) → k ≢ at.0 → view_at cells.new.items copies.new k ≡ view_at cells.old.items copies.old k }
{
    let cell = &mut cells[at.0 as usize];
    let is_first = cell.take(port, bit);
    let place = cell.place(at);
    copies.set(place, content);
    is_first
}

/// Covers the port's blocks, all of which lie in this range.
pub(crate) fn cover_blocks(cells: &mut Vec<Cell>, first: usize, end: usize, port: u8)
    requires end { end ≤ length cells.old.items }
    requires within { IsWithin cells.old.items port first end }
    ensures len { length cells.new.items ≡ length cells.old.items }
    ensures each { (copies : List (List ℕ)) (k : ℕ) → CoversBlock port (view_at cells.old.items copies k) (view_at cells.new.items copies k) }
{
    for k in first..end {
        cells[k].cover(port);
    }
}

/// Settles the port's blocks, all of which lie in this range.
pub(crate) fn settle_blocks(cells: &mut Vec<Cell>, first: usize, end: usize, port: u8, picks: u64)
    requires end { end ≤ length cells.old.items }
    requires within { IsWithin cells.old.items port first end }
    ensures len { length cells.new.items ≡ length cells.old.items }
    ensures each { (copies : List (List ℕ)) (k : ℕ) → StopsBlock port picks (view_at cells.old.items copies k) (view_at cells.new.items copies k) }
{
    for k in first..end {
        cells[k].settle(port, picks);
    }
}
