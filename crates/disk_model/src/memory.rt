//! The device itself: its blocks and ports, and its calls, none of which is stopped or fails.

ghost use Rattle.std.specs.Prelude.{◌≡◌, ◌≢◌, ◌<◌, ◌≤◌, ◌*◌, true, false, Some, None, ℕ, Bool, IsTrue, [], IfOk, length, replicate};
ghost use Rattle.sd_base.specs.Disk.{IsFreeFor, IsPort};
ghost use Rattle.sd_base.specs.Calls.{Keeps, Narrows, NarrowsBut, NoNewWriter, NoNewWriterBut, KeepsForeign, KeepsForeignBut, Writes, CutsWrite, Covers, Settles, CountsStay, IsOrdered, Loses};
ghost use Rattle.sd_base.specs.Answers.{ReadCause, WriteCause, Reads, OnWrite};
ghost use Rattle.disk_model.specs.Picks.{KeepsPicks, WritesPicks, EndsPicks, FollowsPicks, GivesBack, KeepsCurrent, LosesPicks};
ghost use Rattle.disk_model.specs.Reached.{IsReached};

use crate::cell::{Cell, Mark};
use crate::lazy::LazyBlocks;
use crate::port::Port;
use crate::settle::{cover_blocks, settle_blocks, write_block};
use sd_base::{Block, BlockNo, Disk, NodeId, ReadAnswer, WriteAnswer};
use std::alloc::{AllocError, Global};

/// A device in memory. No call of it is stopped or fails, so that only `stop` stops a port.
///
/// `stop` follows `picks`. The blocks that the port has written and not covered are counted from 0 in
/// the order of their first such write since its last barrier or stop. Block `i` of this count belongs
/// to bit `i % 64` of `picks`, bit 0 the lowest: where the bit is 1 it holds what was written last,
/// and where it is 0 what it held before that first write, or it is lost if it was lost then. A write
/// of the content that a block already has counts like any other.
#[derive(Drop)]
pub struct MemDisk {
    size: u32,
    cells: Vec<Cell>,
    /// The two copies of each block, one after the other.
    copies: LazyBlocks,
    /// Port `n` at index `n`; there is no port 0.
    ports: [Port; 17],
    orders: u64,
    ghost celled: { length cells.items ≡ size },
    ghost copied: { length copies ≡ 2 * size },
    // Barrier and stop look at the port's range alone, since all that waits for it lies there.
    ghost reached: { IsReached cells.items ports },
}

impl MemDisk {
    ghost use Rattle.disk_model.specs.Blank.{IsBlank};
    ghost use Rattle.disk_model.specs.MemState.{mem_state};
    ghost use Rattle.disk_model.specs.MemPicks.{mem_picks};

    /// A device of zero blocks, on which no port is live.
    pub fn new(alloc: Global, blocks: u32) -> Result<MemDisk, AllocError>
        ensures blank { IfOk result (λ m. IsBlank blocks (mem_state m)) }
        ensures picks { IfOk result (λ m. (n : ℕ) → (mem_picks m).next n ≡ 0) }
    {
        let count = blocks as usize;
        let cells = covered_cells(alloc, count)?;
        let copies = LazyBlocks::new(alloc, 2 * count)?;
        Ok(MemDisk {
            size: blocks,
            cells,
            copies,
            ports: [Port::IDLE; 17],
            orders: 0,
        })
    }
}

/// That many covered blocks.
fn covered_cells(alloc: Global, count: usize) -> Result<Vec<Cell>, AllocError>
    ensures { IfOk result (λ cells. cells.items ≡ replicate count Cell.COVERED) }
{
    let mut cells = Vec::with_capacity(alloc, count)?;
    for _ in 0..count {
        cells.push(Cell::COVERED)?;
    }
    Ok(cells)
}

#[tactic(auto, unfolding(crate::specs::MemState::mem_state, crate::specs::MemPicks::mem_picks))]
impl Disk for MemDisk {
    ghost use Rattle.disk_model.specs.MemState.{mem_state};
    ghost use Rattle.disk_model.specs.MemStateLaws.{mem_reaches, mem_lawful};
    ghost use Rattle.disk_model.specs.MemPicks.{mem_picks};

    ghost told = { true };

    ghost state = { mem_state };

    ghost reaches = { mem_reaches };

    ghost lawful = { λ d k t. mem_lawful d k };

    fn blocks(&self) -> u32 {
        self.size
    }

    fn is_live(&self, n: NodeId) -> bool {
        self.ports[n.0 as usize].live
    }

    fn read(&mut self, n: NodeId, at: BlockNo, out: &mut Block) -> ReadAnswer
        requires port { IsPort n.0 }
        requires live { (mem_state self.old).live n.0 ≡ true }
        requires reach { (mem_state self.old).reach at.0 ≡ true }
        ensures keeps { Keeps n.0 (mem_state self.old) (mem_state self.new) }
        ensures cause { ReadCause result n.0 (mem_state self.old) (mem_state self.new) }
        ensures outcomes { Narrows (mem_state self.old).block (mem_state self.new).block }
        ensures writers { NoNewWriter (mem_state self.old).block (mem_state self.new).block }
        ensures foreign { KeepsForeign n.0 (mem_state self.old).block (mem_state self.new).block }
        ensures blocks { Reads result n.0 at.0 out.new (mem_state self.old).block (mem_state self.new).block }

        // No port stops or fails in it, and nothing changes.
        ensures not_stopped { result ≢ ReadAnswer.Stopped }
        ensures not_failed { result ≢ ReadAnswer.Failed }
        ensures picks { KeepsPicks (mem_picks self.old) (mem_picks self.new) }
    {
        let cell = self.cells[at.0 as usize];
        match cell.mark {
            Mark::Lost => ReadAnswer::Lost,
            _ => {
                *out = *self.copies.get(cell.place(at));
                ReadAnswer::Done
            }
        }
    }

    fn write(&mut self, n: NodeId, at: BlockNo, content: &Block) -> WriteAnswer
        requires port { IsPort n.0 }
        requires live { (mem_state self.old).live n.0 ≡ true }
        requires reach { (mem_state self.old).reach at.0 ≡ true }
        requires free { IsFreeFor n.0 ((mem_state self.old).block at.0) }
        ensures keeps { Keeps n.0 (mem_state self.old) (mem_state self.new) }
        ensures cause { WriteCause result n.0 (mem_state self.old) (mem_state self.new) }
        ensures outcomes { NarrowsBut at.0 content.now (mem_state self.old).block (mem_state self.new).block }
        ensures writers { NoNewWriterBut at.0 n.0 (mem_state self.old).block (mem_state self.new).block }
        ensures foreign { KeepsForeignBut at.0 n.0 (mem_state self.old).block (mem_state self.new).block }
        ensures blocks { OnWrite result
            (Writes n.0 at.0 content.now (mem_state self.old).block (mem_state self.new).block)
            (CutsWrite n.0 at.0 (mem_state self.old).block (mem_state self.new).block) }

        // It is done, and an uncovered block is counted once.
        ensures done { result ≡ WriteAnswer.Done }
        ensures picks { WritesPicks n.0 at.0 (mem_state self.old).block (mem_picks self.old) (mem_picks self.new) }
    {
        // The port's range holds each block that waits for it, so it grows first.
        let port = &mut self.ports[n.0 as usize];
        port.widen(at.0 as usize);
        let bit = port.next_bit % 64;
        let is_first = write_block(&mut self.cells, &mut self.copies, at, n.0, bit, content);
        self.ports[n.0 as usize].next_bit = bit + u8::from(is_first);
        WriteAnswer::Done
    }

    fn barrier(&mut self, n: NodeId) -> WriteAnswer
        requires port { IsPort n.0 }
        requires live { (mem_state self.old).live n.0 ≡ true }
        ensures keeps { Keeps n.0 (mem_state self.old) (mem_state self.new) }
        ensures cause { WriteCause result n.0 (mem_state self.old) (mem_state self.new) }
        ensures outcomes { Narrows (mem_state self.old).block (mem_state self.new).block }
        ensures writers { NoNewWriter (mem_state self.old).block (mem_state self.new).block }
        ensures foreign { KeepsForeign n.0 (mem_state self.old).block (mem_state self.new).block }
        ensures blocks { OnWrite result
            (Covers n.0 (mem_state self.old).block (mem_state self.new).block)
            (Settles n.0 (mem_state self.old).block (mem_state self.new).block) }

        // It is done, and the port's count begins again.
        ensures done { result ≡ WriteAnswer.Done }
        ensures picks { EndsPicks n.0 (mem_state self.old).block (mem_picks self.old) (mem_picks self.new) }
    {
        let port = self.ports[n.0 as usize];
        cover_blocks(&mut self.cells, port.first, port.end, n.0);
        self.ports[n.0 as usize].clear();
        WriteAnswer::Done
    }

    fn stop(&mut self, n: NodeId, picks: u64)
        requires { IsPort n.0 }
        ensures keeps { Keeps n.0 (mem_state self.old) (mem_state self.new) }
        ensures counts { CountsStay n.0 (mem_state self.old) (mem_state self.new) }
        ensures live { (mem_state self.new).live n.0 ≡ false }
        ensures outcomes { Narrows (mem_state self.old).block (mem_state self.new).block }
        ensures writers { NoNewWriter (mem_state self.old).block (mem_state self.new).block }
        ensures foreign { KeepsForeign n.0 (mem_state self.old).block (mem_state self.new).block }
        ensures blocks { Settles n.0 (mem_state self.old).block (mem_state self.new).block }

        // It follows the picks, and the port's count begins again.
        ensures follows { FollowsPicks n.0 picks (mem_picks self.old) (mem_state self.old).block (mem_state self.new).block }
        ensures none { picks ≡ 0 → GivesBack n.0 (mem_picks self.old) (mem_state self.old).block (mem_state self.new).block }
        ensures all { picks ≡ u64.MAX → KeepsCurrent n.0 (mem_state self.old).block (mem_state self.new).block }
        ensures picks { EndsPicks n.0 (mem_state self.old).block (mem_picks self.old) (mem_picks self.new) }
    {
        let port = self.ports[n.0 as usize];
        settle_blocks(&mut self.cells, port.first, port.end, n.0, picks);
        self.ports[n.0 as usize] = Port::IDLE;
    }

    fn start(&mut self, n: NodeId)
        requires { IsPort n.0 }
        ensures keeps { Keeps n.0 (mem_state self.old) (mem_state self.new) }
        ensures counts { CountsStay n.0 (mem_state self.old) (mem_state self.new) }
        ensures live { (mem_state self.new).live n.0 ≡ true }
        ensures blocks { (mem_state self.new).block ≡ (mem_state self.old).block }
        ensures picks { KeepsPicks (mem_picks self.old) (mem_picks self.new) }
    {
        self.ports[n.0 as usize].live = true;
    }

    fn lose(&mut self, at: BlockNo)
        requires reach { (mem_state self.old).reach at.0 ≡ true }
        requires covered { ((mem_state self.old).block at.0).writer ≡ None }
        ensures ports { IsOrdered (mem_state self.old) (mem_state self.new) }
        ensures blocks { Loses at.0 (mem_state self.old).block (mem_state self.new).block }
        ensures picks { LosesPicks at.0 (mem_picks self.old) (mem_picks self.new) }
    {
        self.cells[at.0 as usize].mark = Mark::Lost;
        self.orders = self.orders.saturating_add(1);
    }
}
