//! A device in memory of which one block is read as something else.

ghost use Rattle.std.specs.Prelude.{◌≡◌, ◌≢◌, ◌<◌, true, false, Some, length, slice_get, slice_set, IfOk};
ghost use Rattle.sd_base.specs.Disk.{IsPort};
ghost use Rattle.sd_base.specs.Calls.{Keeps};
ghost use Rattle.sd_base.specs.Answers.{ReadCause, WriteCause};
ghost use Rattle.store_trials.specs.Misread.{misread_state, IsUnused, IsReadAs};

use sd_base::{Block, BlockNo, Disk, NodeId, ReadAnswer, WriteAnswer};
use std::alloc::{AllocError, Global};

/// A device that reads one block as something else, whatever was written there. No call of it is
/// stopped or fails.
///
/// It tells no content, so what a script meets on it is shown by tests alone.
#[derive(Drop)]
pub struct MisreadDisk {
    size: u32,
    blocks: Vec<Block>,
    misread: BlockNo,
    /// What is read of that block: this content, or that it is lost.
    content: Option<Block>,
    live: [bool; 17],
    orders: u64,
    ghost sized: { length blocks.items ≡ size },
}

impl MisreadDisk {
    /// A device of zero blocks, on which no port is live.
    pub fn new(
        alloc: Global,
        size: u32,
        misread: BlockNo,
        content: Option<Block>,
    ) -> Result<MisreadDisk, AllocError>
        ensures state { IfOk result (λ d. IsUnused size (⟦<MisreadDisk as Disk>⟧.state d)) }
        ensures misread { IfOk result (λ d. (d.misread ≡ misread) × (d.content ≡ content)) }
    {
        Ok(MisreadDisk {
            size,
            blocks: zero_blocks(alloc, size)?,
            misread,
            content,
            live: [false; 17],
            orders: 0,
        })
    }
}

fn zero_blocks(alloc: Global, size: u32) -> Result<Vec<Block>, AllocError>
    ensures { IfOk result (λ blocks. length blocks.items ≡ size) }
{
    let mut blocks = Vec::with_capacity(alloc, size as usize)?;
    for _ in 0..size {
        blocks.push([0; 4096])?;
    }
    Ok(blocks)
}

impl Disk for MisreadDisk {
    ghost use Rattle.std.proofs.Common.{rules};
    ghost use Rattle.std.proofs.lemmas.Bool.{lt-ltb};

    ghost told = { false };

    ghost state = { λ d. misread_state d.size d.live d.orders };

    ghost reaches = { λ d k lt. lt-ltb k _ lt };

    ghost lawful = { λ d k told. Prim.search rules };

    fn blocks(&self) -> u32 {
        self.size
    }

    fn is_live(&self, n: NodeId) -> bool {
        self.live[n.0 as usize]
    }

    fn read(&mut self, n: NodeId, at: BlockNo, out: &mut Block) -> ReadAnswer
        requires port { IsPort n.0 }
        requires live { (⟦<MisreadDisk as Disk>⟧.state self.old).live n.0 ≡ true }
        requires reach { (⟦<MisreadDisk as Disk>⟧.state self.old).reach at.0 ≡ true }
        ensures keeps { Keeps n.0 (⟦<MisreadDisk as Disk>⟧.state self.old) (⟦<MisreadDisk as Disk>⟧.state self.new) }
        ensures cause { ReadCause result n.0 (⟦<MisreadDisk as Disk>⟧.state self.old) (⟦<MisreadDisk as Disk>⟧.state self.new) }

        // One block is read as it was told, and each other one as what was written.
        ensures same { self.new ≡ self.old }
        ensures misread { at.0 ≡ self.old.misread.0 → IsReadAs self.old.content result out.new }
        ensures others { at.0 ≢ self.old.misread.0 → (result ≡ ReadAnswer.Done) × (slice_get self.old.blocks.items at.0 ≡ Some out.new) }
    {
        if at != self.misread {
            *out = self.blocks[at.0 as usize];
            return ReadAnswer::Done;
        }
        match self.content {
            Some(content) => {
                *out = content;
                ReadAnswer::Done
            }
            None => ReadAnswer::Lost,
        }
    }

    fn write(&mut self, n: NodeId, at: BlockNo, content: &Block) -> WriteAnswer
        requires port { IsPort n.0 }
        requires live { (⟦<MisreadDisk as Disk>⟧.state self.old).live n.0 ≡ true }
        requires reach { (⟦<MisreadDisk as Disk>⟧.state self.old).reach at.0 ≡ true }
        ensures keeps { Keeps n.0 (⟦<MisreadDisk as Disk>⟧.state self.old) (⟦<MisreadDisk as Disk>⟧.state self.new) }
        ensures cause { WriteCause result n.0 (⟦<MisreadDisk as Disk>⟧.state self.old) (⟦<MisreadDisk as Disk>⟧.state self.new) }

        // It is done, and changes no other block and not what is misread.
        ensures done { result ≡ WriteAnswer.Done }
        ensures written { self.new.blocks.items ≡ slice_set self.old.blocks.items at.0 content.now }
        ensures misread { (self.new.misread ≡ self.old.misread) × (self.new.content ≡ self.old.content) }
    {
        self.blocks[at.0 as usize] = *content;
        WriteAnswer::Done
    }

    fn barrier(&mut self, _n: NodeId) -> WriteAnswer {
        WriteAnswer::Done
    }

    fn stop(&mut self, n: NodeId, _picks: u64) {
        self.live[n.0 as usize] = false;
    }

    fn start(&mut self, n: NodeId) {
        self.live[n.0 as usize] = true;
    }

    fn lose(&mut self, _at: BlockNo) {
        self.orders = self.orders.saturating_add(1);
    }
}
