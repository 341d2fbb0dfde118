//! The pool: frames are taken from it, read and written through it, and given back to it.

ghost use Rattle.std.specs.Prelude.{◌≡◌, ◌+◌, ◌<◌, ◌≤◌, ◌↔◌, ℕ, Some, None, IsSome, IfSome, IfNone, IfOk, replicate, slice_set, length, vec_capacity};
ghost use Rattle.std.specs.List.{range_with_len};
ghost use Rattle.std.specs.Borrow.{sem};
ghost use Rattle.frame_pool.specs.Frames.{IsOut, frame_at, free_count};

use crate::frame::Frame;
use sd_base::Block;
use std::alloc::{AllocError, Global};
use std::marker::Model;

/// A pool of frames. A contract sees it as a list: for each frame its bytes if it is out, and nothing
/// if it is free.
#[derive(Drop)]
pub struct Pool {
    blocks: Vec<Block>,
    /// The numbers of the frames that are free, as a stack.
    free: Vec<u16>,
}

impl Model for Pool {
    ghost use Rattle.std.specs.Prelude.{List, ℕ, Option, vec_capacity};
    ghost use Rattle.frame_pool.specs.Frames.{shown, IsPool};

    ghost Value = { List (Option (List ℕ)) };

    ghost view = { λ p. shown p.blocks.items p.free.items };

    ghost invariant = { λ p. IsPool p.blocks.items p.free.items (vec_capacity p.free) };
}

/// The numbers of that many frames.
fn all_numbers(alloc: Global, frames: u16) -> Result<Vec<u16>, AllocError>
    ensures numbers { IfOk result (λ v. v.items ≡ range_with_len 0 frames) }
    ensures room { IfOk result (λ v. frames ≤ vec_capacity v) }
{
    let mut numbers = Vec::with_capacity(alloc, frames as usize)?;
    for number in 0..frames {
        numbers.push(number)?;
    }
    Ok(numbers)
}

impl Pool {
    ghost use Rattle.frame_pool.specs.Lending.{LendsFrame};

    /// A pool of that many frames, all free. No other call takes memory: this one takes a region for
    /// the frames and one for their numbers.
    pub fn new(alloc: Global, frames: u16) -> Result<Pool, AllocError>
        ensures { IfOk result (λ pool. pool ≡ replicate frames None) }
    {
        let mut blocks = Vec::new(alloc);
        blocks.resize(frames as usize, [0; 4096])?;
        let free = all_numbers(alloc, frames)?;
        Ok(Pool { blocks, free })
    }

    /// Takes a free frame. `None` exactly where no frame is free. What the frame holds isn't known.
    pub fn take(&mut self) -> Option<Frame>
        ensures some { IsSome result ↔ (0 < free_count self.old) }
        ensures out { IfSome result (IsOut self.new) }
        ensures others { IfSome result (λ f. self.old ≡ slice_set self.new f None) }
        ensures counted { IfSome result (λ f. free_count self.new + 1 ≡ free_count self.old) }
        ensures none { IfNone result (self.new ≡ self.old) }
    {
        let number = self.free.pop()?;
        Some(Frame { number })
    }

    /// Gives a frame back.
    pub fn give(&mut self, f: Frame)
        requires { IsOut self.old f }
        ensures free { self.new ≡ slice_set self.old f None }
        ensures counted { free_count self.new ≡ free_count self.old + 1 }
    {
        let Frame { number } = f;
        self.free.push_reserved(number);
    }

    /// What a frame holds.
    pub fn bytes(&self, f: &Frame) -> &Block
        requires { IsOut self.now f.now }
        ensures { frame_at self.now f.now ≡ Some result.now }
    {
        &self.blocks[f.number as usize]
    }

    /// What a frame holds, to be written. Whatever is written, no other frame changes.
    pub fn bytes_mut(&mut self, f: &Frame) -> &mut Block
        requires { IsOut self.old f.now }
        ensures* writes_back { sem 𝓛 (LendsFrame self.entry f.now result) }
        ensures value { frame_at self.old f.now ≡ Some result.now }
    {
        &mut self.blocks[f.number as usize]
    }

    /// How many frames are free.
    pub fn free(&self) -> u16
        ensures { result ≡ free_count self.now }
    {
        self.free.len() as u16
    }
}
