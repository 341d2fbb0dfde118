//! An array of blocks that are zero until they are written, and are stored only then.

ghost use Rattle.std.specs.Prelude.{◌≡◌, ◌<◌, ◌≤◌, IfOk, List, ℕ, replicate, length, slice_index_or, slice_set, vec_capacity};
ghost use Rattle.disk_model.specs.Lazy.{zero_block, laid_out, content_at, IsLaid};

use sd_base::Block;
use std::alloc::{AllocError, Global};
use std::marker::Model;

/// What a block holds that was never written.
static ZEROS: Block = [0; 4096];

/// An array of blocks that are zero until they are written. All its memory is reserved by `new`.
#[derive(Drop)]
pub(crate) struct LazyBlocks {
    /// For each block where its content stands, and none before its first write.
    places: Vec<Option<usize>>,
    contents: Vec<Block>,
}

impl Model for LazyBlocks {
    ghost use Rattle.std.specs.Prelude.{List, ℕ, vec_capacity};
    ghost use Rattle.disk_model.specs.Lazy.{laid_out, IsLaid};

    ghost Value = { List (List ℕ) };

    ghost view = { λ a. laid_out a.places.items a.contents.items };

    ghost invariant = { λ a. IsLaid a.places.items a.contents.items (vec_capacity a.contents) };
}

impl LazyBlocks {
    /// Zero blocks, of which none has a place yet.
    pub(crate) fn new(alloc: Global, count: usize) -> Result<LazyBlocks, AllocError>
        ensures { IfOk result (λ blocks. blocks ≡ replicate count zero_block) }
    {
        let contents = Vec::with_capacity(alloc, count)?;
        let places = no_places(alloc, count)?;
        Ok(LazyBlocks { places, contents })
    }

    /// The content of a block.
    pub(crate) fn get(&self, i: usize) -> &Block
        requires { i < length self.now }
        ensures { result.now ≡ slice_index_or self.now i zero_block }
    {
        content_of(&self.places, &self.contents, i)
    }

    /// Writes a block.
    pub(crate) fn set(&mut self, i: usize, content: &Block)
        requires { i < length self.old }
        ensures { self.new ≡ slice_set self.old i content.now }
    {
        put(&mut self.places, &mut self.contents, i, content);
    }
}

/// That many blocks without a place.
fn no_places(alloc: Global, count: usize) -> Result<Vec<Option<usize>>, AllocError>
    ensures { IfOk result (λ places. places.items ≡ replicate count None) }
{
    let mut places = Vec::with_capacity(alloc, count)?;
    for _ in 0..count {
        places.push(None)?;
    }
    Ok(places)
}

/// The content of a block: that of its place, or zeros.
fn content_of<'a>(places: &Vec<Option<usize>>, contents: &'a Vec<Block>, i: usize) -> &'a Block
    requires index { i < length places.now.items }
    requires laid { IsLaid places.now.items contents.now.items (vec_capacity contents.now) }
    ensures { result.now ≡ slice_index_or (laid_out places.now.items contents.now.items) i zero_block }
{
    match places[i] {
        Some(place) => &contents[place],
        None => &ZEROS,
    }
}

/// Writes a block at its place, or at a new one where it has none.
fn put(places: &mut Vec<Option<usize>>, contents: &mut Vec<Block>, i: usize, content: &Block)
    requires index { i < length places.old.items }
    requires laid { IsLaid places.old.items contents.old.items (vec_capacity contents.old) }
    ensures laid { IsLaid places.new.items contents.new.items (vec_capacity contents.new) }
    ensures value { laid_out places.new.items contents.new.items ≡ slice_set (laid_out places.old.items contents.old.items) i content.now }
{
    match places[i] {
        Some(place) => contents[place] = *content,
        None => {
            // There is room: no more blocks have a place than there are blocks.
            places[i] = Some(contents.len());
            contents.push_reserved(*content);
        }
    }
}
