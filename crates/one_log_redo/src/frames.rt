//! The frames that a redo has taken out of the pool, and which pages are in them.

ghost use Rattle.std.specs.Prelude.{◌≡◌, ◌+◌, ◌<◌, ◌≤◌, ℕ, List, Option, Some, None, IsSome, IfSome, MatchOption, length, min, replicate, slice_index_or, slice_set};
ghost use Rattle.frame_pool.specs.Frames.{IsOut, frame_at, free_count};
ghost use Rattle.one_log_redo.specs.Copies.{AreLent, IsElsewhere, TakesFrames, frame_of};

use frame_pool::{Frame, Pool};
use std::mem;

/// How many pages are in frames at the most.
pub(crate) const MAX_FRAMES: usize = 16;

/// Frames that are out of the pool, at the first `count` places. Which page is at a place is said by a
/// list of its own.
pub(crate) struct Lent {
    pub(crate) frames: [Option<Frame>; MAX_FRAMES],
    pub(crate) count: usize,
}

/// Puts a frame at a free place.
fn put(frames: &mut [Option<Frame>], k: usize, f: Frame)
    requires place { k < length frames.old }
    requires free { slice_index_or frames.old k None ≡ None }
    ensures { frames.new ≡ slice_set frames.old k (Some f) }
{
    match mem::replace(&mut frames[k], Some(f)) {
        None => (),
        Some(_old) => unreachable!(),
    }
}

/// That no place has a frame.
fn no_frames() -> [Option<Frame>; MAX_FRAMES]
    ensures { result ≡ replicate 16 None }
{
    [
        None, None, None, None, None, None, None, None, None, None, None, None, None, None, None,
        None,
    ]
}

/// Ends a place that has no frame.
fn end_free(place: Option<Frame>)
    requires { place ≡ None }
{
    match place {
        None => (),
        Some(_frame) => unreachable!(),
    }
}

/// Ends places that have no frame. Each is ended by itself: an array of places can't be let go, since a
/// place could have a frame.
fn end_places(frames: [Option<Frame>; MAX_FRAMES])
    requires { (k : ℕ) → slice_index_or frames k None ≡ None }
{
    let [
        first,
        second,
        third,
        fourth,
        fifth,
        sixth,
        seventh,
        eighth,
        ninth,
        tenth,
        eleventh,
        twelfth,
        thirteenth,
        fourteenth,
        fifteenth,
        sixteenth,
    ] = frames;
    end_free(first);
    end_free(second);
    end_free(third);
    end_free(fourth);
    end_free(fifth);
    end_free(sixth);
    end_free(seventh);
    end_free(eighth);
    end_free(ninth);
    end_free(tenth);
    end_free(eleventh);
    end_free(twelfth);
    end_free(thirteenth);
    end_free(fourteenth);
    end_free(fifteenth);
    end_free(sixteenth);
}

/// Gives the frame at a place back, if there is one.
fn give_one(frames: &mut [Option<Frame>], k: usize, pool: &mut Pool)
    requires place { k < length frames.old }
    requires out { IfSome (slice_index_or frames.old k None) (λ f. IsOut pool.old f) }
    ensures frames { frames.new ≡ slice_set frames.old k None }
    ensures pool { MatchOption (slice_index_or frames.old k None) (pool.new ≡ pool.old) (λ f. pool.new ≡ slice_set pool.old f None) }
{
    if let Some(f) = mem::take(&mut frames[k]) {
        pool.give(f);
    }
}

impl Lent {
    /// Takes as many frames as there are free ones, 16 at the most.
    pub(crate) fn take(pool: &mut Pool) -> Lent
        ensures count { result.count ≡ min (free_count pool.old) 16 }
        ensures lent { AreLent pool.new result.frames result.count }
        ensures taken { TakesFrames result.frames result.count pool.old pool.new }
    {
        let mut frames = no_frames();
        for k in 0..MAX_FRAMES {
            match pool.take() {
                Some(f) => put(&mut frames, k, f),
                None => return Lent { frames, count: k },
            }
        }
        Lent {
            frames,
            count: MAX_FRAMES,
        }
    }

    /// The frame at a place.
    pub(crate) fn frame(&self, k: usize) -> &Frame
        requires place { k < self.now.count }
        requires lent { (pool : List (Option (List ℕ))) × AreLent pool self.now.frames self.now.count }
        ensures { result.now ≡ frame_of self.now.frames k }
    {
        match &self.frames[k] {
            Some(f) => f,
            None => unreachable!(),
        }
    }

    /// Gives all frames back.
    pub(crate) fn give_back(self, pool: &mut Pool)
        requires lent { AreLent pool.old self.frames self.count }
        ensures size { length pool.new ≡ length pool.old }
        ensures free { (k : ℕ) → k < self.count → frame_at pool.new (frame_of self.frames k) ≡ None }
        ensures others { (f : ℕ) → IsElsewhere self.frames self.count f → frame_at pool.new f ≡ frame_at pool.old f }
    {
        let Lent {
            mut frames,
            count: _count,
        } = self;
        for k in 0..MAX_FRAMES {
            give_one(&mut frames, k, pool);
        }
        end_places(frames);
    }
}
