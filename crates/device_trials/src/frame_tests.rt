//! Frames that are taken out of a pool and given back.
ghost use Rattle.std.specs.Prelude.{◌≡◌, ◌+◌, ◌<◌, ℕ, Some, None, replicate, slice_set};
ghost use Rattle.frame_pool.specs.Frames.{IsOut, free_count};

use frame_pool::{Frame, Pool};
use std::test::Fail;

/// Takes a frame out of a pool that has one.
fn taken(pool: &mut Pool) -> Frame
    requires { 0 < free_count pool.old }
    ensures out { IsOut pool.new result }
    ensures others { pool.old ≡ slice_set pool.new result None }
    ensures counted { free_count pool.new + 1 ≡ free_count pool.old }
{
    pool.take().unwrap()
}

/// Writes one byte all over a frame.
fn fill(pool: &mut Pool, f: &Frame, byte: u8)
    requires { IsOut pool.old f.now }
    ensures written { pool.new ≡ slice_set pool.old f.now (Some (replicate 4096 byte)) }
    ensures stay { (k : ℕ) → IsOut pool.old k → IsOut pool.new k }
{
    *pool.bytes_mut(f) = [byte; 4096];
}

#[test]
fn frames_are_taken_and_given_back(rt: HostRuntime) -> Result<(), Fail> {
    let mut pool = Pool::new(rt.alloc(), 2)?;
    let first = taken(&mut pool);
    let second = taken(&mut pool);
    assert_eq!(rt; pool.free(), 0);
    fill(&mut pool, &first, 1);
    fill(&mut pool, &second, 2);
    assert!(rt; *pool.bytes(&first) == [1; 4096]);
    assert!(rt; *pool.bytes(&second) == [2; 4096]);
    pool.give(first);
    pool.give(second);
    assert_eq!(rt; pool.free(), 2);
    Ok(())
}
