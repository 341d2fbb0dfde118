//! A large device in memory, and what a stop leaves of one.
ghost use Rattle.std.specs.Prelude.{◌≡◌, ◌<◌, ◌≤◌, ℕ, IsTrue, None};
ghost use Rattle.sd_base.specs.Disk.{IsFreeFor, IsPort};
ghost use Rattle.sd_base.specs.Calls.{NoNewWriterBut};

use disk_model::MemDisk;
use sd_base::{Block, BlockNo, Disk, NodeId, ReadAnswer};
use std::test::Fail;

const WRITER: NodeId = NodeId(1);

const READER: NodeId = NodeId(2);

/// Writes a block full of this byte.
fn put<D: Disk>(disk: &mut D, at: BlockNo, byte: u8)
    requires at { at.0 < (D.state disk.old).size }
    requires free { IsTrue D.told → IsFreeFor WRITER.0 ((D.state disk.old).block at.0) }
    ensures size { (D.state disk.new).size ≡ (D.state disk.old).size }
    ensures writers { IsTrue D.told → NoNewWriterBut at.0 WRITER.0 (D.state disk.old).block (D.state disk.new).block }
{
    disk.start(WRITER);
    let content: Block = [byte; 4096];
    let _ = disk.write(WRITER, at, &content);
}

/// What is read of a block: the answer and the last byte.
fn seen<D: Disk>(disk: &mut D, at: BlockNo) -> (ReadAnswer, u8)
    requires at { at.0 < (D.state disk.old).size }
    ensures size { (D.state disk.new).size ≡ (D.state disk.old).size }
{
    disk.start(READER);
    let mut content: Block = [255; 4096];
    let answer = disk.read(READER, at, &mut content);
    (answer, content[4095])
}

/// What a stop leaves of two blocks, of which that with the higher number was written first.
fn after_stop<D: Disk>(disk: &mut D, picks: u64) -> [(ReadAnswer, u8); 2]
    requires size { 2 ≤ (D.state disk.old).size }
    requires free { IsTrue D.told → (k : ℕ) → ((D.state disk.old).block k).writer ≡ None }
{
    put(disk, BlockNo(1), 7);
    put(disk, BlockNo(0), 9);
    disk.stop(WRITER, picks);
    [seen(disk, BlockNo(0)), seen(disk, BlockNo(1))]
}

#[test]
fn a_stop_follows_the_picks(rt: HostRuntime) -> Result<(), Fail> {
    for (picks, left) in [(0, [0, 0]), (1, [0, 7]), (2, [9, 0]), (3, [9, 7])] {
        let mut disk = MemDisk::new(rt.alloc(), 2)?;
        let seen = after_stop(&mut disk, picks);
        assert_eq!(rt;
            seen,
            left.map(|byte| (ReadAnswer::Done, byte)),
            "picks {picks}"
        );
    }
    Ok(())
}

#[test]
fn a_large_device_is_made(rt: HostRuntime) -> Result<(), Fail> {
    let mut disk = MemDisk::new(rt.alloc(), 8192)?;
    assert_eq!(rt; disk.blocks(), 8192);
    assert!(rt; !disk.is_live(WRITER));
    assert_eq!(rt; seen(&mut disk, BlockNo(8191)), (ReadAnswer::Done, 0));
    Ok(())
}
