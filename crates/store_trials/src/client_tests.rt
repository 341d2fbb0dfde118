//! What stops and failures at each call leave of two blocks that are written in order.

ghost use Rattle.std.specs.Prelude.{◌≡◌, ◌≤◌, ◌<◌, ℕ, IsTrue, None};

use crate::{CutDisk, write_in_order};
use disk_model::{Fused, MemDisk};
use sd_base::{Arm, Block, BlockNo, Disk, NodeId, WriteAnswer};
use std::test::Fail;

const NODE: NodeId = NodeId(2);

const FIRST: BlockNo = BlockNo(3);

const SECOND: BlockNo = BlockNo(1);

// What stands in a block: its last byte.
fn seen<D: Disk>(disk: &mut D, at: BlockNo) -> u8
    requires { at.0 < (D.state disk.old).size }
    ensures { (D.state disk.new).size ≡ (D.state disk.old).size }
{
    disk.start(NODE);
    let mut content: Block = [255; 4096];
    let _ = disk.read(NODE, at, &mut content);
    content[4095]
}

// Runs the client, and reads what a stop that gives back each uncovered block leaves of both blocks.
fn run_client<D: Disk>(disk: &mut D) -> (WriteAnswer, [u8; 2])
    requires size { 4 ≤ (D.state disk.old).size }
    requires free { IsTrue D.told → (k : ℕ) → ((D.state disk.old).block k).writer ≡ None }
{
    disk.start(NODE);
    let answer = write_in_order(disk, NODE, FIRST, &[7; 4096], SECOND, &[9; 4096]);
    disk.stop(NODE, 0);
    let first = seen(disk, FIRST);
    let second = seen(disk, SECOND);
    (answer, [first, second])
}

// The client makes four calls: it writes a block and covers it, and then the other one.

#[test]
fn a_cut_at_each_write(rt: HostRuntime) -> Result<(), Fail> {
    // The write that is cut, whether what was written last stays, and what both blocks hold then.
    for (write, picks, held) in [
        (1, 0, [0, 0]),
        (1, u64::MAX, [7, 0]),
        (2, 0, [7, 0]),
        (2, u64::MAX, [7, 9]),
    ] {
        let mut disk = Fused::new(MemDisk::new(rt.alloc(), 4)?);
        disk.arm(NODE, write, picks);
        let ran = run_client(&mut disk);
        assert_eq!(rt;
            ran,
            (WriteAnswer::Stopped, held),
            "write {write} picks {picks}"
        );
    }
    Ok(())
}

#[test]
fn a_stop_at_each_barrier(rt: HostRuntime) -> Result<(), Fail> {
    for (call, picks, held) in [
        (2, 0, [0, 0]),
        (2, u64::MAX, [7, 0]),
        (4, 0, [7, 0]),
        (4, u64::MAX, [7, 9]),
    ] {
        let mut disk = CutDisk::new(MemDisk::new(rt.alloc(), 4)?, call, picks);
        let ran = run_client(&mut disk);
        assert_eq!(rt;
            ran,
            (WriteAnswer::Stopped, held),
            "call {call} picks {picks}"
        );
    }
    Ok(())
}

#[test]
fn a_failure_at_each_call(rt: HostRuntime) -> Result<(), Fail> {
    // What wasn't covered is gone.
    for (call, answer, held) in [
        (1, WriteAnswer::Failed, [0, 0]),
        (2, WriteAnswer::Failed, [0, 0]),
        (3, WriteAnswer::Failed, [7, 0]),
        (4, WriteAnswer::Failed, [7, 0]),
        (0, WriteAnswer::Done, [7, 9]),
    ] {
        let mut disk = Fused::new(MemDisk::new(rt.alloc(), 4)?);
        disk.fail(NODE, call);
        let ran = run_client(&mut disk);
        assert_eq!(rt; ran, (answer, held), "call {call}");
    }
    Ok(())
}
