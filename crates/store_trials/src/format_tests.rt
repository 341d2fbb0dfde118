//! Formats of devices in memory that were used: the text of each block, and what a stop at each call leaves.
ghost use Rattle.std.specs.Prelude.{IsTrue};
ghost use Rattle.sd_base.specs.Shape.{IsShape};
ghost use Rattle.store_format.specs.Device.{IsAllCovered};

use crate::CutDisk;
use disk_model::{Fused, MemDisk};
use script_text::Reply;
use sd_base::{Arm, Block, BlockNo, Disk, NodeId, ReadAnswer, Shape};
use std::alloc::{AllocError, Global};
use std::process::Abort;
use std::test::Fail;
use store_format::{may_format, write_store};

const NODE: NodeId = NodeId(1);

const SHAPE: Shape = Shape {
    nodes: 1,
    ring: 8,
    maps: 1,
    keep: 8,
    birth: 0,
};

// What a block held before the format.
const USED: Block = [0xEE; 4096];

// A stop that leaves what was written last, and one that leaves what stood there before.
const LAST: u64 = u64::MAX;

const BEFORE: u64 = 0;

// Fills all blocks of a device, each covered.
fn use_up<D: Disk>(disk: &mut D)
    requires { IsTrue D.told → IsAllCovered (D.state disk.old).block }
{
    for at in 0..disk.blocks() {
        disk.start(NODE);
        let _ = disk.write(NODE, BlockNo(at), &USED);
    }
    disk.start(NODE);
    let _ = disk.barrier(NODE);
}

// A device in memory that was used.
fn used(alloc: Global, blocks: u32) -> Result<MemDisk, AllocError> {
    let mut disk = MemDisk::new(alloc, blocks)?;
    use_up(&mut disk);
    Ok(disk)
}

fn format<D: Disk, V: Disk>(disk: &mut D, vault: &mut V, shape: &Shape) -> Result<(), Reply>
    requires { IsShape shape.now }
{
    may_format(disk, vault, shape)?;
    write_store(disk, vault, shape)
}

// What a block holds. Of one that can't be read, this is no text that a test looks for.
fn held<D: Disk>(disk: &mut D, at: u32) -> Block {
    let unread = [0x55; 4096];
    if at >= disk.blocks() {
        return unread;
    }
    disk.start(NODE);
    let mut content = unread;
    match disk.read(NODE, BlockNo(at), &mut content) {
        ReadAnswer::Done => content,
        _ => unread,
    }
}

// Whether a block is as it was before the format. Each one that a format writes begins with another byte.
fn is_used<D: Disk>(disk: &mut D, at: u32) -> bool {
    held(disk, at)[0] == USED[0]
}

// Compares which of the 264 blocks of a disk are written: those from 1 on up to a last one, and perhaps the super.
fn expect_written<D: Disk>(rt: &impl Abort, disk: &mut D, last: u32, has_super: bool) {
    for at in 0..264 {
        let is_written = match at {
            0 => has_super,
            _ => at <= last,
        };
        assert_eq!(rt; is_used(disk, at), !is_written, "block {at}, last {last}");
    }
}

#[test]
fn a_disk_is_written_block_after_block(rt: HostRuntime) -> Result<(), Fail> {
    // Write k is that of block k, up to 262. Write 263 is that of the super.
    for write in 1..=263u32 {
        let mut disk = Fused::new(used(rt.alloc(), 264)?);
        let mut vault = MemDisk::new(rt.alloc(), 263)?;
        disk.arm(NODE, write, LAST);
        let answer = format(&mut disk, &mut vault, &SHAPE);
        assert_eq!(rt; answer, Err(Reply::Stopped(NODE)));
        expect_written(&rt, &mut disk, write.min(262), write == 263);
    }
    // Call 1 reads block 0, call 264 covers all blocks but the super, and call 266 covers that.
    for (call, has_super) in [(264, false), (266, true)] {
        let mut disk = CutDisk::new(used(rt.alloc(), 264)?, call, LAST);
        let mut vault = MemDisk::new(rt.alloc(), 263)?;
        let answer = format(&mut disk, &mut vault, &SHAPE);
        assert_eq!(rt; answer, Err(Reply::Stopped(NODE)));
        expect_written(&rt, &mut disk, 262, has_super);
    }
    Ok(())
}

#[test]
fn a_super_comes_when_all_else_is_covered(rt: HostRuntime) -> Result<(), Fail> {
    // The write that is cut or the call that fails, and the last block that is written then. What isn't covered
    // holds what it held before.
    for (write, call, answer, last) in [
        (262, 0, Reply::Stopped(NODE), 0),
        (0, 264, Reply::Fault(NODE), 0),
        (263, 0, Reply::Stopped(NODE), 262),
        (0, 266, Reply::Fault(NODE), 262),
    ] {
        let mut disk = Fused::new(used(rt.alloc(), 264)?);
        let mut vault = MemDisk::new(rt.alloc(), 263)?;
        disk.arm(NODE, write, BEFORE);
        disk.fail(NODE, call);
        assert_eq!(rt; format(&mut disk, &mut vault, &SHAPE), Err(answer));
        expect_written(&rt, &mut disk, last, false);
    }
    Ok(())
}

// Compares which of the 264 blocks of a vault are written: so many of the super, the anchor and the images.
fn expect_vault_written<D: Disk>(rt: &impl Abort, vault: &mut D, writes: u32) {
    for at in 0..264u32 {
        let is_written = match at {
            0 | 1 => at < writes,
            10..=262 => at - 8 < writes,
            _ => false,
        };
        assert_eq!(rt;
            is_used(vault, at),
            !is_written,
            "vault {at}, writes {writes}"
        );
    }
}

#[test]
fn a_vault_is_written_first_and_but_for_its_kept_blocks(rt: HostRuntime) -> Result<(), Fail> {
    for write in 1..=255 {
        let mut disk = used(rt.alloc(), 263)?;
        let mut vault = Fused::new(used(rt.alloc(), 264)?);
        vault.arm(NODE, write, LAST);
        let answer = format(&mut disk, &mut vault, &SHAPE);
        assert_eq!(rt; answer, Err(Reply::Stopped(NODE)));
        expect_vault_written(&rt, &mut vault, write);
        assert!(rt; is_used(&mut disk, 0) && is_used(&mut disk, 1));
    }
    // Call 256 covers them.
    let mut disk = used(rt.alloc(), 263)?;
    let mut vault = CutDisk::new(used(rt.alloc(), 264)?, 256, LAST);
    let answer = format(&mut disk, &mut vault, &SHAPE);
    assert_eq!(rt; answer, Err(Reply::Stopped(NODE)));
    expect_vault_written(&rt, &mut vault, 255);
    assert!(rt; is_used(&mut disk, 0) && is_used(&mut disk, 1));
    Ok(())
}

const TWO_NODES: Shape = Shape {
    nodes: 2,
    ring: 4,
    maps: 1,
    keep: 1,
    birth: 7,
};

// What a block holds that begins so, with this byte at each of these places and zeros elsewhere.
fn text(magic: &[u8; 8], bytes: &[(usize, u8)]) -> Block {
    let mut block = [0; 4096];
    block[..8].copy_from_slice(magic);
    for (at, byte) in bytes {
        if *at < 4096 {
            block[*at] = *byte;
        }
    }
    block
}

// The text of a map page that was born with identifier 7.
fn map_text() -> Block {
    let mut block = text(b"SDPAGE01", &[(8, 1), (23, 7)]);
    for place in 0..252 {
        block[64 + 16 * place + 15] = 7;
    }
    block
}

#[test]
fn the_text_of_each_block(rt: HostRuntime) -> Result<(), Fail> {
    let mut disk = used(rt.alloc(), 270)?;
    let mut vault = used(rt.alloc(), 270)?;
    assert_eq!(rt; format(&mut disk, &mut vault, &TWO_NODES), Ok(()));
    let numbers = [(11, 1), (15, 2), (19, 4), (23, 1), (27, 1), (39, 7)];
    for at in 0..270u32 {
        let want = match at {
            0 => text(b"SDSTORE1", &numbers),
            1 => text(b"SDANCHOR", &[(8, 1)]),
            6 => text(b"SDANCHOR", &[(8, 2)]),
            2..=10 => [0; 4096],
            11 => map_text(),
            12..=263 => text(b"SDPAGE01", &[(8, 2), (15, (at - 11) as u8), (23, 7)]),
            _ => USED,
        };
        assert!(rt; held(&mut disk, at) == want, "disk {at}");
        let want = match at {
            0 => text(b"SDVAULT1", &numbers),
            1 => text(b"SDVANCHR", &[(8, 1)]),
            2 => text(b"SDVANCHR", &[(8, 2)]),
            5..=257 => [0; 4096],
            _ => USED,
        };
        assert!(rt; held(&mut vault, at) == want, "vault {at}");
    }
    Ok(())
}
