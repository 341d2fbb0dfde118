//! The small store that the tests run on: its shape, its blocks, and its pages.

ghost use Rattle.std.specs.Prelude.{◌≡◌, ◌+◌, ◌^◌, ◌≤◌, ◌<◌, ℕ, None, IsTrue, OnOk, IfOk};
ghost use Rattle.sd_base.specs.Shape.{disk_need};
ghost use Rattle.page_image.specs.Image.{IsTextOf, birth_image};
ghost use Rattle.node_trials.specs.Bench.{IsReadyDevice, IsReady};

use crate::bench::Bench;
use device_trials::WatchedDisk;
use disk_model::MemDisk;
use frame_pool::Pool;
use page_image::{apply, write_birth};
use page_owner::Owners;
use sd_base::{
    Block, BlockNo, DevFault, Disk, NodeId, PageNo, PageOp, Shape, Value, cover, write_anchor,
    write_block,
};
use space_map::write_birth_map;
use std::alloc::{AllocError, Global};
use std::process::Abort;
use std::test::Fail;

pub(crate) const NODE: NodeId = NodeId(1);

/// The log has its anchor in block 1 and its ring in blocks 2 to 9, and page x stands in block 10 + x.
pub(crate) const SHAPE: Shape = Shape {
    nodes: 1,
    ring: 8,
    maps: 1,
    keep: 1,
    birth: 5,
};

/// The map page and its data pages.
pub(crate) const PAGES: u32 = 253;

pub(crate) const MAP: PageNo = PageNo(0);

/// Writes a block and covers it.
pub(crate) fn put_block<D: Disk>(disk: &mut D, at: BlockNo, content: &Block) -> Result<(), DevFault>
    requires at { at.0 < disk_need SHAPE }
    requires quiet { IsReadyDevice SHAPE NODE.0 D.told (D.state disk.old) }
    ensures quiet { OnOk result (IsReadyDevice SHAPE NODE.0 D.told (D.state disk.new)) }
{
    write_block(disk, NODE, at, content)?;
    cover(disk, NODE)
}

/// Writes an empty log, the map page, and the first data pages, each as it is born.
pub(crate) fn format<D: Disk>(disk: &mut D, pages: u32) -> Result<(), DevFault>
    requires pages { pages ≤ 252 }
    requires size { disk_need SHAPE ≤ (D.state disk.old).size }
    requires quiet { IsTrue D.told → (k : ℕ) → ((D.state disk.old).block k).writer ≡ None }
    ensures quiet { OnOk result (IsReadyDevice SHAPE NODE.0 D.told (D.state disk.new)) }
{
    disk.start(NODE);
    let mut block = [0; 4096];
    write_anchor(NODE, false, 0, &mut block);
    put_block(disk, SHAPE.anchor_block(false, NODE), &block)?;
    write_birth_map(MAP, SHAPE.birth, &mut block);
    put_block(disk, SHAPE.page_block(MAP), &block)?;
    for x in 1..pages + 1 {
        write_birth(PageNo(x), SHAPE.birth, &mut block);
        put_block(disk, SHAPE.page_block(PageNo(x)), &block)?;
    }
    Ok(())
}

/// A device in memory that has as many blocks as the store needs.
pub(crate) fn new_disk(alloc: Global) -> Result<WatchedDisk<MemDisk>, AllocError>
    ensures size { IfOk result (λ d. (⟦<WatchedDisk<MemDisk> as Disk>⟧.state d).size ≡ disk_need SHAPE) }
    ensures quiet { IfOk result (λ d. (k : ℕ) → ((⟦<WatchedDisk<MemDisk> as Disk>⟧.state d).block k).writer ≡ None) }
{
    let disk = MemDisk::new(alloc, SHAPE.disk_need() as u32)?;
    Ok(WatchedDisk::new(disk))
}

/// A node with an empty cache of 16 frames over a device that was formatted.
pub(crate) fn open_on<D: Disk + Drop>(alloc: Global, disk: D) -> Result<Bench<D>, Fail>
    requires { IsReadyDevice SHAPE NODE.0 D.told (D.state disk) }
    ensures { IfOk result (λ b. IsReady SHAPE D.told (D.state b.disk) b.pool b.owners b.cache) }
{
    let pool = Pool::new(alloc, 16)?;
    let owners = Owners::new(alloc, PAGES)?;
    Ok(Bench::open(disk, pool, owners)?)
}

/// A node with an empty cache over a device with so many data pages.
pub(crate) fn new_bench(alloc: Global, pages: u32) -> Result<Bench<WatchedDisk<MemDisk>>, Fail>
    requires { pages ≤ 252 }
    ensures { IfOk result (λ b. IsReady SHAPE ⟦<WatchedDisk<MemDisk> as Disk>⟧.told (⟦<WatchedDisk<MemDisk> as Disk>⟧.state b.disk) b.pool b.owners b.cache) }
{
    let mut disk = new_disk(alloc)?;
    format(&mut disk, pages)?;
    open_on(alloc, disk)
}

/// What a test writes to a page: the page's number, and a byte of its own.
pub(crate) fn value(rt: &impl Abort, x: PageNo, byte: u8) -> Value {
    let [a, b, c, d] = x.0.to_be_bytes();
    Value::from_slice(&[a, b, c, d, byte]).expect(rt, "a short value")
}

/// The data page that was born with this identifier.
pub(crate) fn born(x: PageNo, ident: u64) -> Block
    requires { ident ≤ 2 ^ 63 }
    ensures { IsTextOf (birth_image x ident) result }
{
    let mut block = [0; 4096];
    write_birth(x, ident, &mut block);
    block
}

/// The same page with a value in slot 0, and so with the next identifier.
pub(crate) fn changed(rt: &impl Abort, x: PageNo, ident: u64, byte: u8) -> Block
    requires { ident ≤ 2 ^ 63 }
{
    let mut block = born(x, ident);
    let after = Some(value(rt, x, byte));
    apply(&mut block, &PageOp::Put { slot: 0, after });
    block
}
