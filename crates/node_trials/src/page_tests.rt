//! Pages whose block is lost, damaged, or left over from an earlier life of the page.

ghost use Rattle.std.specs.Prelude.{◌<◌, OnOk};
ghost use Rattle.node_trials.specs.Bench.{IsReadyDevice, IsReady};

use crate::bench::Bench;
use crate::store::{
    MAP, NODE, PAGES, SHAPE, born, changed, format, new_disk, open_on, put_block, value,
};
use page_owner::Own;
use sd_base::{BlockNo, DevFault, Disk, PageNo};
use std::process::Abort;
use std::test::Fail;

/// Loses the block of page 2, and writes page 2 into that of page 3. The block of page 4 was never
/// written.
fn spoil<D: Disk>(disk: &mut D) -> Result<(), DevFault>
    requires quiet { IsReadyDevice SHAPE NODE.0 D.told (D.state disk.old) }
    ensures quiet { OnOk result (IsReadyDevice SHAPE NODE.0 D.told (D.state disk.new)) }
{
    disk.lose(SHAPE.page_block(PageNo(2)));
    let other = born(PageNo(2), SHAPE.birth);
    put_block(disk, SHAPE.page_block(PageNo(3)), &other)
}

/// Fetches a page that can't be read, beside two that are cached, and answers why.
fn refused<D: Disk>(rt: &impl Abort, bench: &mut Bench<D>, x: PageNo) -> DevFault
    requires page { x.0 < PAGES }
    requires ready { IsReady SHAPE D.told (D.state bench.old.disk) bench.old.pool bench.old.owners bench.old.cache }
    ensures ready { IsReady SHAPE D.told (D.state bench.new.disk) bench.new.pool bench.new.owners bench.new.cache }
{
    let fault = match bench.fetch(rt, x) {
        Err(DevFault::Lost(at)) => DevFault::Lost(at),
        Err(DevFault::Damaged(at)) => DevFault::Damaged(at),
        other => panic!(rt; "{other:?}"),
    };
    assert!(rt; !bench.cache.has(x));
    assert_eq!(rt; bench.owners.state(x), Own::Parked(NODE));
    assert_eq!(rt; bench.pool.free(), 14);
    fault
}

/// Page 1 and the map page stay where others can't be read.
fn try_spoiled<D: Disk>(rt: &impl Abort, bench: &mut Bench<D>)
    requires ready { IsReady SHAPE D.told (D.state bench.old.disk) bench.old.pool bench.old.owners bench.old.cache }
    ensures ready { IsReady SHAPE D.told (D.state bench.new.disk) bench.new.pool bench.new.owners bench.new.cache }
{
    bench.fetch_all(rt, &[MAP, PageNo(1)]);
    let lost = DevFault::Lost(BlockNo(12));
    assert_eq!(rt; refused(rt, bench, PageNo(2)), lost);
    assert_eq!(rt;
        refused(rt, bench, PageNo(3)),
        DevFault::Damaged(BlockNo(13))
    );
    assert_eq!(rt;
        refused(rt, bench, PageNo(4)),
        DevFault::Damaged(BlockNo(14))
    );
    // A page that is parked already is fetched like any other.
    assert_eq!(rt; refused(rt, bench, PageNo(2)), lost);
    let page = born(PageNo(1), SHAPE.birth);
    assert!(rt; *bench.view(rt, PageNo(1)) == page);
    assert!(rt; bench.cache.has(MAP));
    assert_eq!(rt; bench.owners.state(PageNo(1)), Own::Out(NODE));
}

#[test]
fn a_lost_or_damaged_page_is_parked(rt: HostRuntime) -> Result<(), Fail> {
    let mut disk = new_disk(rt.alloc())?;
    format(&mut disk, 3)?;
    spoil(&mut disk)?;
    let mut bench = open_on(rt.alloc(), disk)?;
    try_spoiled(&rt, &mut bench);
    let remains = bench.end(0);
    assert_eq!(rt; remains.pool.free(), 16);
    Ok(())
}

/// Writes images of earlier lives of pages 1 and 2, of which the second has the last identifier before
/// the present life, and an image of the present life of page 3.
fn leave_images<D: Disk>(rt: &impl Abort, disk: &mut D) -> Result<(), DevFault>
    requires quiet { IsReadyDevice SHAPE NODE.0 D.told (D.state disk.old) }
    ensures quiet { OnOk result (IsReadyDevice SHAPE NODE.0 D.told (D.state disk.new)) }
{
    let stale = changed(rt, PageNo(1), 0, 1);
    put_block(disk, SHAPE.page_block(PageNo(1)), &stale)?;
    let latest = changed(rt, PageNo(2), SHAPE.birth - 2, 2);
    put_block(disk, SHAPE.page_block(PageNo(2)), &latest)?;
    let present = changed(rt, PageNo(3), SHAPE.birth - 1, 3);
    put_block(disk, SHAPE.page_block(PageNo(3)), &present)
}

/// An image of an earlier life is read as the blank page with which the present life begins.
fn try_stale<D: Disk>(rt: &impl Abort, bench: &mut Bench<D>)
    requires ready { IsReady SHAPE D.told (D.state bench.old.disk) bench.old.pool bench.old.owners bench.old.cache }
    ensures ready { IsReady SHAPE D.told (D.state bench.new.disk) bench.new.pool bench.new.owners bench.new.cache }
{
    bench.fetch_all(rt, &[MAP, PageNo(1), PageNo(2), PageNo(3)]);
    assert!(rt; *bench.view(rt, PageNo(1)) == born(PageNo(1), SHAPE.birth));
    assert!(rt; *bench.view(rt, PageNo(2)) == born(PageNo(2), SHAPE.birth));
    let present = changed(rt, PageNo(3), SHAPE.birth - 1, 3);
    assert!(rt; *bench.view(rt, PageNo(3)) == present);
}

/// A change of such a page is one of the blank page.
fn change_stale<D: Disk>(rt: &impl Abort, bench: &mut Bench<D>)
    requires ready { IsReady SHAPE D.told (D.state bench.old.disk) bench.old.pool bench.old.owners bench.old.cache }
    ensures ready { IsReady SHAPE D.told (D.state bench.new.disk) bench.new.pool bench.new.owners bench.new.cache }
{
    let page = PageNo(1);
    bench
        .change(rt, page, value(rt, page, 9))
        .expect(rt, "a change");
    bench.flush_page(page).expect(rt, "a write");
    let image = changed(rt, page, SHAPE.birth, 9);
    assert!(rt; *bench.view(rt, page) == image);
    assert!(rt; bench.stores(page, &image));
}

#[test]
fn a_stale_image_is_read_as_its_life_says(rt: HostRuntime) -> Result<(), Fail> {
    let mut disk = new_disk(rt.alloc())?;
    format(&mut disk, 3)?;
    leave_images(&rt, &mut disk)?;
    let mut bench = open_on(rt.alloc(), disk)?;
    try_stale(&rt, &mut bench);
    change_stale(&rt, &mut bench);
    bench.end(0);
    Ok(())
}
