//! A transaction that has filled the log can still be taken back.

ghost use Rattle.node_trials.specs.SeatBench.{IsSeated};

use crate::reading::check_page;
use crate::records::{PAGE, text};
use crate::seat_bench::SeatBench;
use crate::store::{MAP, SHAPE, new_bench};
use sd_base::Disk;
use std::process::Abort;
use std::test::Fail;
use txn_core::Change;

const SEAT: u8 = 0;

/// Begins a transaction, and changes the page until the log has room for no further update: of its 48
/// records half are there then, and the others are owed.
fn fill<D: Disk>(rt: &impl Abort, bench: &mut SeatBench<D>)
    requires seated { IsSeated SHAPE D.told (D.state bench.old.bench.disk) bench.old.bench.pool bench.old.bench.owners bench.old.bench.cache bench.old.seats bench.old.left }
    ensures seated { IsSeated SHAPE D.told (D.state bench.new.bench.disk) bench.new.bench.pool bench.new.bench.owners bench.new.bench.cache bench.new.seats bench.new.left }
{
    bench.fetch_all(rt, &[MAP, PAGE]);
    bench.begin(rt, SEAT);
    for _ in 0..23 {
        bench.change(rt, SEAT, PAGE, 0, &Change::Append(text(rt, b"x")));
    }
    assert_eq!(rt; bench.seats.owed(), 24);
    assert_eq!(rt; bench.bench.cache.log().space(), 24);
}

#[test]
fn what_is_owed_fits_the_log(rt: HostRuntime) -> Result<(), Fail> {
    let mut bench = SeatBench::new(new_bench(rt.alloc(), 1)?);
    fill(&rt, &mut bench);
    check_page(&rt, &bench.bench, 28, &[(0, &[b'x'; 23])]);
    bench.take_back_all(&rt, SEAT);
    check_page(&rt, &bench.bench, 51, &[]);
    assert_eq!(rt; bench.seats.owed(), 0);
    assert_eq!(rt; bench.bench.cache.log().space(), 0);
    bench.end(0);
    Ok(())
}
