//! A bench to try transactions on: it checks what each call of the seats requires.

ghost use Rattle.std.specs.Prelude.{◌≡◌, ◌+◌, ◌≤◌, ◌<◌, ◌^◌, ℕ, IsTrue, OnOk, OnErr, length};
ghost use Rattle.page_image.specs.declared.page_view.PageView.{PageView};
ghost use Rattle.compensation.specs.Inverse.{content};
ghost use Rattle.txn_core.specs.Seats.{owed, is_busy};
ghost use Rattle.txn_core.specs.Updates.{FitsSlotOf, HasPage};
ghost use Rattle.node_trials.specs.Bench.{IsBroken, IsReady, IsWhole};
ghost use Rattle.node_trials.specs.SeatBench.{HasRoom, IsSeated};

use crate::bench::{Bench, Remains};
use crate::store::{PAGES, SHAPE};
use device_trials::WatchedDisk;
use page_image::{identifier, slot};
use sd_base::{DevFault, Disk, PageNo, Value};
use std::process::Abort;
use txn_core::{Change, Ending, Seats};

/// How many records the log has room for, and so how many updates a transaction may have at the most.
const RECORDS: u64 = 48;

/// A node with its cache and its seats, and all that the calls of the seats are given.
pub(crate) struct SeatBench<D> {
    pub(crate) bench: Bench<D>,
    pub(crate) seats: Seats,
    /// Of each seat, how many updates of its transaction are left, as they were counted here: an abort's end
    /// asks that none are, and no call of the seats says how many.
    pub(crate) left: [u64; 8],
}

/// Whether a change fits what its slot holds.
fn fits(held: &Option<Value>, what: &Change) -> bool
    ensures { (v : PageView) (place : ℕ) → IsTrue result → content v place ≡ held.now → FitsSlotOf v place what.now }
{
    match (what, held) {
        (Change::Put(value), _) => value.as_slice().len() <= Value::MAX_LEN,
        (Change::Append(bytes), None) => bytes.as_slice().len() <= Value::MAX_LEN,
        (Change::Append(bytes), Some(value)) => {
            value.as_slice().len() + bytes.as_slice().len() <= Value::MAX_LEN
        }
        (Change::Delete, _) => held.is_some(),
    }
}

impl<D: Disk> SeatBench<D> {
    /// The node of this cache, with no open transaction.
    pub(crate) fn new(bench: Bench<D>) -> SeatBench<D>
        requires ready { IsReady SHAPE D.told (D.state bench.disk) bench.pool bench.owners bench.cache }
        ensures seated { IsSeated SHAPE D.told (D.state result.bench.disk) result.bench.pool result.bench.owners result.bench.cache result.seats result.left }
    {
        let seats = Seats::new(bench.cache.log().node());
        SeatBench {
            bench,
            seats,
            left: [0; 8],
        }
    }

    /// Makes pages cached that can be read, one after the other.
    pub(crate) fn fetch_all(&mut self, rt: &impl Abort, pages: &[PageNo])
        requires seated { IsSeated SHAPE D.told (D.state self.old.bench.disk) self.old.bench.pool self.old.bench.owners self.old.bench.cache self.old.seats self.old.left }
        ensures seated { IsSeated SHAPE D.told (D.state self.new.bench.disk) self.new.bench.pool self.new.bench.owners self.new.bench.cache self.new.seats self.new.left }
    {
        for x in pages {
            self.bench.fetch(rt, *x).expect(rt, "a page");
        }
    }

    /// There is a transaction in the seat.
    fn check_busy(&self, rt: &impl Abort, seat: u8)
        requires seat { seat ≤ 7 }
        ensures { IsTrue (is_busy self.now.seats seat) }
    {
        assert!(rt; self.seats.is_busy(seat), "seat {seat} is free");
    }

    /// The log has room for two records more than are owed.
    fn check_room(&self, rt: &impl Abort)
        ensures { HasRoom self.now.seats self.now.bench.cache }
    {
        let space = self.bench.cache.log().space();
        assert!(rt;
            space >= 2 && self.seats.owed() <= space - 2,
            "the log is full"
        );
    }

    /// The page is a cached data page, and the change fits what its slot holds.
    fn check_change(&self, rt: &impl Abort, x: PageNo, place: u8, what: &Change)
        requires place { place ≤ 15 }
        requires ready { IsReady SHAPE D.told (D.state self.now.bench.disk) self.now.bench.pool self.now.bench.owners self.now.bench.cache }
        ensures { (v : PageView) × HasPage self.now.bench.pool self.now.bench.cache.pages x v × (v.ident < 2 ^ 63) × FitsSlotOf v place what.now }
    {
        assert!(rt; x.0 >= SHAPE.maps, "{x:?} is no data page");
        let page = self.bench.view(rt, x);
        assert!(rt; identifier(page) < 1 << 63);
        let held = slot(page, place);
        assert!(rt; fits(&held, what), "{what:?} of slot {place}");
    }

    /// Begins a transaction in a free seat.
    pub(crate) fn begin(&mut self, rt: &impl Abort, seat: u8)
        requires seat { seat ≤ 7 }
        requires seated { IsSeated SHAPE D.told (D.state self.old.bench.disk) self.old.bench.pool self.old.bench.owners self.old.bench.cache self.old.seats self.old.left }
        ensures seated { IsSeated SHAPE D.told (D.state self.new.bench.disk) self.new.bench.pool self.new.bench.owners self.new.bench.cache self.new.seats self.new.left }
    {
        assert!(rt; !self.seats.is_busy(seat), "seat {seat} is busy");
        self.check_room(rt);
        self.seats
            .begin(&mut self.bench.disk, &mut self.bench.cache, seat)
            .expect(rt, "a begin");
        self.left[seat as usize] = 0;
    }

    /// Changes a slot of a cached data page.
    pub(crate) fn change(&mut self, rt: &impl Abort, seat: u8, x: PageNo, place: u8, what: &Change)
        requires seat { seat ≤ 7 }
        requires place { place ≤ 15 }
        requires seated { IsSeated SHAPE D.told (D.state self.old.bench.disk) self.old.bench.pool self.old.bench.owners self.old.bench.cache self.old.seats self.old.left }
        ensures seated { IsSeated SHAPE D.told (D.state self.new.bench.disk) self.new.bench.pool self.new.bench.owners self.new.bench.cache self.new.seats self.new.left }
    {
        self.check_busy(rt, seat);
        self.check_change(rt, x, place, what);
        self.check_room(rt);
        let Bench {
            disk,
            pool,
            cache,
            ..
        } = &mut self.bench;
        self.seats
            .change(disk, pool, cache, seat, x, place, what)
            .expect(rt, "a change");
        let left = self.left[seat as usize];
        assert!(rt; left < RECORDS);
        self.left[seat as usize] = left + 1;
    }

    /// The number of the update that is to be taken back next, and its page, if anything is left.
    pub(crate) fn next(&mut self, rt: &impl Abort, seat: u8) -> Option<(u64, PageNo)>
        requires seat { seat ≤ 7 }
        requires seated { IsSeated SHAPE D.told (D.state self.old.bench.disk) self.old.bench.pool self.old.bench.owners self.old.bench.cache self.old.seats self.old.left }
        ensures seated { IsSeated SHAPE D.told (D.state self.new.bench.disk) self.new.bench.pool self.new.bench.owners self.new.bench.cache self.new.seats self.new.left }
    {
        self.check_busy(rt, seat);
        self.seats
            .next(&mut self.bench.disk, &self.bench.cache, seat)
            .expect(rt, "what is next")
    }

    /// The number of the update that is to be taken back after that one, and its page, if there is one.
    pub(crate) fn next_but_one(&mut self, rt: &impl Abort, seat: u8) -> Option<(u64, PageNo)>
        requires seat { seat ≤ 7 }
        requires seated { IsSeated SHAPE D.told (D.state self.old.bench.disk) self.old.bench.pool self.old.bench.owners self.old.bench.cache self.old.seats self.old.left }
        ensures seated { IsSeated SHAPE D.told (D.state self.new.bench.disk) self.new.bench.pool self.new.bench.owners self.new.bench.cache self.new.seats self.new.left }
    {
        self.check_busy(rt, seat);
        let Bench { disk, cache, .. } = &mut self.bench;
        let next = self.seats.next(disk, cache, seat);
        let (number, _) = next.expect(rt, "what is next")?;
        self.seats
            .next_before(disk, cache, seat, number)
            .expect(rt, "what is next then")
    }

    /// Takes back the newest update that is left, whose page is cached, and answers its number. `None`
    /// where nothing is left.
    pub(crate) fn take_back(&mut self, rt: &impl Abort, seat: u8) -> Option<u64>
        requires seat { seat ≤ 7 }
        requires seated { IsSeated SHAPE D.told (D.state self.old.bench.disk) self.old.bench.pool self.old.bench.owners self.old.bench.cache self.old.seats self.old.left }
        ensures seated { IsSeated SHAPE D.told (D.state self.new.bench.disk) self.new.bench.pool self.new.bench.owners self.new.bench.cache self.new.seats self.new.left }
    {
        self.check_busy(rt, seat);
        let Bench {
            disk,
            pool,
            cache,
            ..
        } = &mut self.bench;
        let found = self
            .seats
            .next(disk, cache, seat)
            .expect(rt, "what is next");
        let Some((number, _page)) = found else {
            return None;
        };
        let free = self.bench.pool.free();
        let Bench {
            disk,
            pool,
            cache,
            ..
        } = &mut self.bench;
        self.seats
            .take_back_one(disk, pool, cache, seat)
            .expect(rt, "a compensation");
        // No clause says that the frame which was written was out.
        assert!(rt; self.bench.pool.free() == free);
        self.left[seat as usize] -= 1;
        Some(number)
    }

    /// Commits a transaction.
    pub(crate) fn commit(&mut self, rt: &impl Abort, seat: u8) -> Result<(), DevFault>
        requires seat { seat ≤ 7 }
        requires seated { IsSeated SHAPE D.told (D.state self.old.bench.disk) self.old.bench.pool self.old.bench.owners self.old.bench.cache self.old.seats self.old.left }
        ensures seated { OnOk result (IsSeated SHAPE D.told (D.state self.new.bench.disk) self.new.bench.pool self.new.bench.owners self.new.bench.cache self.new.seats self.new.left) }
        ensures broken { OnErr result (IsBroken SHAPE (D.state self.new.bench.disk) self.new.bench.pool self.new.bench.owners self.new.bench.cache) }
    {
        self.check_busy(rt, seat);
        self.seats.end(
            &mut self.bench.disk,
            &mut self.bench.cache,
            seat,
            Ending::Commit,
        )
    }

    /// Ends a transaction of which nothing is left.
    pub(crate) fn end_abort(&mut self, rt: &impl Abort, seat: u8)
        requires seat { seat ≤ 7 }
        requires seated { IsSeated SHAPE D.told (D.state self.old.bench.disk) self.old.bench.pool self.old.bench.owners self.old.bench.cache self.old.seats self.old.left }
        ensures seated { IsSeated SHAPE D.told (D.state self.new.bench.disk) self.new.bench.pool self.new.bench.owners self.new.bench.cache self.new.seats self.new.left }
    {
        let next = self.next(rt, seat);
        assert_eq!(rt; next, None);
        let left = self.left[seat as usize];
        assert_eq!(rt; left, 0);
        self.check_busy(rt, seat);
        self.seats
            .end(
                &mut self.bench.disk,
                &mut self.bench.cache,
                seat,
                Ending::Abort,
            )
            .expect(rt, "an end");
    }

    /// Takes back all that is left of a transaction, whose pages are cached, and ends it.
    pub(crate) fn take_back_all(&mut self, rt: &impl Abort, seat: u8)
        requires seat { seat ≤ 7 }
        requires seated { IsSeated SHAPE D.told (D.state self.old.bench.disk) self.old.bench.pool self.old.bench.owners self.old.bench.cache self.old.seats self.old.left }
        ensures seated { IsSeated SHAPE D.told (D.state self.new.bench.disk) self.new.bench.pool self.new.bench.owners self.new.bench.cache self.new.seats self.new.left }
    {
        for _ in 0..self.left[seat as usize] {
            let taken = self.take_back(rt, seat);
            assert!(rt; taken.is_some());
        }
        self.end_abort(rt, seat);
    }

    /// Stops the node's port, and ends the cache.
    pub(crate) fn end(self, picks: u64) -> Remains<D>
        requires seated { IsSeated SHAPE D.told (D.state self.bench.disk) self.bench.pool self.bench.owners self.bench.cache self.seats self.left }
        ensures table { PAGES ≤ length result.owners }
        ensures whole { IsWhole SHAPE (D.state result.disk) }
    {
        let SeatBench {
            bench,
            seats: _,
            left: _,
        } = self;
        bench.end(picks)
    }

    /// Ends the cache, whose port has stopped.
    pub(crate) fn wreck(self) -> Remains<D>
        requires broken { IsBroken SHAPE (D.state self.bench.disk) self.bench.pool self.bench.owners self.bench.cache }
        ensures table { PAGES ≤ length result.owners }
        ensures whole { IsWhole SHAPE (D.state result.disk) }
    {
        let SeatBench {
            bench,
            seats: _,
            left: _,
        } = self;
        bench.wreck()
    }
}

impl<D: Disk> SeatBench<WatchedDisk<D>> {
    /// Notes what the device is told from here on, and stops the port at a call from here on.
    pub(crate) fn watch(&mut self, stop_at: u64, picks: u64)
        requires seated { IsSeated SHAPE D.told (⟦<WatchedDisk<D> as Disk>⟧.state self.old.bench.disk) self.old.bench.pool self.old.bench.owners self.old.bench.cache self.old.seats self.old.left }
        ensures seated { IsSeated SHAPE D.told (⟦<WatchedDisk<D> as Disk>⟧.state self.new.bench.disk) self.new.bench.pool self.new.bench.owners self.new.bench.cache self.new.seats self.new.left }
    {
        self.bench.disk.watch(stop_at, picks);
    }
}
