//! Tables of what transactions do, step by step, with what the seats say after each step.

ghost use Rattle.std.specs.Prelude.{◌≤◌};
ghost use Rattle.node_trials.specs.SeatBench.{IsSeated};

use crate::records::{PAGE, text};
use crate::seat_bench::SeatBench;
use crate::store::SHAPE;
use sd_base::Disk;
use std::process::Abort;
use txn_core::{Change, Seats};

/// What a transaction does to slots of the page.
#[derive(Clone, Copy, Debug)]
pub(crate) enum Act {
    Begin,
    Put(u8, &'static [u8]),
    Append(u8, &'static [u8]),
    Delete(u8),
    /// Takes back the newest update that is left, which has this number.
    TakeBack(u64),
    /// Ends the transaction, of which nothing is left.
    EndAbort,
    Commit,
}

/// An act of the transaction in a seat, and what the seats say behind it: how many records are owed, the
/// least number of a record that began an open transaction, and which seats are busy.
#[derive(Clone, Copy, Debug)]
pub(crate) struct Step {
    pub(crate) seat: u8,
    pub(crate) act: Act,
    pub(crate) owed: u64,
    pub(crate) first: Option<u64>,
    pub(crate) busy: &'static [u8],
}

/// A row of a table of steps.
pub(crate) fn row(seat: u8, act: Act, owed: u64, first: Option<u64>, busy: &'static [u8]) -> Step {
    Step {
        seat,
        act,
        owed,
        first,
        busy,
    }
}

/// Changes a slot of the page by the transaction in a seat.
fn change<D: Disk>(rt: &impl Abort, bench: &mut SeatBench<D>, seat: u8, place: u8, what: &Change)
    requires seat { seat ≤ 7 }
    requires seated { IsSeated SHAPE D.told (D.state bench.old.bench.disk) bench.old.bench.pool bench.old.bench.owners bench.old.bench.cache bench.old.seats bench.old.left }
    ensures seated { IsSeated SHAPE D.told (D.state bench.new.bench.disk) bench.new.bench.pool bench.new.bench.owners bench.new.bench.cache bench.new.seats bench.new.left }
{
    assert!(rt; place <= 15);
    bench.change(rt, seat, PAGE, place, what);
}

/// Does what a step says.
fn perform<D: Disk>(rt: &impl Abort, bench: &mut SeatBench<D>, seat: u8, act: Act)
    requires seat { seat ≤ 7 }
    requires seated { IsSeated SHAPE D.told (D.state bench.old.bench.disk) bench.old.bench.pool bench.old.bench.owners bench.old.bench.cache bench.old.seats bench.old.left }
    ensures seated { IsSeated SHAPE D.told (D.state bench.new.bench.disk) bench.new.bench.pool bench.new.bench.owners bench.new.bench.cache bench.new.seats bench.new.left }
{
    match act {
        Act::Begin => bench.begin(rt, seat),
        Act::Put(place, bytes) => {
            change(rt, bench, seat, place, &Change::Put(text(rt, bytes)));
        }
        Act::Append(place, bytes) => {
            change(rt, bench, seat, place, &Change::Append(text(rt, bytes)));
        }
        Act::Delete(place) => change(rt, bench, seat, place, &Change::Delete),
        Act::TakeBack(number) => {
            let next = bench.next(rt, seat);
            assert_eq!(rt; next, Some((number, PAGE)));
            let then = bench.next_but_one(rt, seat);
            assert_eq!(rt; bench.take_back(rt, seat), Some(number));
            assert_eq!(rt; bench.next(rt, seat), then);
        }
        Act::EndAbort => bench.end_abort(rt, seat),
        Act::Commit => bench.commit(rt, seat).expect(rt, "a commit"),
    }
}

/// Compares what the seats say behind a step.
fn check_seats(rt: &impl Abort, seats: &Seats, step: &Step) {
    assert_eq!(rt; seats.owed(), step.owed, "{step:?}");
    assert_eq!(rt; seats.first_open(), step.first, "{step:?}");
    for seat in 0..8 {
        let is_busy = step.busy.contains(&seat);
        assert_eq!(rt; seats.is_busy(seat), is_busy, "{seat} at {step:?}");
    }
}

/// Does steps, one after the other, and compares what the seats say behind each.
pub(crate) fn run<D: Disk>(rt: &impl Abort, bench: &mut SeatBench<D>, steps: &[Step])
    requires seated { IsSeated SHAPE D.told (D.state bench.old.bench.disk) bench.old.bench.pool bench.old.bench.owners bench.old.bench.cache bench.old.seats bench.old.left }
    ensures seated { IsSeated SHAPE D.told (D.state bench.new.bench.disk) bench.new.bench.pool bench.new.bench.owners bench.new.bench.cache bench.new.seats bench.new.left }
{
    for step in steps {
        assert!(rt; step.seat <= 7);
        perform(rt, bench, step.seat, step.act);
        check_seats(rt, &bench.seats, step);
    }
}
