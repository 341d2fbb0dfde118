//! The seats of a node, and how many more records their transactions may need.

ghost use Rattle.std.specs.Prelude.{◌≡◌, ◌≤◌, ◌*◌, ◌^◌, None, IfSome, IfNone, All, option_map, replicate};
ghost use Rattle.txn_core.specs.Seats.{IsFirstOpen, is_busy, owed, owed_in};
ghost use Rattle.txn_core.specs.Shown.{shown};

use sd_base::NodeId;
use std::marker::Model;

/// How many transactions a node may have open.
pub(crate) const SEATS: usize = 8;

/// An open transaction.
#[derive(Clone, Copy, Debug)]
pub(crate) struct Open {
    /// The number of the record that began it.
    pub(crate) begin: u64,
    /// The number of its last record.
    pub(crate) last: u64,
    /// How many of its updates are still to be taken back if it is given up.
    pub(crate) left: u64,
}

/// The seats of a node: in each there is an open transaction, or none.
#[derive(Drop)]
pub struct Seats {
    pub(crate) node: NodeId,
    pub(crate) seats: [Option<Open>; SEATS],
}

impl Model for Seats {
    ghost use Rattle.std.specs.Prelude.{◌≤◌, ◌*◌, ◌^◌, All, map, option_map};
    ghost use Rattle.txn_core.specs.Seats.{SeatsState, owed_in};
    ghost use Rattle.txn_core.specs.Shown.{shown};

    ghost Value = { SeatsState };

    ghost view = { λ s. record { node = s.node; seats = map (option_map shown) s.seats } };

    // A transaction has no more updates than a log has records.
    ghost invariant = { λ s. All (λ o. owed_in (option_map shown o) ≤ 6 * 2 ^ 56) s.seats };
}

/// How many records a seat may still need: an end record, and a compensation for each update that is
/// left.
fn owed_in(seat: &Option<Open>) -> u64
    requires { owed_in (option_map shown seat.now) ≤ 6 * 2 ^ 56 }
    ensures { result ≡ owed_in (option_map shown seat.now) }
{
    match seat {
        Some(txn) => 1 + txn.left,
        None => 0,
    }
}

impl Seats {
    /// The seats of a node that has no open transaction.
    pub fn new(n: NodeId) -> Seats
        ensures node { result.node ≡ n }
        ensures seats { result.seats ≡ replicate 8 None }
    {
        Seats {
            node: n,
            seats: [None; SEATS],
        }
    }

    /// Whether there is a transaction in a seat, from 0 to 7.
    pub fn is_busy(&self, seat: u8) -> bool
        requires { seat ≤ 7 }
        ensures { result ≡ is_busy self.now seat }
    {
        self.seats[seat as usize].is_some()
    }

    /// How many records the open transactions may still need: for each an end record, and a
    /// compensation for each of its updates that is left.
    pub fn owed(&self) -> u64
        ensures { result ≡ owed self.now }
    {
        self.seats.iter().map(owed_in).sum()
    }

    /// The least number of a record that began an open transaction. `None` exactly where none is open.
    pub fn first_open(&self) -> Option<u64>
        ensures some { IfSome result (IsFirstOpen self.now) }
        ensures none { IfNone result (All (λ o. o ≡ None) self.now.seats) }
    {
        self.seats
            .iter()
            .filter_map(|seat| seat.map(|txn| txn.begin))
            .min()
    }
}
