//! A store that is open, as its user holds it.

use std::marker::Model;
use store_nodes::Store;

/// A store that is open, with one to eight nodes.
///
/// It can be neither copied nor let go: `close` alone ends it.
pub struct Cluster {
    pub(crate) store: Store,
}

impl Model for Cluster {
    ghost use Rattle.std.specs.Coded.{codes};
    ghost use Rattle.record_locks.specs.Held.{held_code};
    ghost use Rattle.store_nodes.specs.declared.store.Store.{Store};

    ghost Value = { Store };

    ghost coded = { Prim.hlevel (codes, held_code) };

    ghost view = { λ c. c.store };
}
