//! A frame that is out of its pool, and has to be given back to it.

use std::marker::Model;

/// A frame that is out of a pool. A contract sees it as its number, which counts from 0.
///
/// It is spent by `Pool::give` alone.
#[derive(Debug)]
pub struct Frame {
    pub(crate) number: u16,
}

impl Model for Frame {
    ghost use Rattle.std.specs.Prelude.{ℕ};

    ghost Value = { ℕ };

    ghost view = { λ f. f.number };
}
