//! What a transaction may do to a slot of a page.

use sd_base::Value;

/// A change of a slot of a data page.
#[derive(Clone, Copy, Debug)]
pub enum Change {
    /// The slot holds the value.
    Put(Value),
    /// The slot's value gets these bytes behind its own; an absent one counts as empty.
    Append(Value),
    /// The slot is absent.
    Delete,
}
