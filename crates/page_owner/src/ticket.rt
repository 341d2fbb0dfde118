//! The ticket of a page: the right of one node to change it.

ghost use Rattle.std.specs.Prelude.{◌≡◌};

use sd_base::{NodeId, PageNo};
use std::marker::Model;

/// The right of a node to change a page. It is out once at most for each page of a table of owners,
/// can be neither copied nor let go, and is spent by `Owners::park` or `Owners::give_back`.
#[derive(Debug)]
pub struct Ticket {
    pub(crate) page: PageNo,
    pub(crate) node: NodeId,
}

impl Model for Ticket {
    ghost use Rattle.page_owner.specs.Owners.{Grant};

    ghost Value = { Grant };

    ghost view = { λ t. record { page = t.page; node = t.node } };
}

impl Ticket {
    /// The page that may be changed.
    pub fn page(&self) -> PageNo
        ensures { result ≡ self.now.page }
    {
        self.page
    }

    /// The node that may change it.
    pub fn node(&self) -> NodeId
        ensures { result ≡ self.now.node }
    {
        self.node
    }
}
