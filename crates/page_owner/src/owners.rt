//! The table of owners: a page is granted to a node, parked by it, and given back.

ghost use Rattle.std.specs.Prelude.{◌≡◌, ◌≢◌, ◌<◌, ℕ, IfOk, length, map, replicate, slice_set};
ghost use Rattle.sd_base.specs.declared.device.NodeId.{NodeId};
ghost use Rattle.page_owner.specs.declared.owners.Own.TheVariants.{Nobody, Parked, Out};
ghost use Rattle.page_owner.specs.Owners.{owner_of, without_node};

use crate::ticket::Ticket;
use sd_base::{NodeId, PageNo};
use std::alloc::{AllocError, Global};
use std::marker::Model;

/// Whose a page is.
#[derive(Clone, Copy, Debug, PartialEq, Eq)]
pub enum Own {
    /// No node has it.
    Nobody,
    /// The node has it, and no ticket is out.
    Parked(NodeId),
    /// The node has it, and its ticket is out.
    Out(NodeId),
}

impl Own {
    /// Whose a page is after a node has lost what it had parked.
    fn without(self, n: NodeId) -> Own
        ensures { result ≡ without_node n self }
    {
        match self {
            Own::Parked(m) if m == n => Own::Nobody,
            own => own,
        }
    }
}

/// Whose each page of a store is. A contract sees it as the list of the pages' owners.
#[derive(Drop)]
pub struct Owners {
    owns: Vec<Own>,
}

impl Model for Owners {
    ghost use Rattle.std.specs.Prelude.{List};
    ghost use Rattle.page_owner.specs.declared.owners.Own.{Own};

    ghost Value = { List Own };

    ghost view = { λ t. t.owns.items };
}

impl Owners {
    /// A table of that many pages, each nobody's. No other call takes memory.
    pub fn new(alloc: Global, pages: u32) -> Result<Owners, AllocError>
        ensures { IfOk result (λ owners. owners ≡ replicate pages Nobody) }
    {
        let mut owns = Vec::new(alloc);
        owns.resize(pages as usize, Own::Nobody)?;
        Ok(Owners { owns })
    }

    /// Whose a page is.
    pub fn state(&self, x: PageNo) -> Own
        requires { x.0 < length self.now }
        ensures { result ≡ owner_of self.now x.0 }
    {
        self.owns[x.0 as usize]
    }

    /// Grants a page that is nobody's to a node.
    pub fn grant(&mut self, x: PageNo, n: NodeId) -> Ticket
        requires page { x.0 < length self.old }
        requires free { owner_of self.old x.0 ≡ Nobody }
        ensures page { result.page ≡ x }
        ensures node { result.node ≡ n }
        ensures table { self.new ≡ slice_set self.old x.0 (Out n) }
    {
        self.owns[x.0 as usize] = Own::Out(n);
        Ticket { page: x, node: n }
    }

    /// Takes a ticket back, and leaves the page to its node.
    pub fn park(&mut self, t: Ticket)
        requires page { t.page.0 < length self.old }
        requires out { owner_of self.old t.page.0 ≡ Out t.node }
        ensures { self.new ≡ slice_set self.old t.page.0 (Parked t.node) }
    {
        let Ticket { page, node } = t;
        self.owns[page.0 as usize] = Own::Parked(node);
    }

    /// Gives a node the ticket of a page that it has parked.
    pub fn resume(&mut self, x: PageNo, n: NodeId) -> Ticket
        requires page { x.0 < length self.old }
        requires parked { owner_of self.old x.0 ≡ Parked n }
        ensures page { result.page ≡ x }
        ensures node { result.node ≡ n }
        ensures table { self.new ≡ slice_set self.old x.0 (Out n) }
    {
        self.owns[x.0 as usize] = Own::Out(n);
        Ticket { page: x, node: n }
    }

    /// Takes a ticket back: the page is nobody's.
    pub fn give_back(&mut self, t: Ticket)
        requires page { t.page.0 < length self.old }
        requires out { owner_of self.old t.page.0 ≡ Out t.node }
        ensures { self.new ≡ slice_set self.old t.page.0 Nobody }
    {
        let Ticket { page, node: _node } = t;
        self.owns[page.0 as usize] = Own::Nobody;
    }

    /// Makes each page that a node has parked nobody's. None of its tickets may be out.
    pub fn drop_node(&mut self, n: NodeId)
        requires { (x : ℕ) → owner_of self.old x ≢ Out n }
        ensures { self.new ≡ map (without_node n) self.old }
    {
        for own in self.owns.iter_mut() {
            *own = own.without(n);
        }
    }

    /// Makes each page nobody's. No ticket may be out.
    pub fn drop_all(&mut self)
        requires { (x : ℕ) (n : NodeId) → owner_of self.old x ≢ Out n }
        ensures { self.new ≡ replicate (length self.old) Nobody }
    {
        self.owns.fill(Own::Nobody);
    }
}
