//! A page in a frame, whose type says whether it has changes that its block hasn't.

ghost use Rattle.std.specs.Prelude.{◌≡◌, ℕ, false, Some};
ghost use Rattle.sd_base.specs.Disk.{IsPort};
ghost use Rattle.frame_pool.specs.Frames.{IsOut, frame_at};
ghost use Rattle.state_ids.specs.Held.{IsFreed};

use frame_pool::{Frame, Pool};
use page_owner::Ticket;
use sd_base::{Block, Disk, NodeId, PageNo, Shape};
use std::marker::Model;

/// The page in the frame is what its block stands for.
#[derive(Clone, Copy, Debug)]
pub struct Clean;

/// The page in the frame has changes that its block hasn't.
#[derive(Clone, Copy, Debug)]
pub struct Dirty;

/// A page in a frame, with its ticket.
///
/// It can be neither copied nor let go.
pub struct Held<S> {
    frame: Frame,
    ticket: Ticket,
    /// The shape of the store that the page was loaded from.
    shape: Shape,
    last: u64,
    state: S,
}

impl<S> Model for Held<S> {
    ghost use Rattle.state_ids.specs.Held.{HeldPage};

    ghost Value = { HeldPage };

    ghost view = { λ h. record { frame = h.frame; ticket = h.ticket; shape = h.shape; last = h.last } };
}

/// A page as it was written: with all its changes up to a record of the log of its node.
#[derive(Clone, Copy, Debug)]
pub struct WrittenPage {
    /// The page.
    pub page: PageNo,
    /// The node in whose log its changes are.
    pub node: NodeId,
    /// The number of the last one's record.
    pub last: u64,
}

impl Default for WrittenPage {
    /// What stands in a place of a batch that isn't filled.
    fn default() -> WrittenPage {
        WrittenPage {
            page: PageNo(0),
            node: NodeId(0),
            last: 0,
        }
    }
}

/// The token of a page that was written and covered. It is made by `Covered::written` alone.
#[derive(Debug)]
pub struct Written {
    pub(crate) page: WrittenPage,
}

impl Model for Written {
    ghost use Rattle.state_ids.specs.declared.held.WrittenPage.{WrittenPage};

    ghost Value = { WrittenPage };

    ghost view = { λ w. w.page };
}

impl Held<Clean> {
    /// A page that is what its block stands for.
    pub(crate) fn clean(frame: Frame, ticket: Ticket, shape: Shape) -> Held<Clean>
        ensures frame { result.frame ≡ frame }
        ensures ticket { result.ticket ≡ ticket }
        ensures shape { result.shape ≡ shape }
    {
        Held {
            frame,
            ticket,
            shape,
            last: 0,
            state: Clean,
        }
    }

    /// Ends the work on a page that has no change.
    pub fn release(self) -> (Frame, Ticket)
        ensures frame { result.0 ≡ self.frame }
        ensures ticket { result.1 ≡ self.ticket }
    {
        self.parts()
    }
}

impl<S: Drop> Held<S> {
    pub(crate) fn parts(self) -> (Frame, Ticket)
        ensures frame { result.0 ≡ self.frame }
        ensures ticket { result.1 ≡ self.ticket }
    {
        let Held {
            frame,
            ticket,
            shape: _shape,
            last: _last,
            state: _state,
        } = self;
        (frame, ticket)
    }
}

impl Held<Dirty> {
    /// A page that was changed by the log record with this number, and maybe others before.
    pub(crate) fn dirty(frame: Frame, ticket: Ticket, shape: Shape, last: u64) -> Held<Dirty>
        ensures frame { result.frame ≡ frame }
        ensures ticket { result.ticket ≡ ticket }
        ensures shape { result.shape ≡ shape }
        ensures last { result.last ≡ last }
    {
        Held {
            frame,
            ticket,
            shape,
            last,
            state: Dirty,
        }
    }

    /// The page as it is now.
    pub(crate) fn as_sent(&self) -> WrittenPage
        ensures page { result.page ≡ self.now.ticket.page }
        ensures node { result.node ≡ self.now.ticket.node }
        ensures last { result.last ≡ self.now.last }
    {
        WrittenPage {
            page: self.ticket.page(),
            node: self.ticket.node(),
            last: self.last,
        }
    }

    /// Ends the changes of a page that was written as it is now.
    pub fn written(self, w: Written) -> Held<Clean>
        requires page { w.page ≡ self.ticket.page }
        requires node { w.node ≡ self.ticket.node }
        requires last { w.last ≡ self.last }
        ensures frame { result.frame ≡ self.frame }
        ensures ticket { result.ticket ≡ self.ticket }
        ensures shape { result.shape ≡ self.shape }
    {
        let Written { page: _page } = w;
        let shape = self.shape();
        let (frame, ticket) = self.parts();
        Held::clean(frame, ticket, shape)
    }

    /// Ends the changes of a data page that its map page has as free, with the identifier behind the
    /// page's own: what it holds is of a life that has ended. Both were loaded from a store of one shape.
    pub fn freed(self, pool: &Pool, map: &Held<Dirty>) -> (Frame, Ticket)
        requires shape { map.now.shape ≡ self.shape }
        requires free { IsFreed self.shape pool.now self.frame map.now.frame }
        ensures frame { result.0 ≡ self.frame }
        ensures ticket { result.1 ≡ self.ticket }
    {
        // That the page is free is for the caller to know.
        let _pool = pool;
        let _map = map;
        self.parts()
    }

    /// Ends the changes of a page of a node whose port has stopped: they are redone from its log.
    pub fn wreck<D: Disk>(self, disk: &D, n: NodeId) -> (Frame, Ticket)
        requires port { IsPort n.0 }
        requires node { n ≡ self.ticket.node }
        requires stopped { (D.state disk.now).live n.0 ≡ false }
        ensures frame { result.0 ≡ self.frame }
        ensures ticket { result.1 ≡ self.ticket }
    {
        // That the port has stopped is for the caller to know.
        let _disk = disk;
        let _node = n;
        self.parts()
    }
}

impl<S> Held<S> {
    /// The number of the page.
    pub fn page(&self) -> PageNo
        ensures { result ≡ self.now.ticket.page }
    {
        self.ticket.page()
    }

    /// The shape of the store that the page was loaded from.
    pub(crate) fn shape(&self) -> Shape
        ensures { result ≡ self.now.shape }
    {
        self.shape
    }

    /// What the page's frame holds.
    pub fn bytes<'a>(&self, pool: &'a Pool) -> &'a Block
        requires { IsOut pool.now self.now.frame }
        ensures { frame_at pool.now self.now.frame ≡ Some result.now }
    {
        pool.bytes(&self.frame)
    }
}
