//! The cache of a node, and what can be asked of it without a device.

ghost use Rattle.std.specs.Prelude.{◌≡◌, [], All, IfNone, IfSome, IsTrue, Some};
ghost use Rattle.std.specs.Borrow.{sem};
ghost use Rattle.frame_pool.specs.Frames.{frame_at};
ghost use Rattle.private_log.specs.Log.{IsLog};
ghost use Rattle.node_cache.specs.Cache.{AreOut, IsCache, IsLeastChange, is_cached, is_changed, page_at};

use crate::pages::Pages;
use frame_pool::Pool;
use private_log::Log;
use sd_base::{Block, NodeId, PageNo};
use std::marker::Model;

/// The cache of a node: its log, and up to 16 pages in frames, in the order in which they came in.
///
/// It can be neither copied nor let go: `wreck` alone ends it.
pub struct NodeCache {
    pub(crate) log: Log,
    pub(crate) node: NodeId,
    pub(crate) pages: Pages,
}

impl Model for NodeCache {
    ghost use Rattle.node_cache.specs.Cache.{CacheState, IsCache};

    ghost Value = { CacheState };

    ghost view = { λ c. record { log = c.log; node = c.node; pages = c.pages } };

    ghost invariant = { λ c. IsCache c.node c.pages };
}

impl NodeCache {
    ghost use Rattle.node_cache.specs.Lending.{LendsLog};

    /// The cache of a node that has no page yet, over its log.
    pub fn new(log: Log, n: NodeId) -> NodeCache
        requires { log.node ≡ n }
        ensures log { result.log ≡ log }
        ensures node { result.node ≡ n }
        ensures pages { result.pages ≡ [] }
    {
        let node = log.node();
        NodeCache {
            log,
            node,
            pages: Pages::new(),
        }
    }

    /// What each cache is: it has at most 16 pages, each with a ticket of its node, and none has a page or
    /// a frame twice.
    pub fn law_of_pages(&self)
        ensures { IsCache self.now.node self.now.pages }
    {
        let _ = &self.node;
    }

    /// What each log is: its numbers are in order, and no record that is stable is behind the last one.
    pub fn law_of_log(&self)
        ensures { IsLog self.now.log }
    {
        let _ = self.log.tail();
    }

    /// Whether a page is cached.
    pub fn has(&self, x: PageNo) -> bool
        ensures { result ≡ is_cached x self.now }
    {
        self.pages.find(x).is_some()
    }

    /// What the frame of a cached page holds.
    pub fn view<'a>(&self, pool: &'a Pool, x: PageNo) -> &'a Block
        requires cached { IsTrue (is_cached x self.now) }
        requires out { AreOut pool.now self.now }
        ensures { IfSome (page_at x self.now.pages) (λ p. frame_at pool.now p.frame ≡ Some result.now) }
    {
        let Some(i) = self.pages.find(x) else {
            unreachable!()
        };
        self.pages.slot(i).bytes(pool)
    }

    /// Whether a page is cached and has changes that its block hasn't.
    pub fn is_dirty(&self, x: PageNo) -> bool
        ensures { result ≡ is_changed x self.now }
    {
        match self.pages.find(x) {
            Some(i) => self.pages.slot(i).first().is_some(),
            None => false,
        }
    }

    /// The least number of a record that a page's block hasn't. `None` exactly where no page has
    /// changes.
    pub fn first_dirty(&self) -> Option<u64>
        ensures some { IfSome result (IsLeastChange self.now.pages) }
        ensures none { IfNone result (All (λ p. p.changes ≡ None) self.now.pages) }
    {
        (0..self.pages.len())
            .filter_map(|i| self.pages.slot(i).first())
            .min()
    }

    /// The log.
    pub fn log(&self) -> &Log
        ensures { result.now ≡ self.now.log }
    {
        &self.log
    }

    /// Lends the log. Whatever is done with it, the node and the pages stay.
    pub fn log_mut(&mut self) -> &mut Log
        ensures* writes_back { sem 𝓛 (LendsLog self.entry result) }
        ensures value { result.now ≡ self.old.log }
    {
        &mut self.log
    }
}
