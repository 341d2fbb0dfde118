//! The end of a cache whose node has stopped: frames are given back, and pages parked.

ghost use Rattle.std.specs.Prelude.{◌≡◌, ◌≢◌, ◌+◌, ℕ, false, [], None, All, AllPairs, length, replicate};
ghost use Rattle.sd_base.specs.Disk.{IsPort};
ghost use Rattle.frame_pool.specs.Frames.{IsOut, free_count};
ghost use Rattle.page_owner.specs.declared.owners.Own.TheVariants.{Out};
ghost use Rattle.page_owner.specs.Owners.{owner_of};
ghost use Rattle.node_cache.specs.Cache.{AreOut, AreOwned};
ghost use Rattle.node_cache.specs.Room.{freed, given_up, parked};

use crate::cache::NodeCache;
use crate::pages::{MAX_PAGES, Pages};
use crate::slot::Slot;
use frame_pool::Pool;
use page_owner::Owners;
use sd_base::{Disk, NodeId};

/// Ends a place that holds no page.
fn end_free(place: Option<Slot>)
    requires { place ≡ None }
{
    match place {
        None => (),
        Some(_slot) => unreachable!(),
    }
}

/// Ends places that hold no page. Each is ended by itself: an array of places can't be let go, since a
/// place could hold a page.
fn end_places(slots: [Option<Slot>; MAX_PAGES])
    requires { slots ≡ replicate 16 None }
{
    let [
        first,
        second,
        third,
        fourth,
        fifth,
        sixth,
        seventh,
        eighth,
        ninth,
        tenth,
        eleventh,
        twelfth,
        thirteenth,
        fourteenth,
        fifteenth,
        sixteenth,
    ] = slots;
    end_free(first);
    end_free(second);
    end_free(third);
    end_free(fourth);
    end_free(fifth);
    end_free(sixth);
    end_free(seventh);
    end_free(eighth);
    end_free(ninth);
    end_free(tenth);
    end_free(eleventh);
    end_free(twelfth);
    end_free(thirteenth);
    end_free(fourteenth);
    end_free(fifteenth);
    end_free(sixteenth);
}

impl Pages {
    /// Ends a list that has no page.
    fn end_empty(self)
        requires { self ≡ [] }
    {
        let Pages { slots, len: _len } = self;
        end_places(slots);
    }

    /// Ends the stay of all pages, at a node whose port has stopped.
    fn wreck<D: Disk>(mut self, disk: &D, n: NodeId, pool: &mut Pool, owners: &mut Owners)
        requires port { IsPort n.0 }
        requires own { All (λ p. p.ticket.node ≡ n) self }
        requires stopped { (D.state disk.now).live n.0 ≡ false }
        requires out { All (λ p. IsOut pool.old p.frame) self }
        requires apart { AllPairs (λ p q. p.frame ≢ q.frame) self }
        requires owned { All (λ p. owner_of owners.old p.ticket.page.0 ≡ Out p.ticket.node) self }
        requires once { AllPairs (λ p q. p.ticket.page ≢ q.ticket.page) self }
        ensures pool { pool.new ≡ freed self pool.old }
        ensures counted { free_count pool.new ≡ free_count pool.old + length self }
        ensures owners { owners.new ≡ parked self owners.old }
    {
        while self.len() > 0 {
            let (frame, ticket) = self.remove(0).wreck(disk, n);
            pool.give(frame);
            owners.park(ticket);
        }
        self.end_empty();
    }
}

impl NodeCache {
    /// Ends the cache of a node whose port has stopped: its frames are given back, and its pages are
    /// parked, with the changes that are to be redone from the log.
    pub fn wreck<D: Disk>(self, disk: &D, pool: &mut Pool, owners: &mut Owners)
        requires stopped { (D.state disk.now).live self.node.0 ≡ false }
        requires out { AreOut pool.old self }
        requires owned { AreOwned owners.old self }
        ensures pool { pool.new ≡ freed self.pages pool.old }
        ensures counted { free_count pool.new ≡ free_count pool.old + length self.pages }
        ensures owners { owners.new ≡ parked self.pages owners.old }
        ensures parked { (x : ℕ) → owner_of owners.new x ≡ given_up self.node (owner_of owners.old x) }
    {
        let NodeCache {
            log: _log,
            node,
            pages,
        } = self;
        pages.wreck(disk, node, pool, owners);
    }
}
