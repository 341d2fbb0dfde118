//! The changed pages of a range are written in rising order of their numbers, and covered by one barrier.

ghost use Rattle.std.specs.Prelude.{◌≡◌, ◌≢◌, ◌<◌, ◌≤◌, ℕ, [], Option, Some, None, true, false, All, AllPairs, IsTrue, IfSome, IfErr, OnOk, OnErr, count_by, length};
ghost use Rattle.std.specs.List.{slice_get};
ghost use Rattle.sd_base.specs.Disk.{IsPort};
ghost use Rattle.sd_base.specs.Calls.{Keeps, NoNewWriter};
ghost use Rattle.sd_base.specs.Faults.{Caused, IsStopOf};
ghost use Rattle.sd_base.specs.Shape.{IsShape, page_count};
ghost use Rattle.frame_pool.specs.Frames.{IsOut};
ghost use Rattle.state_ids.specs.Blocks.{HasSettled};
ghost use Rattle.node_cache.specs.Cache.{CachedPage, IsStableTo, has_changes};
ghost use Rattle.node_cache.specs.Places.{IsWrittenWithin, between};
ghost use Rattle.node_cache.specs.Sending.{IsNextPlace, IsPlaced, IsSent, NoNewWriterButPages, Rises, Waits};
ghost use Rattle.node_cache.specs.Writes.{AreFree, AreInReach, HoldsPages, KeepsContentsOfPages, KeepsForeignOfPages, NarrowsToPages};

use crate::pages::Pages;
use frame_pool::Pool;
use private_log::Log;
use sd_base::{DevFault, Disk, NodeId, Shape};
use state_ids::{Batch, Covered};

impl Pages {
    /// How many pages of a range have changes that their blocks haven't.
    pub(crate) fn count_changed(&self, from: usize, to: usize) -> usize
        requires { (from ≤ to) × (to ≤ length self.now) }
        ensures { result ≡ count_by has_changes (between from to self.now) }
    {
        let mut count = 0;
        for i in from..to {
            if self.slot(i).first().is_some() {
                count += 1;
            }
        }
        count
    }

    /// Whether the page at a place has changes and a number from `least` on, and comes before the page at
    /// the place `next`, if there is one.
    fn comes_before(&self, i: usize, next: Option<usize>, least: u32) -> bool
        requires place { i < length self.now }
        requires next { IfSome next (λ j. j < length self.now) }
        ensures before { IsTrue result → (p : CachedPage) → slice_get self.now i ≡ Some p → Waits least p × IfSome next (λ j. (q : CachedPage) → slice_get self.now j ≡ Some q → p.ticket.page.0 < q.ticket.page.0) }
        ensures behind { result ≡ false → (p : CachedPage) → slice_get self.now i ≡ Some p → Waits least p → (j : ℕ) × (next ≡ Some j) × ((q : CachedPage) → slice_get self.now j ≡ Some q → q.ticket.page.0 ≤ p.ticket.page.0) }
    {
        let slot = self.slot(i);
        if slot.first().is_none() || slot.page().0 < least {
            return false;
        }
        match next {
            None => true,
            Some(j) => slot.page().0 < self.slot(j).page().0,
        }
    }

    /// The place of the page of a range that is the next one to be written: of those that have changes
    /// and a number from `least` on the one with the least number.
    fn next_changed(&self, from: usize, to: usize, least: u32) -> Option<usize>
        requires { (from ≤ to) × (to ≤ length self.now) }
        ensures { IsNextPlace least from to self.now result }
    {
        let mut next = None;
        for i in from..to {
            if self.comes_before(i, next, least) {
                next = Some(i);
            }
        }
        next
    }

    /// Writes the pages of a range that have changes to their blocks, in rising order of their numbers.
    /// None is covered yet, and each keeps its changes.
    fn send_range<D: Disk>(
        &self,
        from: usize,
        to: usize,
        batch: &mut Batch,
        disk: &mut D,
        s: &Shape,
        pool: &Pool,
        log: &Log,
    ) -> Result<(), DevFault>
        requires shape { IsShape s.now }
        requires range { (from ≤ to) × (to ≤ length self.now) }
        requires few { length self.now ≤ 16 }
        requires once { AllPairs (λ p q. p.ticket.page ≢ q.ticket.page) self.now }
        requires pages { All (λ p. p.ticket.page.0 < page_count s.now) self.now }
        requires out { All (λ p. IsOut pool.now p.frame) self.now }
        requires node { All (λ p. log.now.node ≡ p.ticket.node) self.now }
        requires stable { All (λ p. IsStableTo log.now.stable p.changes) self.now }
        requires fresh { batch.old.sent ≡ [] }
        requires port { IsPort batch.old.port.0 }
        requires live { (D.state disk.old).live batch.old.port.0 ≡ true }
        requires reach { AreInReach s.now (between from to self.now) (D.state disk.old).reach }
        requires free { IsTrue D.told → AreFree s.now (between from to self.now) batch.old.port.0 (D.state disk.old).block }
        ensures keeps { Keeps batch.old.port.0 (D.state disk.old) (D.state disk.new) }
        ensures cause { IfErr result (λ fault. Caused fault (D.state disk.old) (D.state disk.new)) }
        ensures fault { IfErr result (IsStopOf batch.old.port.0) }
        ensures live { OnOk result ((D.state disk.new).live batch.old.port.0 ≡ true) }
        ensures stopped { OnErr result ((D.state disk.new).live batch.old.port.0 ≡ false) }
        ensures port { batch.new.port ≡ batch.old.port }
        ensures rising { OnOk result (AllPairs Rises batch.new.sent) }
        ensures count { OnOk result (length batch.new.sent ≡ count_by has_changes (between from to self.now)) }
        ensures sent { OnOk result (All (IsSent batch.new.sent) (between from to self.now)) }
        ensures outcomes { IsTrue D.told → NarrowsToPages s.now pool.now (between from to self.now) (D.state disk.old).block (D.state disk.new).block }
        ensures writers { IsTrue D.told → NoNewWriterButPages s.now (between from to self.now) batch.old.port.0 (D.state disk.old).block (D.state disk.new).block }
        ensures settled { OnErr result (IsTrue D.told → HasSettled batch.old.port.0 (D.state disk.new).block) }
        ensures foreign { IsTrue D.told → KeepsForeignOfPages s.now (between from to self.now) batch.old.port.0 (D.state disk.old).block (D.state disk.new).block }
        ensures contents { OnOk result (IsTrue D.told → KeepsContentsOfPages s.now (between from to self.now) (D.state disk.old).block (D.state disk.new).block) }
        ensures placed { OnOk result (IsTrue D.told → All (λ p. p.changes ≢ None → IsPlaced s.now pool.now (D.state disk.new).block p) (between from to self.now)) }
    {
        let mut least = 0;
        while let Some(i) = self.next_changed(from, to, least) {
            let slot = self.slot(i);
            slot.send(batch, disk, s, pool, log)?;
            least = slot.page().0 + 1;
        }
        Ok(())
    }

    /// Ends the changes of the pages of a range, which were written with them and covered.
    fn end_range(&mut self, from: usize, to: usize, covered: &Covered)
        requires range { (from ≤ to) × (to ≤ length self.old) }
        requires sent { All (IsSent covered.now) (between from to self.old) }
        ensures { IsWrittenWithin from to self.old self.new }
    {
        for i in from..to {
            self.written(i, covered);
        }
    }

    /// Writes the pages of a range that have changes to their blocks, in rising order of their numbers,
    /// and covers them by one barrier. After an error each of them still has its changes.
    pub(crate) fn write_range<D: Disk>(
        &mut self,
        from: usize,
        to: usize,
        disk: &mut D,
        port: NodeId,
        s: &Shape,
        pool: &Pool,
        log: &Log,
    ) -> Result<(), DevFault>
        requires shape { IsShape s.now }
        requires range { (from ≤ to) × (to ≤ length self.old) }
        requires few { length self.old ≤ 16 }
        requires once { AllPairs (λ p q. p.ticket.page ≢ q.ticket.page) self.old }
        requires pages { All (λ p. p.ticket.page.0 < page_count s.now) self.old }
        requires out { All (λ p. IsOut pool.now p.frame) self.old }
        requires node { All (λ p. log.now.node ≡ p.ticket.node) self.old }
        requires stable { All (λ p. IsStableTo log.now.stable p.changes) self.old }
        requires port { IsPort port.0 }
        requires live { (D.state disk.old).live port.0 ≡ true }
        requires reach { AreInReach s.now (between from to self.old) (D.state disk.old).reach }
        requires free { IsTrue D.told → AreFree s.now (between from to self.old) port.0 (D.state disk.old).block }
        ensures keeps { Keeps port.0 (D.state disk.old) (D.state disk.new) }
        ensures cause { IfErr result (λ fault. Caused fault (D.state disk.old) (D.state disk.new)) }
        ensures fault { IfErr result (IsStopOf port.0) }
        ensures live { OnOk result ((D.state disk.new).live port.0 ≡ true) }
        ensures stopped { OnErr result ((D.state disk.new).live port.0 ≡ false) }
        ensures written { OnOk result (IsWrittenWithin from to self.old self.new) }
        ensures kept { OnErr result (self.new ≡ self.old) }
        ensures outcomes { IsTrue D.told → NarrowsToPages s.now pool.now (between from to self.old) (D.state disk.old).block (D.state disk.new).block }
        ensures writers { IsTrue D.told → NoNewWriter (D.state disk.old).block (D.state disk.new).block }
        ensures settled { OnErr result (IsTrue D.told → HasSettled port.0 (D.state disk.new).block) }
        ensures foreign { IsTrue D.told → KeepsForeignOfPages s.now (between from to self.old) port.0 (D.state disk.old).block (D.state disk.new).block }
        ensures contents { OnOk result (IsTrue D.told → KeepsContentsOfPages s.now (between from to self.old) (D.state disk.old).block (D.state disk.new).block) }
        ensures holds { OnOk result (IsTrue D.told → HoldsPages s.now pool.now (between from to self.old) (D.state disk.new).block) }
    {
        let mut batch = Batch::new(port);
        self.send_range(from, to, &mut batch, disk, s, pool, log)?;
        let covered = batch.cover(disk)?;
        self.end_range(from, to, &covered);
        Ok(())
    }
}
