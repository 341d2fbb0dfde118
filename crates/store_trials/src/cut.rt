//! A device over another one, at one call of which the port stops.

ghost use Rattle.std.specs.Prelude.{◌≡◌, ◌≢◌, ◌↔◌, ◌+◌, ◌-◌, ◌^◌, ℕ, true, IsTrue, min, replicate};
ghost use Rattle.sd_base.specs.Disk.{IsPort, IsFreeFor};
ghost use Rattle.sd_base.specs.Calls.{Keeps, Narrows, NarrowsBut, NoNewWriter, NoNewWriterBut, KeepsForeign, KeepsForeignBut, Writes, CutsWrite, Covers, Settles};
ghost use Rattle.sd_base.specs.Answers.{ReadCause, WriteCause, Reads, OnWrite};
ghost use Rattle.store_trials.specs.Cut.{counts_at, cut_state};

use sd_base::{Arm, Block, BlockNo, Disk, NodeId, ReadAnswer, WriteAnswer};

/// A device over another one, of which one call stops the port that makes it. It may be a read or a
/// barrier, at which no device can be armed to stop.
///
/// A write that is stopped has reached the device below, uncovered: what it leaves is up to `picks`.
#[derive(Drop)]
pub struct CutDisk<D> {
    disk: D,
    /// The read, write or barrier that is stopped, counted from 1. 0 for none.
    stop_at: u32,
    /// The advice that the device below gets at that stop.
    picks: u64,
    calls: u32,
    /// The stops that the device below doesn't count.
    cuts: [u64; 17],
}

impl<D: Disk> CutDisk<D> {
    /// A device over this one. The reads, writes and barriers count from here on.
    pub fn new(disk: D, stop_at: u32, picks: u64) -> CutDisk<D>
        ensures state { ⟦<CutDisk<D> as Disk>⟧.state result ≡ cut_state (D.state disk) (replicate 17 0) }
        ensures plan { (result.stop_at ≡ stop_at) × (result.picks ≡ picks) × (result.calls ≡ 0) }
    {
        CutDisk {
            disk,
            stop_at,
            picks,
            calls: 0,
            cuts: [0; 17],
        }
    }

    /// How many reads, writes and barriers there were.
    pub fn calls(&self) -> u32
        ensures { result ≡ self.now.calls }
    {
        self.calls
    }

    /// Counts a call. True where it is the one that is stopped.
    fn is_cut(&mut self) -> bool
        ensures disk { self.new.disk ≡ self.old.disk }
        ensures cuts { self.new.cuts ≡ self.old.cuts }
        ensures turn { IsTrue result ↔ self.new.calls ≡ self.old.stop_at }
        ensures count { self.new.calls ≡ min (self.old.calls + 1) (2 ^ 32 - 1) }
        ensures plan { (self.new.stop_at ≡ self.old.stop_at) × (self.new.picks ≡ self.old.picks) }
    {
        self.calls = self.calls.saturating_add(1);
        self.calls == self.stop_at
    }

    /// Counts a stop of the port in a call.
    fn count_cut(&mut self, n: NodeId)
        requires { IsPort n.0 }
        ensures disk { self.new.disk ≡ self.old.disk }
        ensures here { counts_at self.new.cuts n.0 ≡ min (counts_at self.old.cuts n.0 + 1) (2 ^ 64 - 1) }
        ensures others { (m : ℕ) → m ≢ n.0 → counts_at self.new.cuts m ≡ counts_at self.old.cuts m }
        ensures plan { (self.new.stop_at ≡ self.old.stop_at) × (self.new.picks ≡ self.old.picks) × (self.new.calls ≡ self.old.calls) }
    {
        let port = n.0 as usize;
        self.cuts[port] = self.cuts[port].saturating_add(1);
    }
}

impl<D: Disk> Disk for CutDisk<D> {
    ghost told = { D.told };

    ghost state = { λ d. cut_state (D.state d.disk) d.cuts };

    ghost reaches = { λ d k lt. D.reaches d.disk k lt };

    ghost lawful = { λ d k told. D.lawful d.disk k told };

    fn blocks(&self) -> u32 {
        self.disk.blocks()
    }

    fn is_live(&self, n: NodeId) -> bool {
        self.disk.is_live(n)
    }

    fn read(&mut self, n: NodeId, at: BlockNo, out: &mut Block) -> ReadAnswer
        requires port { IsPort n.0 }
        requires live { (D.state self.old.disk).live n.0 ≡ true }
        requires reach { (D.state self.old.disk).reach at.0 ≡ true }
        ensures keeps { Keeps n.0 (cut_state (D.state self.old.disk) self.old.cuts) (cut_state (D.state self.new.disk) self.new.cuts) }
        ensures cause { ReadCause result n.0 (cut_state (D.state self.old.disk) self.old.cuts) (cut_state (D.state self.new.disk) self.new.cuts) }
        ensures outcomes { IsTrue D.told → Narrows (D.state self.old.disk).block (D.state self.new.disk).block }
        ensures writers { IsTrue D.told → NoNewWriter (D.state self.old.disk).block (D.state self.new.disk).block }
        ensures foreign { IsTrue D.told → KeepsForeign n.0 (D.state self.old.disk).block (D.state self.new.disk).block }
        ensures blocks { IsTrue D.told → Reads result n.0 at.0 out.new (D.state self.old.disk).block (D.state self.new.disk).block }

        // The call that is to be stopped is stopped.
        ensures turn { self.new.calls ≡ self.old.stop_at → result ≡ ReadAnswer.Stopped }
        ensures count { self.new.calls ≡ min (self.old.calls + 1) (2 ^ 32 - 1) }
        ensures plan { (self.new.stop_at ≡ self.old.stop_at) × (self.new.picks ≡ self.old.picks) }
    {
        if self.is_cut() {
            self.disk.stop(n, self.picks);
            self.count_cut(n);
            return ReadAnswer::Stopped;
        }
        self.disk.read(n, at, out)
    }

    fn write(&mut self, n: NodeId, at: BlockNo, content: &Block) -> WriteAnswer
        requires port { IsPort n.0 }
        requires live { (D.state self.old.disk).live n.0 ≡ true }
        requires reach { (D.state self.old.disk).reach at.0 ≡ true }
        requires free { IsTrue D.told → IsFreeFor n.0 ((D.state self.old.disk).block at.0) }
        ensures keeps { Keeps n.0 (cut_state (D.state self.old.disk) self.old.cuts) (cut_state (D.state self.new.disk) self.new.cuts) }
        ensures cause { WriteCause result n.0 (cut_state (D.state self.old.disk) self.old.cuts) (cut_state (D.state self.new.disk) self.new.cuts) }
        ensures outcomes { IsTrue D.told → NarrowsBut at.0 content.now (D.state self.old.disk).block (D.state self.new.disk).block }
        ensures writers { IsTrue D.told → NoNewWriterBut at.0 n.0 (D.state self.old.disk).block (D.state self.new.disk).block }
        ensures foreign { IsTrue D.told → KeepsForeignBut at.0 n.0 (D.state self.old.disk).block (D.state self.new.disk).block }
        ensures blocks { IsTrue D.told → OnWrite result
            (Writes n.0 at.0 content.now (D.state self.old.disk).block (D.state self.new.disk).block)
            (CutsWrite n.0 at.0 (D.state self.old.disk).block (D.state self.new.disk).block) }

        // The call that is to be stopped is stopped.
        ensures turn { self.new.calls ≡ self.old.stop_at → result ≡ WriteAnswer.Stopped }
        ensures count { self.new.calls ≡ min (self.old.calls + 1) (2 ^ 32 - 1) }
        ensures plan { (self.new.stop_at ≡ self.old.stop_at) × (self.new.picks ≡ self.old.picks) }
    {
        let is_cut = self.is_cut();
        let answer = self.disk.write(n, at, content);
        if is_cut {
            self.disk.stop(n, self.picks);
            self.count_cut(n);
            return WriteAnswer::Stopped;
        }
        answer
    }

    fn barrier(&mut self, n: NodeId) -> WriteAnswer
        requires port { IsPort n.0 }
        requires live { (D.state self.old.disk).live n.0 ≡ true }
        ensures keeps { Keeps n.0 (cut_state (D.state self.old.disk) self.old.cuts) (cut_state (D.state self.new.disk) self.new.cuts) }
        ensures cause { WriteCause result n.0 (cut_state (D.state self.old.disk) self.old.cuts) (cut_state (D.state self.new.disk) self.new.cuts) }
        ensures outcomes { IsTrue D.told → Narrows (D.state self.old.disk).block (D.state self.new.disk).block }
        ensures writers { IsTrue D.told → NoNewWriter (D.state self.old.disk).block (D.state self.new.disk).block }
        ensures foreign { IsTrue D.told → KeepsForeign n.0 (D.state self.old.disk).block (D.state self.new.disk).block }
        ensures blocks { IsTrue D.told → OnWrite result
            (Covers n.0 (D.state self.old.disk).block (D.state self.new.disk).block)
            (Settles n.0 (D.state self.old.disk).block (D.state self.new.disk).block) }

        // The call that is to be stopped is stopped.
        ensures turn { self.new.calls ≡ self.old.stop_at → result ≡ WriteAnswer.Stopped }
        ensures count { self.new.calls ≡ min (self.old.calls + 1) (2 ^ 32 - 1) }
        ensures plan { (self.new.stop_at ≡ self.old.stop_at) × (self.new.picks ≡ self.old.picks) }
    {
        if self.is_cut() {
            self.disk.stop(n, self.picks);
            self.count_cut(n);
            return WriteAnswer::Stopped;
        }
        self.disk.barrier(n)
    }

    fn stop(&mut self, n: NodeId, picks: u64) {
        self.disk.stop(n, picks);
    }

    fn start(&mut self, n: NodeId) {
        self.disk.start(n);
    }

    fn lose(&mut self, at: BlockNo) {
        self.disk.lose(at);
    }
}

impl<D: Arm> Arm for CutDisk<D> {
    ghost armed = { λ d. D.armed d.disk };

    fn arm(&mut self, n: NodeId, writes: u32, picks: u64) {
        self.disk.arm(n, writes, picks);
    }

    fn fail(&mut self, n: NodeId, calls: u32) {
        self.disk.fail(n, calls);
    }
}
