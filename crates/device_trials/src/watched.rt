//! A device that notes what it is told to write, and whose port one call can stop.

ghost use Rattle.std.specs.Prelude.{◌≡◌, ◌≢◌, ◌+◌, ◌-◌, ◌≤◌, ◌^◌, ℕ, length, min, replicate, slice_index};
ghost use Rattle.sd_base.specs.Disk.{IsPort};
ghost use Rattle.device_trials.specs.Watched.{watched_state};

use sd_base::{Block, BlockNo, Disk, NodeId, ReadAnswer, WriteAnswer};

/// What a device was told to do with its blocks.
#[derive(Clone, Copy, Debug, PartialEq, Eq)]
pub enum Deed {
    Write(BlockNo),
    Barrier,
}

/// How many deeds a device notes at the most.
const MAX_DEEDS: usize = 32;

/// A device over another one that notes the writes and the barriers, and of which one call stops the
/// port that makes it.
///
/// A write that is stopped has reached the device below, uncovered: what it leaves is up to `picks`.
#[derive(Drop)]
pub struct WatchedDisk<D> {
    disk: D,
    /// The read, write or barrier that is stopped, counted from 1. 0 for none.
    stop_at: u64,
    /// The advice that the device below gets at that stop.
    picks: u64,
    calls: u64,
    /// The stops that the device below doesn't count.
    cuts: [u64; 17],
    deeds: [Deed; MAX_DEEDS],
    /// How many deeds are noted.
    noted: usize,
    ghost few: { noted ≤ 32 },
}

impl<D: Disk> WatchedDisk<D> {
    /// A device over this one, of which no call is stopped yet.
    pub fn new(disk: D) -> WatchedDisk<D>
        ensures { ⟦<WatchedDisk<D> as Disk>⟧.state result ≡ watched_state (D.state disk) (replicate 17 0) }
    {
        WatchedDisk {
            disk,
            stop_at: 0,
            picks: 0,
            calls: 0,
            cuts: [0; 17],
            deeds: [Deed::Barrier; MAX_DEEDS],
            noted: 0,
        }
    }

    /// Notes from here on, and stops the port at a call that is counted from here on.
    pub fn watch(&mut self, stop_at: u64, picks: u64)
        ensures { ⟦<WatchedDisk<D> as Disk>⟧.state self.new ≡ ⟦<WatchedDisk<D> as Disk>⟧.state self.old }
    {
        self.stop_at = stop_at;
        self.picks = picks;
        self.calls = 0;
        self.noted = 0;
    }

    /// What is noted, the oldest first: no more than the first 32 deeds.
    pub fn deeds(&self) -> &[Deed]
        ensures { length result.now ≤ 32 }
    {
        &self.deeds[..self.noted]
    }

    fn note(&mut self, deed: Deed)
        ensures disk { self.new.disk ≡ self.old.disk }
        ensures cuts { self.new.cuts ≡ self.old.cuts }
    {
        if self.noted < MAX_DEEDS {
            self.deeds[self.noted] = deed;
            self.noted += 1;
        }
    }

    /// Counts a call. True where it is the one that is stopped.
    fn is_cut(&mut self) -> bool
        ensures disk { self.new.disk ≡ self.old.disk }
        ensures cuts { self.new.cuts ≡ self.old.cuts }
    {
        self.calls = self.calls.saturating_add(1);
        self.calls == self.stop_at
    }

    /// Counts a stop of the port in a call.
    fn count_cut(&mut self, n: NodeId)
        requires { IsPort n.0 }
        ensures disk { self.new.disk ≡ self.old.disk }
        ensures here { slice_index self.new.cuts n.0 ≡ min (slice_index self.old.cuts n.0 + 1) (2 ^ 64 - 1) }
        ensures others { (m : ℕ) → m ≢ n.0 → slice_index self.new.cuts m ≡ slice_index self.old.cuts m }
    {
        let port = n.0 as usize;
        self.cuts[port] = self.cuts[port].saturating_add(1);
    }
}

impl<D: Disk> Disk for WatchedDisk<D> {
    ghost told = { D.told };

    ghost state = { λ d. watched_state (D.state d.disk) d.cuts };

    ghost reaches = { λ d k lt. D.reaches d.disk k lt };

    ghost lawful = { λ d k told. D.lawful d.disk k told };

    fn blocks(&self) -> u32 {
        self.disk.blocks()
    }

    fn is_live(&self, n: NodeId) -> bool {
        self.disk.is_live(n)
    }

    fn read(&mut self, n: NodeId, at: BlockNo, out: &mut Block) -> ReadAnswer {
        if self.is_cut() {
            self.disk.stop(n, self.picks);
            self.count_cut(n);
            return ReadAnswer::Stopped;
        }
        self.disk.read(n, at, out)
    }

    fn write(&mut self, n: NodeId, at: BlockNo, content: &Block) -> WriteAnswer {
        self.note(Deed::Write(at));
        let is_cut = self.is_cut();
        let answer = self.disk.write(n, at, content);
        if is_cut {
            self.disk.stop(n, self.picks);
            self.count_cut(n);
            return WriteAnswer::Stopped;
        }
        answer
    }

    fn barrier(&mut self, n: NodeId) -> WriteAnswer {
        self.note(Deed::Barrier);
        if self.is_cut() {
            self.disk.stop(n, self.picks);
            self.count_cut(n);
            return WriteAnswer::Stopped;
        }
        self.disk.barrier(n)
    }

    fn stop(&mut self, n: NodeId, picks: u64) {
        self.disk.stop(n, picks);
    }

    fn start(&mut self, n: NodeId) {
        self.disk.start(n);
    }

    fn lose(&mut self, at: BlockNo) {
        self.disk.lose(at);
    }
}
