//! A script and a transcript in memory, which fail where they are told to.

ghost use Rattle.std.specs.Prelude.{◌≡◌, ◌<◌, ◌≤◌, true, length, []};
ghost use Rattle.sd_base.specs.Stream.{SourceState, SinkState};

use sd_base::{Put, Sink, Source, Took};
use std::alloc::Global;

/// A script in memory. It fails at the reads that a list names, counted from 1.
#[derive(Drop)]
pub struct Script<'a> {
    left: &'a [u8],
    /// How many bytes it gives at once, at most.
    piece: usize,
    failing: &'static [u64],
    reads: u64,
    given: u64,
    faults: u64,
    ghost some: { 0 < piece },
}

impl<'a> Script<'a> {
    pub fn new(bytes: &'a [u8], piece: usize, failing: &'static [u64]) -> Script<'a>
        requires { 0 < piece }
        ensures left { (⟦<Script<'a> as Source>⟧.state result).left ≡ bytes.now }
        ensures given { (⟦<Script<'a> as Source>⟧.state result).given ≡ 0 }
        ensures faults { (⟦<Script<'a> as Source>⟧.state result).faults ≡ 0 }
    {
        Script {
            left: bytes,
            piece,
            failing,
            reads: 0,
            given: 0,
            faults: 0,
        }
    }
}

impl Source for Script<'_> {
    ghost told = { true };

    ghost state = { λ s. record { left = s.left.now; given = s.given; faults = s.faults } };

    fn read(&mut self, buf: &mut [u8]) -> Took {
        self.reads = self.reads.saturating_add(1);
        if self.failing.contains(&self.reads) {
            self.faults = self.faults.saturating_add(1);
            return Took::Failed;
        }
        let left = self.left;
        if left.is_empty() {
            return Took::End;
        }
        let n = left.len().min(buf.len()).min(self.piece);
        buf[..n].copy_from_slice(&left[..n]);
        self.left = &left[n..];
        self.given = self.given.saturating_add(n as u64);
        Took::Got(n)
    }
}

/// A transcript in memory. It fails at the writes and at the flushes that two lists name, each
/// counted from 1, and where it gets no memory.
#[derive(Drop)]
pub struct Transcript {
    taken: Vec<u8>,
    /// How many bytes it takes at once, at most. Where it takes none, that counts as a fault.
    piece: usize,
    failing_writes: &'static [u64],
    failing_flushes: &'static [u64],
    writes: u64,
    flushes: u64,
    flushed: usize,
    faults: u64,
}

impl Transcript {
    pub fn new(
        alloc: Global,
        piece: usize,
        failing_writes: &'static [u64],
        failing_flushes: &'static [u64],
    ) -> Transcript
        ensures taken { (⟦<Transcript as Sink>⟧.state result).taken ≡ [] }
        ensures flushed { (⟦<Transcript as Sink>⟧.state result).flushed ≡ 0 }
        ensures faults { (⟦<Transcript as Sink>⟧.state result).faults ≡ 0 }
    {
        Transcript {
            taken: Vec::new(alloc),
            piece,
            failing_writes,
            failing_flushes,
            writes: 0,
            flushes: 0,
            flushed: 0,
            faults: 0,
        }
    }

    /// The bytes that were taken.
    pub fn bytes(&self) -> &[u8]
        ensures { result.now ≡ (⟦<Transcript as Sink>⟧.state self.now).taken }
    {
        &self.taken
    }

    /// How many of the bytes are passed on.
    pub fn flushed(&self) -> usize
        ensures { result ≡ (⟦<Transcript as Sink>⟧.state self.now).flushed }
    {
        self.flushed
    }
}

impl Sink for Transcript {
    ghost told = { true };

    ghost state = { λ s. record { taken = s.taken.items; flushed = s.flushed; faults = s.faults } };

    fn write(&mut self, piece: &[u8]) -> Put {
        self.writes = self.writes.saturating_add(1);
        if self.failing_writes.contains(&self.writes) {
            self.faults = self.faults.saturating_add(1);
            return Put::Failed;
        }
        let n = piece.len().min(self.piece);
        if n == 0 && !piece.is_empty() {
            self.faults = self.faults.saturating_add(1);
            return Put::Took(0);
        }
        match self.taken.extend_from_slice(&piece[..n]) {
            Ok(()) => Put::Took(n),
            Err(_) => {
                self.faults = self.faults.saturating_add(1);
                Put::Failed
            }
        }
    }

    fn flush(&mut self) -> bool {
        self.flushes = self.flushes.saturating_add(1);
        if self.failing_flushes.contains(&self.flushes) {
            self.faults = self.faults.saturating_add(1);
            return false;
        }
        self.flushed = self.taken.len();
        true
    }
}
