//! What the bytes of a script come from, and what those of a transcript go to.

ghost use Rattle.std.specs.Prelude.{◌≡◌, ◌≤◌, Bool, IsTrue, length};
ghost use Rattle.sd_base.specs.Stream.{SourceState, SinkState, GivesCount, GivesBytes, TakesCount, TakesBytes, FlushesCount, FlushesBytes};

/// What a read from a source gave.
#[derive(Clone, Copy, Debug, PartialEq, Eq)]
pub enum Took {
    /// That many bytes. None for a slice that isn't empty means the same as `End`.
    Got(usize),
    /// There are no more bytes.
    End,
    /// The source failed.
    Failed,
}

/// What a write to a sink took.
#[derive(Clone, Copy, Debug, PartialEq, Eq)]
pub enum Put {
    /// That many bytes. None of a slice that isn't empty means the same as `Failed`.
    Took(usize),
    /// The sink failed.
    Failed,
}

/// Where bytes come from.
pub trait Source {
    /// Whether these sources tell which bytes are left.
    ghost told: { Bool };

    /// What the source means.
    ghost state: { Self → SourceState };

    /// Puts the next bytes at the beginning of the slice.
    fn read(&mut self, buf: &mut [u8]) -> Took
        ensures faults { (state self.old).faults ≤ (state self.new).faults }
        ensures count { GivesCount result (length buf.old) (state self.old) (state self.new) }
        ensures bytes { IsTrue told → GivesBytes result buf.new (state self.old) (state self.new) };
}

/// Where bytes go.
pub trait Sink {
    /// Whether these sinks tell which bytes they took.
    ghost told: { Bool };

    /// What the sink means.
    ghost state: { Self → SinkState };

    /// Takes bytes from the beginning of the slice.
    fn write(&mut self, piece: &[u8]) -> Put
        ensures faults { (state self.old).faults ≤ (state self.new).faults }
        ensures count { TakesCount result (length piece.now) (state self.old) (state self.new) }
        ensures bytes { IsTrue told → TakesBytes result piece.now (state self.old) (state self.new) };

    /// Passes on all that was taken. False where the sink failed.
    fn flush(&mut self) -> bool
        ensures faults { (state self.old).faults ≤ (state self.new).faults }
        ensures count { FlushesCount result (state self.old) (state self.new) }
        ensures bytes { IsTrue told → FlushesBytes result (state self.old) (state self.new) };
}
