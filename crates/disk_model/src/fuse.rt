//! What is armed at a port, and what is due at a call of it.
ghost use Rattle.std.specs.Prelude.{◌≡◌, ◌↔◌, ◌-◌, IsTrue};
ghost use Rattle.disk_model.specs.Fuse.{IsDueAtWrite};

/// What is due at a write.
#[derive(Clone, Copy)]
pub(crate) enum Due {
    Nothing,
    Cut,
    Fault,
}

/// What is armed at a port, and what has come due at it.
#[derive(Clone, Copy)]
pub(crate) struct Fuse {
    /// The write that is to be cut, where 1 is the next one. 0 for none.
    pub(crate) writes: u32,
    /// The read, write or barrier that is to fail, where 1 is the next one. 0 for none.
    pub(crate) calls: u32,
    /// What the blocks are to hold where a write is cut.
    pub(crate) picks: u64,
    /// How many writes were cut.
    pub(crate) cuts: u64,
    /// How many calls have failed.
    pub(crate) faults: u64,
}

impl Fuse {
    /// A port at which nothing was ever armed.
    pub(crate) const UNUSED: Fuse = Fuse {
        writes: 0,
        calls: 0,
        picks: 0,
        cuts: 0,
        faults: 0,
    };

    /// Counts a write, and says what is due at it. Where both counts are, both are used up.
    pub(crate) fn count_write(&mut self) -> Due
        ensures due { IsDueAtWrite result self.old.writes self.old.calls }
        ensures left { self.new ≡ record self.old { writes = self.old.writes - 1; calls = self.old.calls - 1 } }
    {
        if self.writes == 0 && self.calls == 0 {
            return Due::Nothing;
        }
        let due = if self.writes == 1 {
            Due::Cut
        } else if self.calls == 1 {
            Due::Fault
        } else {
            Due::Nothing
        };
        self.writes = self.writes.saturating_sub(1);
        self.calls = self.calls.saturating_sub(1);
        due
    }

    /// Counts a read or a barrier. True where it is to fail.
    pub(crate) fn count_call(&mut self) -> bool
        ensures due { IsTrue result ↔ self.old.calls ≡ 1 }
        ensures left { self.new ≡ record self.old { calls = self.old.calls - 1 } }
    {
        if self.calls == 0 {
            return false;
        }
        self.calls -= 1;
        self.calls == 0
    }
}
