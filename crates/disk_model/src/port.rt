//! One port: whether it is live, and the range in which its uncovered blocks lie.

ghost use Rattle.std.specs.Prelude.{◌≡◌, ◌+◌, ◌<◌, ◌^◌, min, max};

/// A port: whether it may be used, and where the blocks lie that it has written and not covered.
#[derive(Clone, Copy)]
pub(crate) struct Port {
    pub(crate) live: bool,
    /// The first of these blocks, or one before it.
    pub(crate) first: usize,
    /// The end of these blocks, or a later one.
    pub(crate) end: usize,
    /// The bit of `picks` for the next block that the port leaves uncovered; 64 stands for 0.
    pub(crate) next_bit: u8,
}

impl Port {
    /// A port that may not be used and has no uncovered block.
    pub(crate) const IDLE: Port = Port {
        live: false,
        first: usize::MAX,
        end: 0,
        next_bit: 0,
    };

    /// Lets a block be one of those that are not covered.
    pub(crate) fn widen(&mut self, k: usize)
        requires { k < 2 ^ 32 }
        ensures live { self.new.live ≡ self.old.live }
        ensures first { self.new.first ≡ min self.old.first k }
        ensures end { self.new.end ≡ max self.old.end (k + 1) }
        ensures next_bit { self.new.next_bit ≡ self.old.next_bit }
    {
        self.first = self.first.min(k);
        self.end = self.end.max(k + 1);
    }

    /// Forgets the blocks: none is uncovered.
    pub(crate) fn clear(&mut self)
        ensures live { self.new.live ≡ self.old.live }
        ensures end { self.new.end ≡ 0 }
        ensures next_bit { self.new.next_bit ≡ 0 }
    {
        self.first = usize::MAX;
        self.end = 0;
        self.next_bit = 0;
    }
}
