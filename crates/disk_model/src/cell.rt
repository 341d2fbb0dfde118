//! How one block stands: covered, lost, or written and waiting for a barrier or a stop.

ghost use Rattle.std.specs.Prelude.{◌≡◌, ◌⊎◌, Some, None};
ghost use Rattle.disk_model.specs.Memory.{writer_of, place_of};
ghost use Rattle.disk_model.specs.Settling.{CoversCell, StopsCell, WritesCell};

use sd_base::BlockNo;

/// How a block stands: covered, lost, or written by a port that has not covered it.
#[derive(Clone, Copy)]
pub(crate) enum Mark {
    Covered,
    Lost,
    /// `bit` is the block's bit of `picks`.
    Waiting { port: u8, was_lost: bool, bit: u8 },
}

/// What is known of a block: how it stands, and which of its two copies is current.
///
/// The other copy of a block that waits is what it held before its first uncovered write.
#[derive(Clone, Copy)]
pub(crate) struct Cell {
    pub(crate) mark: Mark,
    pub(crate) second: bool,
}

impl Cell {
    pub(crate) const COVERED: Cell = Cell {
        mark: Mark::Covered,
        second: false,
    };

    /// Where the current copy of the block stands among the copies of all blocks.
    pub(crate) fn place(&self, at: BlockNo) -> usize
        ensures { result ≡ place_of at.0 self.now.second }
    {
        let first = 2 * at.0 as usize;
        if self.second { first + 1 } else { first }
    }

    /// Lets the port write the block. True where the block had no uncovered write.
    ///
    /// The content goes to the current copy afterwards. At the first write that is the other one than
    /// before, so that what the block held stays where it is.
    pub(crate) fn take(&mut self, port: u8, bit: u8) -> bool
        requires { (writer_of self.old.mark ≡ Some port) ⊎ (writer_of self.old.mark ≡ None) }
        ensures { WritesCell port bit result self.old self.new }
    {
        let was_lost = match self.mark {
            Mark::Waiting { .. } => return false,
            Mark::Lost => true,
            Mark::Covered => false,
        };
        self.second = !self.second;
        self.mark = Mark::Waiting {
            port,
            was_lost,
            bit,
        };
        true
    }

    /// Covers the block where it waits for the port.
    pub(crate) fn cover(&mut self, port: u8)
        ensures { CoversCell port self.old self.new }
    {
        if let Mark::Waiting { port: writer, .. } = self.mark
            && writer == port
        {
            self.mark = Mark::Covered;
        }
    }

    /// Gives the block its current content or what it held before, where it waits for the port.
    pub(crate) fn settle(&mut self, port: u8, picks: u64)
        ensures { StopsCell port picks self.old self.new }
    {
        if let Mark::Waiting {
            port: writer,
            was_lost,
            bit,
        } = self.mark
            && writer == port
        {
            if (picks >> (bit % 64)) & 1 == 1 {
                self.mark = Mark::Covered;
            } else if was_lost {
                self.mark = Mark::Lost;
            } else {
                self.second = !self.second;
                self.mark = Mark::Covered;
            }
        }
    }
}
