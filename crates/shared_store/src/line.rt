//! The line that is being read; of one that is too long only the front is kept.

ghost use Rattle.std.specs.Prelude.{◌≡◌, ◌++◌, ◌∷◌, [], ℕ, List};
ghost use Rattle.script_text.specs.Command.{InRange, Means};
ghost use Rattle.script_text.specs.Lines.{is_silent};
ghost use Rattle.shared_store.specs.LineBuffer.{HoldsLine};

use arrayvec::ArrayVec;
use script_text::{Command, read_line};

/// The longest line that is read, without its line feed.
pub(crate) const MAX_LINE: usize = 1024;

/// The line that is being read. Of a line that is too long its first bytes are kept, so a line of
/// any length takes the same room.
#[derive(Drop)]
pub(crate) struct LineBuffer {
    pub(crate) kept: ArrayVec<u8, MAX_LINE>,
    pub(crate) is_long: bool,
}

impl LineBuffer {
    pub(crate) fn new() -> LineBuffer
        ensures { HoldsLine result [] }
    {
        LineBuffer {
            kept: ArrayVec::new(),
            is_long: false,
        }
    }

    /// The line goes on with this byte.
    pub(crate) fn push(&mut self, b: u8)
        ensures { (line : List ℕ) → HoldsLine self.old line → HoldsLine self.new (line ++ b ∷ []) }
    {
        if self.kept.is_full() {
            self.is_long = true;
        } else {
            self.kept.push(b);
        }
    }

    /// The next line begins.
    pub(crate) fn clear(&mut self)
        ensures { HoldsLine self.new [] }
    {
        self.kept.clear();
        self.is_long = false;
    }

    /// Whether the line gets no reply: it is empty or a comment.
    pub(crate) fn is_silent(&self) -> bool
        ensures { (line : List ℕ) → HoldsLine self.now line → result ≡ is_silent line }
    {
        match self.kept.as_slice() {
            [] => true,
            [first, ..] => *first == b'#',
        }
    }

    /// What the line means.
    pub(crate) fn command(&self) -> Command
        ensures means { (line : List ℕ) → HoldsLine self.now line → Means line result }
        ensures range { InRange result }
    {
        if self.is_long {
            Command::Bad
        } else {
            read_line(self.kept.as_slice())
        }
    }
}
