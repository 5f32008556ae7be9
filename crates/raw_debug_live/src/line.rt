//! A line, as far as it was read.
ghost use Rattle.std.specs.Prelude.{◌≡◌, ℕ, List, [], ◌∷◌, ◌++◌};
ghost use Rattle.raw_debug_live.specs.Bytes.{held};

use arrayvec::ArrayVec;

/// How many bytes of a line are held: one more than it may have, so that a longer one is known as what it is.
pub(crate) const HELD: usize = 1_001;

/// The first bytes of a line.
#[derive(Drop)]
pub(crate) struct LineStart {
    pub(crate) bytes: ArrayVec<u8, HELD>,
}

impl LineStart {
    /// No byte yet.
    pub(crate) fn new() -> LineStart
        ensures { result.bytes.items ≡ [] }
    {
        LineStart {
            bytes: ArrayVec::new(),
        }
    }

    /// One byte more.
    pub(crate) fn push(&mut self, next: u8)
        ensures { (line : List ℕ) → self.old.bytes.items ≡ held line → self.new.bytes.items ≡ held (line ++ next ∷ []) }
    {
        if self.bytes.as_slice().len() >= HELD {
            return;
        }
        self.bytes.push(next);
    }

    /// The line is over.
    pub(crate) fn clear(&mut self)
        ensures { self.new.bytes.items ≡ [] }
    {
        self.bytes.clear();
    }
}
