//! What can be wrong with a line of live input.
ghost use Rattle.std.specs.Prelude.{◌≡◌};
ghost use Rattle.raw_live_text.specs.Kinds.{line_fault_text};

/// What is wrong with a line of live input: one before the line `live` by its bytes alone, and one behind it in each of
/// these ways. Where a line has several faults, the one that stands first here is told.
#[derive(Clone, Copy, PartialEq, Eq)]
pub enum LineFault {
    /// It holds a byte other than a tab, a carriage return and the bytes 32 to 126.
    NotAscii,
    /// It has more than 1,000 bytes.
    LineTooLong,
    /// It has tokens and another form.
    BadLine,
    /// No source stands there.
    UndeclaredEdge,
    /// All sources together have as many words as they may have.
    OverLimit,
}

impl LineFault {
    /// Its word, as a program tells it: small letters and hyphens.
    pub fn word(self) -> &'static [u8]
        ensures { result.now ≡ line_fault_text self }
    {
        match self {
            LineFault::NotAscii => b"not-ascii",
            LineFault::LineTooLong => b"line-too-long",
            LineFault::BadLine => b"bad-line",
            LineFault::UndeclaredEdge => b"undeclared-edge",
            LineFault::OverLimit => b"over-limit",
        }
    }
}
