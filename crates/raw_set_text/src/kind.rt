//! What can be wrong with the text of a set.
ghost use Rattle.std.specs.Prelude.{◌≡◌};
ghost use Rattle.raw_set_text.specs.Kinds.{set_kind_text};
ghost use Rattle.raw_set_text.specs.declared.kind.SetRefusal.TheVariants.{Memory};

use raw_asm::AsmKind;
use std::alloc::AllocError;

/// What is wrong with a line of the text of a set.
///
/// Where a line has several faults, the kind that stands first here is told, from `Missing` on.
#[derive(Clone, Copy, PartialEq, Eq)]
pub enum SetKind {
    /// A line holds a byte other than a tab, a carriage return and the bytes 32 to 126.
    NotAscii,
    /// A line has more than 1,000 bytes.
    LineTooLong,
    /// The first line with tokens is not `grid`, or the second is not `limit`; or one of them, or the
    /// `end` of a section, is not there, which is told at the line after the last.
    Missing,
    /// The first word is unknown, the count of words is wrong, a word is of another form, an address is no
    /// multiple of 4, or `show` shows no word.
    BadLine,
    /// The columns or the rows are not 1 to 8.
    BadSize,
    /// The grid has no such tile.
    OffGrid,
    /// The tile has a neighbour on the side of a port.
    PortOffEdge,
    /// An earlier line declares this port.
    DoublePort,
    /// No earlier line declares the source that is fed.
    UndeclaredEdge,
    /// An earlier line says this: the grid, the limit, the depth, a section of the same processor, or a
    /// word at the same address.
    Repeated,
    /// A number or a total is outside its limits, or an address is past the memory.
    OverLimit,
    /// A line of a section has this fault.
    Asm(AsmKind),
}

impl SetKind {
    /// Its word, as a program tells it: small letters and hyphens.
    pub fn word(self) -> &'static [u8]
        ensures { result.now ≡ set_kind_text self }
    {
        match self {
            SetKind::NotAscii => b"not-ascii",
            SetKind::LineTooLong => b"line-too-long",
            SetKind::Missing => b"missing",
            SetKind::BadLine => b"bad-line",
            SetKind::BadSize => b"bad-size",
            SetKind::OffGrid => b"off-grid",
            SetKind::PortOffEdge => b"port-off-edge",
            SetKind::DoublePort => b"double-port",
            SetKind::UndeclaredEdge => b"undeclared-edge",
            SetKind::Repeated => b"repeated",
            SetKind::OverLimit => b"over-limit",
            SetKind::Asm(kind) => kind.word(),
        }
    }
}

/// Why a text was not read as a set. The text is unchanged.
#[derive(Clone, Copy, PartialEq, Eq)]
pub enum SetRefusal {
    /// The least faulty line, by its number counted from 1, and what is wrong with it. Where something is
    /// missing at the end, it is the number of the line after the last.
    At { line: u32, kind: SetKind },
    /// No memory was left for the set.
    Memory,
}

impl From<AllocError> for SetRefusal {
    ghost from_gives = { λ _ refusal. refusal ≡ Memory };

    fn from(_: AllocError) -> SetRefusal {
        SetRefusal::Memory
    }
}
