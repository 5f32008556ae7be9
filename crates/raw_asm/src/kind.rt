//! What can be wrong with a section.
ghost use Rattle.std.specs.Prelude.{◌≡◌};
ghost use Rattle.raw_asm.specs.Kinds.{asm_text};
ghost use Rattle.raw_asm.specs.declared.kind.AsmRefusal.TheVariants.{Memory};

use std::alloc::AllocError;

/// What is wrong with a line.
///
/// Where a line has several faults, the kind that stands first here is reported. Two groups have an order
/// of their own inside: of `BadOperand`, `RangeOf` and `NoLabel` a wrong count of operands comes first,
/// and then the first faulty operand from the left; of `BadRoute` and `TwoSources` the first faulty route.
#[derive(Clone, Copy, PartialEq, Eq)]
pub enum AsmKind {
    /// An earlier line of the section has this label.
    DoubleLabel,
    /// A first token that ends with `:` is no label, or the name is in no table.
    UnknownName,
    /// The count of operands is wrong, or an operand is of another form.
    BadOperand,
    /// A number is outside its range.
    RangeOf,
    /// The section does not define this label.
    NoLabel,
    /// The word is no instruction's.
    BadWord,
    /// A route of a switch is of another form.
    BadRoute,
    /// A route's output has a route earlier in the line.
    TwoSources,
    /// Two routes send different registers.
    TwoRegisters,
    /// The instruction names an end that has no wire.
    UndeclaredEdge,
    /// The line brings the program past its most instructions.
    TooLong,
}

impl AsmKind {
    /// Its word, as a program tells it: small letters and hyphens.
    pub fn word(self) -> &'static [u8]
        ensures { result.now ≡ asm_text self }
    {
        match self {
            AsmKind::DoubleLabel => b"double-label",
            AsmKind::UnknownName => b"unknown-name",
            AsmKind::BadOperand => b"bad-operand",
            AsmKind::RangeOf => b"range-of",
            AsmKind::NoLabel => b"no-label",
            AsmKind::BadWord => b"bad-word",
            AsmKind::BadRoute => b"bad-route",
            AsmKind::TwoSources => b"two-sources",
            AsmKind::TwoRegisters => b"two-registers",
            AsmKind::UndeclaredEdge => b"undeclared-edge",
            AsmKind::TooLong => b"too-long",
        }
    }
}

/// Why lines could not be assembled. What was lent is unchanged.
#[derive(Clone, Copy, PartialEq, Eq)]
pub enum AsmRefusal {
    /// The least faulty line, by its number in the text, counted from 1, and what is wrong with it.
    At { line: u32, kind: AsmKind },
    /// No memory was left for the labels or the program.
    Memory,
}

impl From<AllocError> for AsmRefusal {
    ghost from_gives = { λ _ e. e ≡ Memory };

    fn from(_: AllocError) -> AsmRefusal {
        AsmRefusal::Memory
    }
}
