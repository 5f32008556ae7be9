//! Why a term is not made.
use std::alloc::{AllocError, AllocFailed};

/// Why a term is not made. Terms that were made before it stay in the table.
#[derive(Clone, Copy, Drop, PartialEq, Eq)]
pub enum TermRefusal {
    /// It would be one more than [`MAX_TERMS`](crate::MAX_TERMS).
    TooMany,
    Memory,
}

impl From<AllocError> for TermRefusal {
    ghost use Rattle.std.specs.Prelude.{◌≡◌};
    ghost use Rattle.raw_term.specs.declared.refusal.TermRefusal.TheVariants.{Memory};

    ghost from_gives = { λ _ refusal. refusal ≡ Memory };

    fn from(_: AllocError) -> Self {
        TermRefusal::Memory
    }
}

impl<T: Drop> From<AllocFailed<T>> for TermRefusal {
    ghost use Rattle.std.specs.Prelude.{◌≡◌};
    ghost use Rattle.raw_term.specs.declared.refusal.TermRefusal.TheVariants.{Memory};

    ghost from_gives = { λ _ refusal. refusal ≡ Memory };

    fn from(_: AllocFailed<T>) -> Self {
        TermRefusal::Memory
    }
}
