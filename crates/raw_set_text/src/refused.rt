//! Why a line was not taken.
ghost use Rattle.std.specs.Prelude.{◌≡◌};
ghost use Rattle.raw_set_text.specs.declared.refused.LineRefusal.TheVariants.{Memory};

use crate::kind::SetKind;
use std::alloc::{AllocError, AllocFailed};

/// Why a line was not taken: its fault, or want of memory.
#[derive(Clone, Copy, PartialEq, Eq)]
pub(crate) enum LineRefusal {
    Fault(SetKind),
    Memory,
}

impl From<AllocError> for LineRefusal {
    ghost from_gives = { λ _ refusal. refusal ≡ Memory };

    fn from(_: AllocError) -> LineRefusal {
        LineRefusal::Memory
    }
}

impl<T: Drop> From<AllocFailed<T>> for LineRefusal {
    ghost from_gives = { λ _ refusal. refusal ≡ Memory };

    fn from(_: AllocFailed<T>) -> LineRefusal {
        LineRefusal::Memory
    }
}
