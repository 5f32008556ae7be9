//! Why a field was not taken.
ghost use Rattle.std.specs.Prelude.{◌≡◌, length};
ghost use Rattle.raw_image.specs.declared.refused.Refusal.TheVariants.{Memory};

use crate::kind::ImageKind;
use std::alloc::{AllocError, AllocFailed};

/// What is wrong, and how many bytes are left from the faulty field on: none where a field is cut off.
#[derive(Clone, Copy, PartialEq, Eq)]
pub(crate) struct Fault {
    pub(crate) left: usize,
    pub(crate) kind: ImageKind,
}

/// Why a field was not taken: its fault, or want of memory.
#[derive(Clone, Copy, PartialEq, Eq)]
pub(crate) enum Refusal {
    At(Fault),
    Memory,
}

impl From<AllocError> for Refusal {
    ghost from_gives = { λ _ refusal. refusal ≡ Memory };

    fn from(_: AllocError) -> Refusal {
        Refusal::Memory
    }
}

impl<T: Drop> From<AllocFailed<T>> for Refusal {
    ghost from_gives = { λ _ refusal. refusal ≡ Memory };

    fn from(_: AllocFailed<T>) -> Refusal {
        Refusal::Memory
    }
}
