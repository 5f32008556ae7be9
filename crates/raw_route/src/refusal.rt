//! Why there is no planned set.
ghost use Rattle.std.specs.Prelude.{◌≡◌};
ghost use Rattle.raw_route.specs.Refusals.{refusal_of};

use crate::faults::HaulFault;
use std::alloc::AllocError;

/// Why there is no planned set.
#[derive(Clone, Copy, Drop, PartialEq, Eq)]
pub enum PlanRefusal {
    /// The number of columns or of rows is not 1 to 8.
    BadSize,
    /// A tile of the haul at this place, counted from 0, is not on the grid. No haul before it is faulty.
    OffGrid { place: u32 },
    /// The haul at this place has no target, and its tile is on the grid. No haul before it is faulty.
    NoTarget { place: u32 },
    /// The haul at this place names a target twice, and nothing else is wrong with it. No haul before it is faulty.
    Twice { place: u32 },
    /// No haul is faulty, and a program would be longer than a set allows, or all together.
    TooMany,
    Memory,
}

impl From<AllocError> for PlanRefusal {
    ghost use Rattle.std.specs.Prelude.{◌≡◌};
    ghost use Rattle.raw_route.specs.declared.refusal.PlanRefusal.TheVariants.{Memory};

    ghost from_gives = { λ _ refusal. refusal ≡ Memory };

    fn from(_: AllocError) -> Self {
        PlanRefusal::Memory
    }
}

/// The refusal of a haul at a place with this fault.
pub(crate) fn refusal_of(place: u32, fault: HaulFault) -> PlanRefusal
    ensures { result ≡ refusal_of place fault }
{
    match fault {
        HaulFault::OffGrid => PlanRefusal::OffGrid { place },
        HaulFault::NoTarget => PlanRefusal::NoTarget { place },
        HaulFault::Twice => PlanRefusal::Twice { place },
    }
}
