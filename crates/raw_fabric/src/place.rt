//! The places of processors in their passes.
ghost use Rattle.std.specs.Prelude.{◌≡◌, ◌/◌};

use raw_fabric_rule::Workers;

/// The place of a processor in the pass that holds it, of so many workers.
///
/// It is looked up for each row of turns, so the numbers of workers that are usual have an arm of their own: what is divided
/// by a number that the compiler knows takes no division.
#[inline(always)]
pub(crate) fn place_of(p: u32, workers: Workers) -> u32
    ensures { result ≡ p / workers }
{
    let n = workers.count();
    match n {
        1 => p,
        2 => p / 2,
        3 => p / 3,
        4 => p / 4,
        8 => p / 8,
        16 => p / 16,
        _ => p / n,
    }
}
