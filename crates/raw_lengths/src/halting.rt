//! Machines whose tiles and switches are all halted.
ghost use Rattle.std.specs.Prelude.{◌≡◌, true, false, map, All};
ghost use Rattle.raw_model.specs.Outcomes.{is_halted_mark, is_unhalted};
ghost use Rattle.raw_prove.specs.Units.{local_of};

use raw_model::Mark;
use raw_prove::Unit;

// Whether a mark is that of a halted processor.
fn is_halted_mark(mark: Mark) -> bool
    ensures { result ≡ is_halted_mark mark }
{
    match mark {
        Mark::Halted => true,
        Mark::Going => false,
        Mark::Trapped(_) => false,
    }
}

// Whether a processor is no tile and no switch that is not halted.
fn is_halted(unit: &Unit) -> bool
    ensures { result ≡ true → is_unhalted (local_of unit.now) ≡ false }
{
    match unit {
        Unit::Tile(unit) => is_halted_mark(unit.tile.state.mark),
        Unit::Switch(unit) => is_halted_mark(unit.state.mark),
        Unit::Source(_) | Unit::Sink(_) => true,
    }
}

/// Whether each tile and switch is halted.
pub(crate) fn are_halted(units: &[Unit]) -> bool
    ensures { result ≡ true → All (λ l. is_unhalted l ≡ false) (map local_of units.now) }
{
    for p in 0..units.len() {
        if !is_halted(&units[p]) {
            return false;
        }
    }
    true
}
