//! What a picture is drawn of.
ghost use Rattle.std.specs.Prelude.{◌≡◌};
ghost use Rattle.raw_model.specs.Waits.{waits_for};
ghost use Rattle.raw_model.specs.Outcomes.{outcome};
ghost use Rattle.raw_outcome.specs.Told.{told};
ghost use Rattle.raw_picture.specs.Told.{AreTold};

use crate::told::Told;
use raw_outcome::Outcome;
use raw_serial::Machine;

/// A machine at rest, its outcome, and the processors that the outcome tells.
#[derive(Clone, Copy)]
pub(crate) struct Drawn<'m, 's> {
    /// The machine at rest.
    pub(crate) machine: &'m Machine<'s>,
    /// How it came to rest.
    pub(crate) answer: Outcome,
    /// Whom the outcome tells.
    pub(crate) listed: Told,
    ghost answered: { told (waits_for machine.now.set machine.now.state) answer ≡ outcome machine.now.set machine.now.state },
    ghost are_listed: { AreTold machine.now.set machine.now.state listed },
}
