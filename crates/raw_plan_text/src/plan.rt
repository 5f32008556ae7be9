//! A plan, and a word more that is sent in it.
ghost use Rattle.std.specs.Prelude.{◌≡◌, ◌++◌, ◌∷◌, [], OnOk};

use raw_route::Haul;
use std::alloc::AllocError;
use std::marker::Model;

/// Hauls on a grid, each with the word that it carries.
#[derive(Drop)]
pub struct Plan {
    /// How many columns the grid has.
    pub cols: u8,
    /// How many rows the grid has.
    pub rows: u8,
    /// From which tile each word goes, on which network, and to which tiles, by their numbers.
    pub hauls: Vec<Haul>,
    /// The words, one for each haul and in the same order.
    pub words: Vec<u32>,
}

impl Model for Plan {
    ghost use Rattle.raw_plan_text.specs.Plans.{HaulPlan};

    ghost Value = { HaulPlan };

    ghost view = { λ plan. record { cols = plan.cols; rows = plan.rows; hauls = plan.hauls.items; words = plan.words.items } };
}

impl Plan {
    /// Adds a haul with its word. Where memory is wanting, the plan may have the haul without the word.
    pub(crate) fn add(&mut self, haul: Haul, word: u32) -> Result<(), AllocError>
        ensures { OnOk result (self.new ≡ record self.old { hauls = self.old.hauls ++ haul ∷ []; words = self.old.words ++ word ∷ [] }) }
    {
        self.hauls.push(haul)?;
        self.words.push(word)?;
        Ok(())
    }
}
