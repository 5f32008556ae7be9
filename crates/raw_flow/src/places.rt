//! Which tiles have which values, while programs are made.
ghost use Rattle.std.specs.Prelude.{◌≡◌, ◌<◌, [], List, length, IfOk};
ghost use Rattle.raw_flow.specs.Flows.{Dataflow};
ghost use Rattle.raw_flow.specs.Places.{Holding, has, with_value, AreMarks};

use crate::flow::Flow;
use raw_grid::MAX_TILES;
use std::alloc::{AllocError, Global};
use std::marker::Model;

/// A table with a row of marks for each value, one for each tile that a grid may have.
#[derive(Drop)]
pub(crate) struct Places {
    marks: Vec<bool>,
}

impl Model for Places {
    ghost use Rattle.std.specs.Prelude.{Bool, List};

    ghost Value = { List Bool };

    ghost view = { λ places. places.marks.items };
}

impl Places {
    /// Those of a flow, none of whose values a tile has.
    pub(crate) fn new(alloc: Global, flow: &Flow) -> Result<Places, AllocError>
        ensures { IfOk result (λ places. AreMarks flow.now places []) }
    {
        Ok(Places {
            marks: vec![in alloc; false; flow.nodes.len() * MAX_TILES]?,
        })
    }

    /// Whether a tile has a value.
    pub(crate) fn has(&self, v: u32, t: u32) -> bool
        ensures { (flow : Dataflow) (held : List Holding) → AreMarks flow self.now held → v < length flow.nodes → t < MAX_TILES →
            result ≡ has held v t }
    {
        let place = v as usize * MAX_TILES + t as usize;
        if place < self.marks.len() {
            self.marks[place]
        } else {
            false
        }
    }

    /// A tile has a value from now on.
    pub(crate) fn put(&mut self, v: u32, t: u32)
        requires { t < MAX_TILES }
        ensures { (flow : Dataflow) (held : List Holding) → AreMarks flow self.old held → AreMarks flow self.new (with_value held v t) }
    {
        let place = v as usize * MAX_TILES + t as usize;
        if place < self.marks.len() {
            self.marks[place] = true;
        }
    }
}
