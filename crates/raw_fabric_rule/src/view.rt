//! What a seat at the table knows, and what the table is told when it is made.
//!
//! A view is a record of the definitions. `PassView` has no value at run time; a pass keeps only what its code reads.
//!
//! The key of the table has the caches and misses of the opened machine. So what a pass says of a cache is a sentence
//! of its own: it has seen the touches that it had seen at the opening, and those since. Closing needs nothing else.

use crate::workers::Workers;
use raw_serial::Machine;
use std::marker::Model;

/// What a seat at the table of a fabric knows. It stands in contracts alone, and no value of it is made.
pub struct PassView {
    _none: (),
}

impl Model for PassView {
    ghost use Rattle.raw_fabric_rule.specs.Views.{View, spent_view};

    ghost Value = { View };

    ghost view = { λ _. spent_view };
}

/// A machine that is to be opened, and for how many workers.
#[derive(Drop)]
pub struct Start<'s> {
    pub machine: Machine<'s>,
    pub workers: Workers,
}

impl<'s> Model for Start<'s> {
    ghost use Rattle.raw_fabric_rule.specs.Views.{About};

    ghost Value = { About };

    ghost view = { λ start. record {
      set = start.machine.set;
      opened = start.machine.state;
      caches = start.machine.caches;
      missed = start.machine.missed;
      owed = start.machine.owed;
      workers = start.workers;
    } };
}
