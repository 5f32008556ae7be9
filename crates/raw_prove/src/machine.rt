//! A machine that runs a set with terms in the place of words.
ghost use Rattle.std.specs.Prelude.{◌≡◌, ◌<◌, IfOk};
ghost use Rattle.std.specs.List.{flat_map};
ghost use Rattle.raw_grid.specs.Topology.{proc_count};
ghost use Rattle.raw_model.specs.Program.{IsSet};
ghost use Rattle.raw_model.specs.Parts.{received};
ghost use Rattle.raw_prove.specs.Units.{state_of, MachineStands};
ghost use Rattle.raw_prove.specs.Turns.{IsTurnOf};

use crate::turn::Turn;
use crate::turns::turn_unit;
use crate::unit::Unit;
use raw_grid::ProcId;
use raw_model::Set;
use raw_processor::EndWires;
use raw_serial::Wires;
use raw_term::TermTable;
use std::alloc::{AllocError, Global};

/// A machine that runs a set with terms: the k-th word of all its sources is the k-th input.
#[derive(Drop)]
pub struct Machine {
    /// The wires at the ends of each processor.
    pub ends: Vec<EndWires>,
    /// The processors, in the order of their numbers.
    pub units: Vec<Unit>,
    /// The numbers of the terms on each wire.
    pub wires: Wires,
    pub table: TermTable,
}

impl Machine {
    /// Gives a processor its turn. After one that hangs, or needs too many terms, or for which memory is wanting, the
    /// machine is not used again.
    pub(crate) fn turn(&mut self, set: &Set, p: ProcId) -> Result<Turn, AllocError>
        requires valid { IsSet set.now }
        requires stands { MachineStands set.now self.old }
        requires proc { p.0 < proc_count set.now.topo }
        ensures { IfOk result (λ turn. IsTurnOf set.now p.0 self.old turn self.new) }
    {
        let i = p.0 as usize;
        let ends = &self.ends[i];
        let unit = &mut self.units[i];
        let turn = turn_unit(set, p, ends, unit, &mut self.wires, &mut self.table)?;
        // The table is read so that its limit is known.
        let _terms = self.table.len();
        Ok(turn)
    }

    /// The numbers of the terms that all sinks have received, those of the first port first.
    pub(crate) fn received(&self, alloc: Global) -> Result<Vec<u32>, AllocError>
        ensures { IfOk result (λ got. got.items ≡ received (state_of self.now).state) }
    {
        let mut got = Vec::new(alloc);
        for unit in &self.units {
            if let Unit::Sink(port) = unit {
                got.extend_from_slice(&port.got)?;
            }
        }
        Ok(got)
    }
}
