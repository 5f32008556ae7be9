//! A machine taken apart.
ghost use Rattle.std.specs.Prelude.{◌≡◌};
ghost use Rattle.raw_serial.specs.Taken.{IsMadeOf, IsWhole};

use crate::machine::Machine;
use crate::wires::Wires;
use arrayvec::ArrayVec;
use raw_model::Set;
use raw_processor::{EndWires, Processor};

/// The parts of a machine, in the order of their numbers.
///
/// A machine can be made of them again, as they are or after more steps.
#[derive(Drop)]
pub struct Parts {
    /// The wires at the ends of each processor. They are those of the grid, whatever steps are taken.
    pub ends: Vec<EndWires>,
    /// The processors: tiles, switches, and ports.
    pub processors: Vec<Processor>,
    /// The values on each wire, front first.
    pub wires: Vec<ArrayVec<u32, 8>>,
}

impl<'s> Machine<'s> {
    /// Takes a machine apart.
    pub fn into_parts(self) -> Parts
        ensures made { IsMadeOf self.entry result }
        ensures whole { IsWhole self.entry.set result }
    {
        Parts {
            ends: self.ends,
            processors: self.processors,
            wires: self.wires.queues,
        }
    }

    /// Makes a machine of its parts again. This takes no memory.
    ///
    /// The parts may have taken more steps since the machine was taken apart, in any order: what they
    /// stand for has to be what a lawful list of steps comes to.
    pub fn from_parts(set: &'s Set, parts: Parts) -> Self
        requires { IsWhole set.now parts }
        ensures made { IsMadeOf result parts }
        ensures set { result.set ≡ set.now }
    {
        // The set is read so that its invariant is known.
        let _limit = set.limit;
        Machine {
            set,
            ends: parts.ends,
            processors: parts.processors,
            wires: Wires {
                queues: parts.wires,
            },
        }
    }
}
