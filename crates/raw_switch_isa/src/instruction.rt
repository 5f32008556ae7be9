//! A switch instruction, and what its routes and its move take values from.
ghost use Rattle.std.specs.Prelude.{◌≡◌, ◌<◌, IfSome};
ghost use Rattle.raw_switch_isa.specs.Ends.{route_source, move_source, IsSource};

use crate::table::SwitchOp;
use std::marker::Model;

/// An instruction of a switch. A field that is not used is 0.
#[derive(Clone, Copy, PartialEq, Eq)]
pub struct SwitchIns {
    /// What it does beside its routes.
    pub op: SwitchOp,
    /// A register, 0 to 3; 0 for `nop`, `j` and `halt`.
    pub rd: u8,
    /// What a `move` takes its value from: 0 to 3 a register, 4 to 8 the inputs N, E, S, W, P of
    /// network 1, 9 to 13 those of network 2; 0 for all other operations.
    pub src: u8,
    /// An instruction number; 0 for `nop`, `move` and `halt`.
    pub target: u16,
    /// The register that routes with code 6 send, 0 to 3; 0 where no route has that code.
    pub rsel: u8,
    /// A code for each output, by its end index: 0 no route, 1 to 5 the inputs N, E, S, W, P of the
    /// output's own network, 6 the register `rsel`.
    pub routes: [u8; 10],
}

impl Model for SwitchIns {
    ghost use Rattle.raw_switch_isa.specs.Instruction.{SwitchInstruction, IsSwitchIns};

    ghost Value = { SwitchInstruction };

    ghost view = { λ i. record { op = i.op; rd = i.rd; src = i.src; target = i.target; rsel = i.rsel; routes = i.routes } };

    ghost invariant = { λ i. IsSwitchIns (record { op = i.op; rd = i.rd; src = i.src; target = i.target; rsel = i.rsel; routes = i.routes }) };

    ghost inverse = { λ i. record { op = i.op; rd = i.rd; src = i.src; target = i.target; rsel = i.rsel; routes = i.routes } };
}

/// Where a value that a switch sends or moves comes from.
#[derive(Clone, Copy, PartialEq, Eq)]
pub enum SwitchSource {
    /// The register with this number, 0 to 3, as it was before the instruction.
    Register(u8),
    /// The input with this end index, 0 to 9.
    Input(u8),
}

impl SwitchIns {
    /// What the output with this end index sends; `None` where it has no route.
    pub fn route_source(&self, output: usize) -> Option<SwitchSource>
        requires { output < 10 }
        ensures source { result ≡ route_source self.now output }
        ensures within { IfSome result IsSource }
    {
        match self.routes[output] {
            0 => None,
            6 => Some(SwitchSource::Register(self.rsel)),
            code => Some(SwitchSource::Input(5 * (output / 5) as u8 + (code - 1))),
        }
    }

    /// What a `move` takes its value from; `None` for all other operations.
    pub fn move_source(&self) -> Option<SwitchSource>
        ensures source { result ≡ move_source self.now }
        ensures within { IfSome result IsSource }
    {
        match self.op {
            SwitchOp::Move if self.src < 4 => Some(SwitchSource::Register(self.src)),
            SwitchOp::Move => Some(SwitchSource::Input(self.src - 4)),
            _ => None,
        }
    }
}
