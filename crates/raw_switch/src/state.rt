//! The local state of a switch.

use raw_model::Mark;
use std::marker::Model;

/// The local state of a switch.
#[derive(Clone, Copy, PartialEq, Eq)]
pub struct SwitchState {
    /// The registers, which all start at 0.
    pub regs: [u32; 4],
    /// The number of the next instruction, from 0 on.
    pub pc: u32,
    /// How many instructions the switch has executed.
    pub count: u64,
    /// Whether it goes on, and if not, why.
    pub mark: Mark,
}

impl Model for SwitchState {
    ghost use Rattle.raw_model.specs.Local.{SwitchLocal};

    ghost Value = { SwitchLocal };

    ghost view = { λ switch.
        record { regs = switch.regs; pc = switch.pc; count = switch.count; mark = switch.mark } };

    ghost inverse = { λ switch.
        record { regs = switch.regs; pc = switch.pc; count = switch.count; mark = switch.mark } };
}
