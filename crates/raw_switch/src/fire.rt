//! One firing of a switch.
ghost use Rattle.std.specs.Prelude.{◌≡◌, ◌<◌, length, Some, IfSome};
ghost use Rattle.raw_switch_isa.specs.Ends.{IsSource, route_source};
ghost use Rattle.raw_model.specs.SwitchTable.{source_value, goes, stops, control, next_instruction, effect_of};
ghost use Rattle.raw_switch.specs.Given.{IsGivenFor};

use crate::state::SwitchState;
use crate::step::SwitchStep;
use raw_model::limits::MAX_STEPS;
use raw_model::{Cause, Mark};
use raw_switch_isa::{SwitchIns, SwitchOp, SwitchSource};
use raw_tile_isa::sub;

/// Does what an instruction does beside its routes, in a program of this size. The routes' values
/// are those that `SwitchState::sent_from` gives before this.
///
/// `given` has, by end index, the value taken from each input that the instruction names. One value
/// serves every use of its input. Routes and a `move` read the registers as they were before the
/// instruction. Where the next pc is past the program the row is done in full, and the switch is
/// trapped. These rules are the project's own. The call takes no memory and refuses nothing.
#[inline(always)]
pub fn switch_fire(
    state: &mut SwitchState,
    size: usize,
    step: &SwitchStep,
    given: &[Option<u32>; 10],
)
    requires going { state.old.mark ≡ Mark.Going }
    requires count { state.old.count < MAX_STEPS }
    requires given { IsGivenFor (Some step.now) given.now }
    ensures { state.new ≡ (effect_of (Some step.now) size state.old given.now).next }
{
    // Only a move has a source here, and its value is given.
    let value = state
        .source_value(step.ins.move_source(), given)
        .unwrap_or(0);
    state.do_control(size, &step.ins, value);
}

impl SwitchState {
    /// The instruction at the pc.
    pub fn instruction<'a>(&self, code: &'a [SwitchStep]) -> &'a SwitchStep
        requires { self.now.pc < length code.now }
        ensures { next_instruction code.now self.now ≡ Some result.now }
    {
        &code[self.pc as usize]
    }

    // The value of a source: that of a register, or the one given for an input.
    fn source_value(&self, source: Option<SwitchSource>, given: &[Option<u32>; 10]) -> Option<u32>
        requires { IfSome source IsSource }
        ensures { result ≡ source_value self.now.regs given.now source }
    {
        match source? {
            SwitchSource::Register(register) => Some(self.regs[register as usize]),
            SwitchSource::Input(input) => given[input as usize],
        }
    }

    /// The value that an output sends, by end index, where the instruction has a route to it.
    #[inline(always)]
    pub fn sent_from(
        &self,
        step: &SwitchStep,
        output: usize,
        given: &[Option<u32>; 10],
    ) -> Option<u32>
        requires { output < 10 }
        ensures { result ≡ source_value self.now.regs given.now (route_source step.now output) }
    {
        self.source_value(step.sources[output], given)
    }

    /// Does what an instruction does beside its routes, in a program of so many instructions. `value` is that of a
    /// move's source, and is not looked at by others.
    pub fn do_control(&mut self, size: usize, ins: &SwitchIns, value: u32)
        requires going { self.old.mark ≡ Mark.Going }
        requires count { self.old.count < MAX_STEPS }
        ensures { self.new ≡ control ins.now.op size self.old ins.now value }
    {
        let rd = ins.rd as usize;
        let is_zero = self.regs[rd] == 0;
        let following = self.pc.wrapping_add(1);
        let target = u32::from(ins.target);
        match ins.op {
            SwitchOp::Nop => self.go(size, following),
            SwitchOp::Jump => self.go(size, target),
            SwitchOp::Beqz => self.go(size, if is_zero { target } else { following }),
            SwitchOp::Bnez => self.go(size, if is_zero { following } else { target }),
            SwitchOp::Bnezd => {
                self.regs[rd] = sub(self.regs[rd], 1);
                self.go(size, if is_zero { following } else { target });
            }
            SwitchOp::Move => {
                self.regs[rd] = value;
                self.go(size, following);
            }
            SwitchOp::Halt => self.stop(Mark::Halted),
        }
    }

    /// The switch goes on at a pc, in a program of so many instructions: the count rises by 1. Where the pc is past the
    /// program, the switch is trapped as `Pc`.
    pub fn go(&mut self, size: usize, pc: u32)
        requires going { self.old.mark ≡ Mark.Going }
        requires count { self.old.count < MAX_STEPS }
        ensures { self.new ≡ goes size self.old self.old.regs pc }
    {
        self.pc = pc;
        self.count += 1;
        if pc as usize >= size {
            self.mark = Mark::Trapped(Cause::Pc);
        }
    }

    // The switch stops with a mark.
    fn stop(&mut self, mark: Mark)
        requires { self.old.count < MAX_STEPS }
        ensures { self.new ≡ stops self.old mark }
    {
        self.count += 1;
        self.mark = mark;
    }
}
