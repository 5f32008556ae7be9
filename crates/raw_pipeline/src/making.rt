//! The instructions of an operation.
use crate::lives::Held;
use crate::tile_code::{SCRATCH, TileCode};
use raw_body::{Operand as BodyOperand, Origin, Position};
use raw_frame::{Register, ValueId};
use raw_graph::Operand;
use raw_modulo::{LocalId, OperandId, RowLocal, named, step};
use raw_selection::copy;
use std::alloc::AllocError;

/// A word that is dropped: when its user would take it, and its network's register.
#[derive(Clone, Copy)]
struct Dropped {
    taken: usize,
    from: Register,
}

// The word that an operation on two words makes.
fn known(origin: Origin) -> Option<u32> {
    match origin {
        Origin::Made {
            op,
            a: BodyOperand::Word(a),
            b: BodyOperand::Word(b),
        } => Some(op.apply(a, b)),
        _ => None,
    }
}

impl TileCode<'_> {
    // The register that an operation writes.
    fn target(&self, value: ValueId, step: usize) -> Register {
        let local = self.plan.task.first_local(value);
        let register = self.local_register(local, step);
        if self.plan.schedule.sent.at(value).is_some() {
            return register;
        }
        match self.plan.schedule.messages.at(value) {
            Some(message) => Register::of_network(message.net),
            None if self.plan.task.locals.at(local).comes => Register::ZERO,
            None => register,
        }
    }

    // The register of a constant of an operation.
    fn constant_register(&self, value: ValueId, step: usize) -> Register {
        let kept = match self.plan.task.constant_of.at(value) {
            Some(number) => self.plan.registers.constants.at(number),
            None => None,
        };
        match kept {
            Some(register) => register,
            None => self.plan.registers.at(Held::Constant(value), step),
        }
    }

    // The register from which a local that comes is read: its network's, its own, or one for a first word.
    fn read_coming(
        &mut self,
        local: LocalId,
        is_taken: bool,
        step: usize,
        scratch: Register,
    ) -> Result<Register, AllocError> {
        let Some(coming) = self.plan.schedule.comings.at(local) else {
            return Ok(Register::ZERO);
        };
        if !is_taken {
            return Ok(self.local_register(local, step));
        }
        if step >= self.plan.lead {
            return Ok(Register::of_network(coming.net));
        }
        let value = self.plan.task.locals.at(local).value;
        let word = self.plan.first_word(value, step).unwrap_or(0);
        self.load_word(scratch, word)?;
        Ok(scratch)
    }

    // The register from which an operation reads a value.
    fn read_value(
        &mut self,
        value: ValueId,
        position: Position,
        step: usize,
    ) -> Result<Register, AllocError> {
        let Some(RowLocal { local, back }) = self.plan.task.operand(value, position) else {
            return Ok(Register::ZERO);
        };
        if self.plan.task.in_memory.at(local) {
            let held = Held::Operand(OperandId::of(value, position));
            return Ok(self.plan.registers.at(held, step));
        }
        let step = step.saturating_sub(back);
        match self.plan.schedule.comings.at(local) {
            Some(coming) => {
                let [first, second] = SCRATCH;
                let scratch = match position {
                    Position::First => first,
                    Position::Second => second,
                };
                self.read_coming(local, coming.taken.is_some(), step, scratch)
            }
            None => Ok(self.local_register(local, step)),
        }
    }

    // The register from which an operation reads an operand.
    fn read(
        &mut self,
        value: ValueId,
        operand: Operand,
        step: usize,
    ) -> Result<Register, AllocError> {
        match operand {
            Operand::Word(0) => Ok(Register::ZERO),
            Operand::Word(_) => Ok(self.constant_register(value, step)),
            Operand::Value(_) if operand == named(Position::First) => {
                self.read_value(value, Position::First, step)
            }
            Operand::Value(_) => self.read_value(value, Position::Second, step),
        }
    }

    // Does an operation.
    fn operate(&mut self, value: ValueId, at: usize) -> Result<(), AllocError> {
        let origin = self.plan.task.body.origin(value);
        let target = self.target(value, at);
        if let Some(word) = known(origin) {
            return self.load_word(target, word);
        }
        let Some(step) = step(origin) else {
            return Ok(());
        };
        let first = self.read(value, step.first(), at)?;
        let second = match step.second() {
            Some(operand) => self.read(value, operand, at)?,
            None => Register::ZERO,
        };
        self.push(step.instruction(target, first, second))
    }

    // The word of an operand that comes for a row past the last, and has to be dropped.
    fn dropped(&self, value: ValueId, position: Position, step: usize) -> Option<Dropped> {
        let RowLocal { local, back } = self.plan.task.operand(value, position)?;
        let coming = self.plan.schedule.comings.at(local)?;
        let step = step.checked_sub(back)?;
        let taken = coming.taken?;
        if self
            .plan
            .is_there(self.plan.task.locals.at(local).value, step)
        {
            let from = Register::of_network(coming.net);
            Some(Dropped { taken, from })
        } else {
            None
        }
    }

    // Drops a word.
    fn drop_word(&mut self, dropped: Option<Dropped>) -> Result<(), AllocError> {
        match dropped {
            Some(dropped) => self.push(copy(Register::ZERO, dropped.from)),
            None => Ok(()),
        }
    }

    // Drops the words that come for a row past the last, as they come.
    fn drop_words(&mut self, value: ValueId, step: usize) -> Result<(), AllocError> {
        let first = self.dropped(value, Position::First, step);
        let second = self.dropped(value, Position::Second, step);
        let is_swapped = match (first, second) {
            (Some(first), Some(second)) => second.taken < first.taken,
            _ => false,
        };
        let (first, second) = if is_swapped {
            (second, first)
        } else {
            (first, second)
        };
        self.drop_word(first)?;
        self.drop_word(second)
    }

    /// Does the operation of a value in a step. Before the first row it is taken for its first word, and past the last
    /// one the words are dropped that come for it.
    pub(crate) fn make(&mut self, value: ValueId, step: usize) -> Result<(), AllocError> {
        if step < self.plan.lead {
            return self.take_made_first(value, step);
        }
        if self.plan.is_there(value, step) {
            self.operate(value, step)
        } else {
            self.drop_words(value, step)
        }
    }
}
