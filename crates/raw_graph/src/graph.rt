//! The values that the outs of a flow need.
use raw_flow::FlowOp;
use raw_frame::{OutId, ValueId};
use std::alloc::{AllocError, Global};

/// What an operation is on.
#[derive(Clone, Copy, PartialEq, Eq)]
pub enum Operand {
    /// A word that is known.
    Word(u32),
    Value(ValueId),
}

impl Operand {
    /// The value, where it is one.
    pub fn value(self) -> Option<ValueId> {
        match self {
            Operand::Word(_) => None,
            Operand::Value(value) => Some(value),
        }
    }
}

/// Whether the operands of an operation may change places.
pub fn commutes(op: FlowOp) -> bool {
    match op {
        FlowOp::Add
        | FlowOp::Mul
        | FlowOp::MulHigh
        | FlowOp::MulHighUnsigned
        | FlowOp::And
        | FlowOp::Or
        | FlowOp::Xor
        | FlowOp::Nor => true,
        FlowOp::Sub
        | FlowOp::Less
        | FlowOp::LessUnsigned
        | FlowOp::ShiftLeft
        | FlowOp::ShiftRight
        | FlowOp::ShiftRightSigned => false,
    }
}

/// One of the inputs of a flow, by their order.
#[derive(Clone, Copy, PartialEq, Eq)]
pub struct InputId(pub usize);

/// Where a value comes from.
#[derive(Clone, Copy, PartialEq, Eq)]
pub enum Origin {
    Input(InputId),
    /// It is made of earlier values.
    Made { op: FlowOp, a: Operand, b: Operand },
}

impl Origin {
    /// The values that it is made of, each once.
    pub fn values(self) -> [Option<ValueId>; 2] {
        match self {
            Origin::Input(_) => [None, None],
            Origin::Made { a, b, .. } if a == b => [a.value(), None],
            Origin::Made { a, b, .. } => [a.value(), b.value()],
        }
    }

    /// Whether it is an input.
    pub fn is_input(self) -> bool {
        match self {
            Origin::Input(_) => true,
            Origin::Made { .. } => false,
        }
    }
}

#[derive(Drop)]
struct Value {
    origin: Origin,
    users: Vec<ValueId>,
    outs: Vec<OutId>,
}

/// Values, each made of earlier ones, and the outs that are wanted of them.
#[derive(Drop)]
pub struct Graph {
    values: Vec<Value>,
    outs: Vec<Operand>,
    inputs: Vec<Option<ValueId>>,
}

impl Graph {
    /// A graph with no value.
    pub(crate) fn new(alloc: Global) -> Graph {
        Graph {
            values: Vec::new(alloc),
            outs: Vec::new(alloc),
            inputs: Vec::new(alloc),
        }
    }

    // A value uses another.
    fn add_user(&mut self, of: Option<ValueId>, user: ValueId) -> Result<(), AllocError> {
        if let Some(of) = of {
            if let Some(value) = self.values.get_mut(of.0) {
                value.users.push(user)?;
            }
        }
        Ok(())
    }

    /// Adds a value.
    pub(crate) fn add(&mut self, alloc: Global, origin: Origin) -> Result<ValueId, AllocError> {
        let value = ValueId(self.values.len());
        let [first, second] = origin.values();
        self.add_user(first, value)?;
        self.add_user(second, value)?;
        self.values.push(Value {
            origin,
            users: Vec::new(alloc),
            outs: Vec::new(alloc),
        })?;
        Ok(value)
    }

    /// Adds an input, with its value where that is needed.
    pub(crate) fn add_input(&mut self, value: Option<ValueId>) -> Result<(), AllocError> {
        self.inputs.push(value)?;
        Ok(())
    }

    /// Adds an out.
    pub(crate) fn add_out(&mut self, out: Operand) -> Result<(), AllocError> {
        let place = OutId(self.outs.len());
        if let Operand::Value(value) = out {
            if let Some(value) = self.values.get_mut(value.0) {
                value.outs.push(place)?;
            }
        }
        self.outs.push(out)?;
        Ok(())
    }

    /// How many values there are. They are numbered from 0, each behind those that it is made of.
    pub fn count(&self) -> usize {
        self.values.len()
    }

    /// Where a value comes from.
    pub fn origin(&self, value: ValueId) -> Origin {
        match self.values.get(value.0) {
            Some(value) => value.origin,
            None => Origin::Input(InputId(0)),
        }
    }

    /// The values that are made of a value, by rising numbers.
    pub fn users(&self, value: ValueId) -> &[ValueId] {
        match self.values.get(value.0) {
            Some(value) => value.users.as_slice(),
            None => &[],
        }
    }

    /// Which of the outs a value is.
    pub fn outs_of(&self, value: ValueId) -> &[OutId] {
        match self.values.get(value.0) {
            Some(value) => value.outs.as_slice(),
            None => &[],
        }
    }

    /// The outs, in their order.
    pub fn outs(&self) -> &[Operand] {
        self.outs.as_slice()
    }

    /// How many inputs there are.
    pub fn input_count(&self) -> usize {
        self.inputs.len()
    }

    /// The value of an input; none where no out needs it.
    pub fn input(&self, input: InputId) -> Option<ValueId> {
        match self.inputs.get(input.0) {
            Some(value) => *value,
            None => None,
        }
    }
}
