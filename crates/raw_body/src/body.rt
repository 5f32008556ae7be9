//! The values of a row.
use raw_flow::FlowOp;
use raw_frame::{Numbered, OutId, Table, ValueId};
use std::alloc::{AllocError, Global};

/// A source of a stream by its number.
#[derive(Clone, Copy, PartialEq, Eq)]
pub struct SourceId(pub usize);

impl Numbered for SourceId {
    fn number(self) -> usize {
        self.0
    }
}

/// A sink of a stream by its number.
#[derive(Clone, Copy, PartialEq, Eq)]
pub struct SinkId(pub usize);

impl Numbered for SinkId {
    fn number(self) -> usize {
        self.0
    }
}

/// A value as it was some rows before.
#[derive(Clone, Copy, PartialEq, Eq)]
pub struct RowValue {
    pub value: ValueId,
    /// How many rows before it is meant.
    pub back: usize,
}

/// What an operation is on.
#[derive(Clone, Copy, PartialEq, Eq)]
pub enum Operand {
    /// A word that is known.
    Word(u32),
    Value(RowValue),
}

impl Operand {
    /// A value of the same row.
    pub(crate) fn of_row(value: ValueId) -> Operand {
        Operand::Value(RowValue { value, back: 0 })
    }

    /// The value, where it is one.
    pub fn value(self) -> Option<RowValue> {
        match self {
            Operand::Word(_) => None,
            Operand::Value(value) => Some(value),
        }
    }
}

/// Which of the two operands of an operation.
#[derive(Clone, Copy, PartialEq, Eq)]
pub enum Position {
    First,
    Second,
}

impl Position {
    /// Both, in their order.
    pub const BOTH: [Position; 2] = [Position::First, Position::Second];

    /// The place among both, from 0.
    pub fn index(self) -> usize {
        match self {
            Position::First => 0,
            Position::Second => 1,
        }
    }
}

/// Where a value comes from.
#[derive(Clone, Copy, PartialEq, Eq)]
pub enum Origin {
    /// It is the next word of the source.
    Input(SourceId),
    Made { op: FlowOp, a: Operand, b: Operand },
}

impl Origin {
    /// One of its operands; an input has none.
    pub fn operand(self, position: Position) -> Option<Operand> {
        match (self, position) {
            (Origin::Input(_), _) => None,
            (Origin::Made { a, .. }, Position::First) => Some(a),
            (Origin::Made { b, .. }, Position::Second) => Some(b),
        }
    }

    /// The value that is one of its operands.
    pub fn value(self, position: Position) -> Option<RowValue> {
        self.operand(position)?.value()
    }

    /// The source of which it is a word.
    pub fn source(self) -> Option<SourceId> {
        match self {
            Origin::Input(source) => Some(source),
            Origin::Made { .. } => None,
        }
    }

    /// Whether it is an input.
    pub fn is_input(self) -> bool {
        matches!(self, Origin::Input(_))
    }
}

/// A use of a value.
#[derive(Clone, Copy, PartialEq, Eq)]
pub struct Use {
    /// The value that is made of it.
    pub user: ValueId,
    /// How many rows before that it is meant.
    pub back: usize,
}

/// A value that goes to a sink.
#[derive(Clone, Copy, PartialEq, Eq)]
pub struct RowOut {
    pub sink: SinkId,
    pub value: ValueId,
}

#[derive(Drop)]
struct Value {
    origin: Origin,
    uses: Vec<Use>,
    out: Option<OutId>,
    /// What it is taken for in rows below the first: the word of one row below, of two, and so on.
    firsts: Vec<u32>,
}

/// The values of some rows of a stream. An operand of the same row has a lower number. An out is used by no value, and
/// is made.
#[derive(Drop)]
pub struct Body {
    /// Of how many rows it is.
    pub rows: usize,
    /// How many values each row has. Those of the second row are numbered behind those of the first.
    pub of_row: usize,
    values: Vec<Value>,
    /// The outs, in their order.
    pub outs: Vec<RowOut>,
}

impl Body {
    /// A body of so many rows with no value.
    pub(crate) fn new(alloc: Global, rows: usize, of_row: usize) -> Body {
        Body {
            rows,
            of_row,
            values: Vec::new(alloc),
            outs: Vec::new(alloc),
        }
    }

    /// Adds a value; its users come with `link`.
    pub(crate) fn add(
        &mut self,
        alloc: Global,
        origin: Origin,
        firsts: Vec<u32>,
    ) -> Result<(), AllocError> {
        self.values.push(Value {
            origin,
            uses: Vec::new(alloc),
            out: None,
            firsts,
        })?;
        Ok(())
    }

    /// Adds an out.
    pub(crate) fn add_out(&mut self, sink: SinkId, value: ValueId) -> Result<(), AllocError> {
        let place = OutId(self.outs.len());
        if let Some(value) = self.values.get_mut(value.0) {
            value.out = Some(place);
        }
        self.outs.push(RowOut { sink, value })?;
        Ok(())
    }

    // A value uses another.
    fn add_use(&mut self, operand: Option<RowValue>, user: ValueId) -> Result<(), AllocError> {
        if let Some(RowValue { value, back }) = operand {
            if let Some(value) = self.values.get_mut(value.0) {
                value.uses.push(Use { user, back })?;
            }
        }
        Ok(())
    }

    /// All values with their users.
    pub(crate) fn link(&mut self) -> Result<(), AllocError> {
        for user in (0..self.values.len()).map(ValueId) {
            let origin = self.origin(user);
            self.add_use(origin.value(Position::First), user)?;
            self.add_use(origin.value(Position::Second), user)?;
        }
        Ok(())
    }

    /// How many values there are.
    pub fn count(&self) -> usize {
        self.values.len()
    }

    /// Which of the rows a value is of.
    pub fn row_of(&self, value: ValueId) -> usize {
        value.0.checked_div(self.of_row).unwrap_or(0)
    }

    /// Where a value comes from.
    pub fn origin(&self, value: ValueId) -> Origin {
        match self.values.get(value.0) {
            Some(value) => value.origin,
            None => Origin::Input(SourceId(0)),
        }
    }

    /// Where a value is used, an operation on it twice.
    pub fn uses(&self, value: ValueId) -> &[Use] {
        let value = self.values.get(value.0);
        value.map_or(&[], |value| value.uses.as_slice())
    }

    /// Which of the outs a value is.
    pub fn out_of(&self, value: ValueId) -> Option<OutId> {
        self.values.get(value.0)?.out
    }

    /// The sink to which a value goes.
    pub fn sink_of(&self, value: ValueId) -> Option<SinkId> {
        let out = self.out_of(value)?;
        Some(self.outs.get(out.0)?.sink)
    }

    /// The words that a value is taken for in rows below the first.
    pub(crate) fn firsts(&self, value: ValueId) -> &[u32] {
        let value = self.values.get(value.0);
        value.map_or(&[], |value| value.firsts.as_slice())
    }

    /// What a value is taken for where the rows of the body are so many times before the first, if any of its users
    /// looks there.
    pub fn first_word(&self, value: ValueId, times: usize) -> Option<u32> {
        let below = times.saturating_mul(self.rows);
        let below = below.checked_sub(self.row_of(value))?;
        let place = below.checked_sub(1)?;
        let value = value.0.checked_rem(self.of_row)?;
        self.firsts(ValueId(value)).get(place).copied()
    }

    /// How many values are made, and not put in.
    pub fn made_count(&self) -> usize {
        let values = self.values.iter();
        values.filter(|value| !value.origin.is_input()).count()
    }

    /// How many times the rows of the body are before those of a use, at most.
    pub fn most_back(&self) -> usize {
        let mut most = 0;
        for value in &self.values {
            for used in &value.uses {
                most = used.back.max(most);
            }
        }
        most
    }

    /// How many words each of so many sources gives.
    pub fn given(
        &self,
        alloc: Global,
        sources: usize,
    ) -> Result<Table<SourceId, usize>, AllocError> {
        let mut given = Table::new(alloc, sources, 0_usize)?;
        for value in &self.values {
            if let Some(source) = value.origin.source() {
                given.put(source, given.at(source).saturating_add(1));
            }
        }
        Ok(given)
    }

    /// How many words each of so many sinks gets.
    pub fn gotten(&self, alloc: Global, sinks: usize) -> Result<Table<SinkId, usize>, AllocError> {
        let mut gotten = Table::new(alloc, sinks, 0_usize)?;
        for out in &self.outs {
            gotten.put(out.sink, gotten.at(out.sink).saturating_add(1));
        }
        Ok(gotten)
    }
}
