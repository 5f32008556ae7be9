//! The body of a stream.
use crate::body::{Body, Operand, Origin, Position, RowValue, SinkId, SourceId};
use crate::folding::{Earlier, Folded, fold};
use raw_flow::{FlowOp, Node};
use raw_frame::{Table, ValueId};
use raw_stream::{StreamFlow, StreamOut};
use raw_term::TermRefusal;
use std::alloc::{AllocError, Global};

/// Values in the making: their origins, and the words that they are taken for in rows below the first.
#[derive(Drop)]
struct Building<'a> {
    folded: &'a Folded,
    /// By the numbers of the terms.
    needed: Table<usize, bool>,
    /// The value of each term that has one.
    values: Table<usize, Option<ValueId>>,
    origins: Table<ValueId, Origin>,
    firsts: Vec<Vec<u32>>,
    /// For each value another one that is the same but below the first row.
    twins: Table<ValueId, Option<ValueId>>,
    /// Terms whose operands are still to be looked at.
    stack: Vec<u32>,
}

// Whether two lists are the same as far as both go.
fn agree(known: &[u32], words: &[u32]) -> bool {
    known.iter().zip(words).all(|(one, other)| one == other)
}

// An operation. A complement is `nor` of a value with itself, which loads no word.
fn made(op: FlowOp, a: Operand, b: Operand) -> Origin {
    match (op, b) {
        (FlowOp::Xor, Operand::Word(u32::MAX)) => Origin::Made {
            op: FlowOp::Nor,
            a,
            b: a,
        },
        _ => Origin::Made { op, a, b },
    }
}

// A value that is the same as an operand.
fn same_as(operand: Operand) -> Origin {
    Origin::Made {
        op: FlowOp::Or,
        a: operand,
        b: Operand::Word(0),
    }
}

// Adds how often each value is an out.
fn count_outs(counts: &mut Table<ValueId, usize>, operands: &[Operand]) {
    for operand in operands {
        if let Some(RowValue { value, .. }) = operand.value() {
            counts.put(value, counts.at(value).saturating_add(1));
        }
    }
}

impl<'a> Building<'a> {
    fn new(alloc: Global, folded: &'a Folded) -> Result<Building<'a>, AllocError> {
        let count = folded.table.len() as usize;
        Ok(Building {
            folded,
            needed: Table::new(alloc, count, false)?,
            values: Table::new(alloc, count, None)?,
            origins: Table::new(alloc, 0, Origin::Input(SourceId(0)))?,
            firsts: Vec::new(alloc),
            twins: Table::new(alloc, 0, None)?,
            stack: Vec::new(alloc),
        })
    }

    // Adds a value.
    fn add(&mut self, alloc: Global, origin: Origin) -> Result<ValueId, AllocError> {
        let value = ValueId(self.origins.size());
        self.origins.push(origin)?;
        self.firsts.push(Vec::new(alloc))?;
        self.twins.push(None)?;
        Ok(value)
    }

    // A term is needed.
    fn need(&mut self, alloc: Global, term: u32) -> Result<(), AllocError> {
        let earlier = self.folded.earlier(alloc, term)?;
        let place = earlier.term as usize;
        if !self.needed.at(place) {
            self.needed.put(place, true);
            self.stack.push(earlier.term)?;
        }
        Ok(())
    }

    // The operands of a term are needed.
    fn need_operands(&mut self, alloc: Global, term: u32) -> Result<(), AllocError> {
        match self.folded.table.node(term) {
            Some(Node::Apply { a, b, .. }) => {
                self.need(alloc, a)?;
                self.need(alloc, b)
            }
            _ => Ok(()),
        }
    }

    // All terms that outs need are marked.
    fn mark(&mut self, alloc: Global, outs: &[StreamOut]) -> Result<(), AllocError> {
        for out in outs {
            self.need(alloc, self.folded.term(out.node as usize))?;
        }
        for _ in 0..self.needed.size() {
            let Some(term) = self.stack.pop() else {
                break;
            };
            self.need_operands(alloc, term)?;
        }
        Ok(())
    }

    // Whether a term has a value: each input, each operation that is needed, and what is needed and is itself some rows
    // before.
    fn has_value(&self, term: u32) -> bool {
        let is_operation = matches!(self.folded.table.node(term), Some(Node::Apply { .. }));
        self.folded.source(term).is_some()
            || self.needed.at(term as usize) && (is_operation || self.folded.is_root(term))
    }

    // Each term that has a value gets it.
    fn number_all(&mut self, alloc: Global) -> Result<(), AllocError> {
        for term in 0..self.folded.table.len() {
            if self.has_value(term) {
                let source = self.folded.source(term).unwrap_or(SourceId(0));
                let value = self.add(alloc, Origin::Input(source))?;
                self.values.put(term as usize, Some(value));
            }
        }
        Ok(())
    }

    // The value of a term; a word gets one here.
    fn value(&mut self, alloc: Global, term: u32) -> Result<ValueId, AllocError> {
        if let Some(value) = self.values.at(term as usize) {
            return Ok(value);
        }
        let word = self.folded.table.word(term).unwrap_or(0);
        let value = self.add(alloc, same_as(Operand::Word(word)))?;
        self.values.put(term as usize, Some(value));
        Ok(value)
    }

    // The words that a value is taken for below the first row.
    fn firsts_of(&self, value: ValueId) -> &[u32] {
        let firsts = self.firsts.get(value.0);
        firsts.map_or(&[], |firsts| firsts.as_slice())
    }

    // From now on a value is taken for these words, where it was for some of them before.
    fn take_for(&mut self, value: ValueId, words: Vec<u32>) {
        if let Some(firsts) = self.firsts.get_mut(value.0) {
            if firsts.len() < words.len() {
                *firsts = words;
            }
        }
    }

    // The other value that is the same as a value in each row.
    fn twin(&mut self, alloc: Global, value: ValueId, at: ValueId) -> Result<ValueId, AllocError> {
        if let Some(twin) = self.twins.at(at) {
            return Ok(twin);
        }
        let twin = self.add(alloc, same_as(Operand::of_row(value)))?;
        self.twins.put(at, Some(twin));
        Ok(twin)
    }

    // A value, or one that is the same in each row, that is taken for these words below the first row.
    fn with_firsts(
        &mut self,
        alloc: Global,
        value: ValueId,
        words: Vec<u32>,
    ) -> Result<ValueId, AllocError> {
        let mut at = value;
        for _ in 0..self.origins.size() {
            if agree(self.firsts_of(at), &words) {
                break;
            }
            at = self.twin(alloc, value, at)?;
        }
        self.take_for(at, words);
        Ok(at)
    }

    // What a term is, some rows before, as an operand.
    fn operand_of(&mut self, alloc: Global, earlier: Earlier) -> Result<Operand, AllocError> {
        let Earlier { term, mut words } = earlier;
        if let Some(word) = self.folded.table.word(term) {
            if words.iter().all(|other| *other == word) {
                return Ok(Operand::Word(word));
            }
        }
        let value = self.value(alloc, term)?;
        let back = words.len();
        if back == 0 {
            return Ok(Operand::of_row(value));
        }
        words.reverse();
        let value = self.with_firsts(alloc, value, words)?;
        Ok(Operand::Value(RowValue { value, back }))
    }

    // A term as an operand.
    fn operand(&mut self, alloc: Global, term: u32) -> Result<Operand, AllocError> {
        let earlier = self.folded.earlier(alloc, term)?;
        self.operand_of(alloc, earlier)
    }

    // A value that is itself some rows before.
    fn define_root(&mut self, alloc: Global, term: u32) -> Result<(), AllocError> {
        if let Some(value) = self.values.at(term as usize) {
            let earlier = self.folded.around(alloc, term)?;
            let operand = self.operand_of(alloc, earlier)?;
            self.origins.put(value, same_as(operand));
        }
        Ok(())
    }

    // Where the value of a term comes from.
    fn define(&mut self, alloc: Global, term: u32) -> Result<(), AllocError> {
        if self.folded.is_root(term) {
            return self.define_root(alloc, term);
        }
        if let Some(Node::Apply { op, a, b }) = self.folded.table.node(term) {
            if let Some(value) = self.values.at(term as usize) {
                let (a, b) = (self.operand(alloc, a)?, self.operand(alloc, b)?);
                self.origins.put(value, made(op, a, b));
            }
        }
        Ok(())
    }

    // The same of all terms.
    fn define_all(&mut self, alloc: Global) -> Result<(), AllocError> {
        for term in 0..self.folded.table.len() {
            self.define(alloc, term)?;
        }
        Ok(())
    }

    // How often each value is used by others.
    fn use_counts(&self, alloc: Global) -> Result<Table<ValueId, usize>, AllocError> {
        let mut counts = Table::new(alloc, self.origins.size(), 0_usize)?;
        for user in (0..self.origins.size()).map(ValueId) {
            for position in Position::BOTH {
                if let Some(RowValue { value, .. }) = self.origins.at(user).value(position) {
                    counts.put(value, counts.at(value).saturating_add(1));
                }
            }
        }
        Ok(counts)
    }

    // The value that an out can be itself: one that is made, and that only this out needs.
    fn free_value(&self, operand: Operand, counts: &Table<ValueId, usize>) -> Option<ValueId> {
        let RowValue { value, back } = operand.value()?;
        if back == 0 && counts.at(value) == 1 && !self.origins.at(value).is_input() {
            Some(value)
        } else {
            None
        }
    }

    // The value of an out: one that nothing else needs.
    fn out_value(
        &mut self,
        alloc: Global,
        operand: Operand,
        counts: &Table<ValueId, usize>,
    ) -> Result<ValueId, AllocError> {
        match self.free_value(operand, counts) {
            Some(value) => Ok(value),
            None => self.add(alloc, same_as(operand)),
        }
    }

    // Each input that nobody uses is taken by an operation.
    fn take_inputs(
        &mut self,
        alloc: Global,
        counts: &Table<ValueId, usize>,
    ) -> Result<(), AllocError> {
        for value in (0..counts.size()).map(ValueId) {
            if self.origins.at(value).is_input() && counts.at(value) == 0 {
                self.add(alloc, same_as(Operand::of_row(value)))?;
            }
        }
        Ok(())
    }

    // The outs as operands.
    fn out_operands(
        &mut self,
        alloc: Global,
        outs: &[StreamOut],
    ) -> Result<Vec<Operand>, AllocError> {
        let mut operands = Vec::new(alloc);
        for out in outs {
            operands.push(self.operand(alloc, self.folded.term(out.node as usize))?)?;
        }
        Ok(operands)
    }

    // The values of the outs, in their order.
    fn out_values(
        &mut self,
        alloc: Global,
        operands: &[Operand],
    ) -> Result<Vec<ValueId>, AllocError> {
        let mut counts = self.use_counts(alloc)?;
        count_outs(&mut counts, operands);
        let mut values = Vec::new(alloc);
        for operand in operands {
            values.push(self.out_value(alloc, *operand, &counts)?)?;
        }
        self.take_inputs(alloc, &counts)?;
        Ok(values)
    }

    // The values as a body.
    fn finish(
        self,
        alloc: Global,
        outs: &[StreamOut],
        values: &[ValueId],
    ) -> Result<Body, AllocError> {
        let count = self.origins.size();
        let mut body = Body::new(alloc, 1, count);
        for value in (0..count).map(ValueId) {
            let firsts = self.firsts_of(value).to_vec(alloc)?;
            body.add(alloc, self.origins.at(value), firsts)?;
        }
        body.link()?;
        for (out, value) in outs.iter().zip(values) {
            body.add_out(SinkId(out.port as usize), *value)?;
        }
        Ok(body)
    }
}

/// What is computed of a row of a stream. None where there are more terms than a table holds.
pub fn body_of(alloc: Global, stream: &StreamFlow) -> Result<Option<Body>, AllocError> {
    let folded = match fold(alloc, stream) {
        Ok(folded) => folded,
        Err(TermRefusal::TooMany) => return Ok(None),
        Err(TermRefusal::Memory) => return Err(AllocError),
    };
    let mut building = Building::new(alloc, &folded)?;
    building.mark(alloc, &stream.outs)?;
    building.number_all(alloc)?;
    building.define_all(alloc)?;
    let operands = building.out_operands(alloc, &stream.outs)?;
    let values = building.out_values(alloc, &operands)?;
    let body = building.finish(alloc, &stream.outs, &values)?;
    Ok(Some(body))
}
